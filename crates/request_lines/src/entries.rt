//! The texts of log lines.

ghost use Rattle.std.specs.Prelude.{◌≡◌, ◌++◌, [], ◌∷◌, codes, decimal, OnOk, OnErr};
ghost use Rattle.std.specs.Io.KnownBytes.{Appends};
ghost use Rattle.pcg_base.specs.Causes.{HasCause};
ghost use Rattle.pcg_base.specs.Told.{AppendsFront, IsFlushed};
ghost use Rattle.request_lines.specs.Sent.{Puts};
ghost use Rattle.request_lines.specs.Texts.{asked_text, edit_text, text_of_entry, merge_text};

use crate::lists::put_list;
use crate::page::Page;
use crate::replies::put_ids;
use op_model::{Asked, AskedPair, Edit, Entry, Ids};
use pcg_base::{Failed, Sink};

/// Puts the request of a merge of one pair.
fn put_pair<K: Sink>(page: &mut Page, out: &mut K, pair: AskedPair)
    ensures { Puts (K.state out.old) (K.state out.new) page.old page.new (merge_text (pair ∷ [])) }
{
    page.put_id(out, b"{\"a\":", pair.a);
    page.put_id(out, b",\"b\":", pair.b);
    page.put(out, b",\"do\":\"merge\"}");
}

/// Puts the request of a merge.
fn put_merge<K: Sink>(page: &mut Page, out: &mut K, pairs: &[AskedPair])
    ensures { Puts (K.state out.old) (K.state out.new) page.old page.new (merge_text pairs.now) }
{
    if pairs.len() == 1 {
        put_pair(page, out, pairs[0]);
    } else {
        page.put(out, b"{\"do\":\"merge\",\"pairs\":");
        put_list(page, out, pairs);
        page.put(out, b"}");
    }
}

/// Puts the request of a split.
fn put_split<K: Sink>(page: &mut Page, out: &mut K, sources: &Ids, sinks: &Ids)
    ensures { Puts (K.state out.old) (K.state out.new) page.old page.new
        (edit_text (Edit.Split sources.now sinks.now)) }
{
    put_ids(page, out, b"{\"do\":\"split\",\"sinks\":", sinks);
    put_ids(page, out, b",\"sources\":", sources);
    page.put(out, b"}");
}

/// Puts a piece of text, a number behind it, and the end of an object.
fn put_named<K: Sink>(page: &mut Page, out: &mut K, piece: &[u8], op: u64)
    ensures { Puts (K.state out.old) (K.state out.new) page.old page.new ((piece.now ++ decimal op)
        ++ codes "}") }
{
    page.put_number(out, piece, op);
    page.put(out, b"}");
}

/// Puts the request that made an entry.
#[tactic(auto, unfolding(crate::specs::Texts::asked_text, crate::specs::Texts::edit_text))]
fn put_asked<K: Sink>(page: &mut Page, out: &mut K, asked: &Asked)
    ensures { Puts (K.state out.old) (K.state out.new) page.old page.new (asked_text asked.now) }
{
    match asked {
        Asked::Ingest => page.put(out, b"{\"do\":\"ingest\"}"),
        Asked::Edit(Edit::Merge { pairs }) => put_merge(page, out, pairs.list.as_slice()),
        Asked::Edit(Edit::Split { sources, sinks }) => put_split(page, out, sources, sinks),
        Asked::Edit(Edit::Undo { op }) => put_named(page, out, b"{\"do\":\"undo\",\"op\":", *op),
        Asked::Edit(Edit::Redo { op }) => put_named(page, out, b"{\"do\":\"redo\",\"op\":", *op),
    }
}

/// Puts a line of the operation log.
fn put_entry<K: Sink>(page: &mut Page, out: &mut K, entry: &Entry)
    ensures { Puts (K.state out.old) (K.state out.new) page.old page.new (text_of_entry entry.now) }
{
    page.put_number(out, b"{\"at\":", entry.at);
    page.put(out, b",\"changed\":");
    put_list(page, out, entry.changed.list.as_slice());
    page.put_number(out, b",\"client\":", entry.client as u64);
    page.put_number(out, b",\"line\":", entry.line as u64);
    put_ids(page, out, b",\"made\":", &entry.made);
    page.put_number(out, b",\"op\":", entry.number as u64);
    page.put(out, b",\"request\":");
    put_asked(page, out, &entry.asked);
    put_ids(page, out, b",\"retired\":", &entry.retired);
    page.put(out, b"}\n");
}

/// Writes an entry as a line of the operation log: its text and a line feed, in pieces of 8,192
/// bytes, the last one shorter, and a flush, behind which all that the sink holds is flushed. After
/// `Failed`, which comes only where a write or the flush failed, a front of the text was written, the
/// whole of it where the flush failed. It takes no memory.
#[tactic(auto, using(crate::proofs::Whole::whole_ok))]
pub fn write_entry<K: Sink>(entry: &Entry, out: &mut K) -> Result<(), Failed>
    ensures ok { OnOk result
        (Appends (K.state out.old).held (K.state out.new).held (text_of_entry entry.now)) }
    ensures err { OnErr result
        (AppendsFront (K.state out.old).held (K.state out.new).held (text_of_entry entry.now)) }
    ensures flushed { OnOk result (IsFlushed (K.state out.new).held (K.state out.new).flushed) }
    ensures cause { HasCause (K.state out.old).faults (K.state out.new).faults result }
{
    let mut page = Page::new();
    put_entry(&mut page, out, entry);
    page.finish(out)
}
