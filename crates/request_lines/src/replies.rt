//! The texts of replies.

ghost use Rattle.std.specs.Prelude.{◌≡◌, ◌++◌, ℕ, List, Some, None, map, OnOk, OnErr};
ghost use Rattle.std.specs.Io.KnownBytes.{Appends};
ghost use Rattle.pcg_base.specs.Causes.{HasCause};
ghost use Rattle.pcg_base.specs.Told.{AppendsFront, IsFlushed};
ghost use Rattle.request_lines.specs.Sent.{Puts};
ghost use Rattle.request_lines.specs.Texts.{edited_text, ids_text, text_of_reply};

use crate::lists::put_list;
use crate::page::Page;
use crate::refused::{put_bad_line, put_bare, put_refused, put_seen};
use node_ids::NodeId;
use op_model::{Ids, PathIds, Reply, Shown, Summaries};
use pcg_base::{Failed, Sink};

/// Puts the answer to a read of a root.
fn put_root<K: Sink>(page: &mut Page, out: &mut K, root: NodeId, seen: u32)
    ensures { Puts (K.state out.old) (K.state out.new) page.old page.new
        (text_of_reply (Reply.Root root seen)) }
{
    page.put_id(out, b"{\"ok\":true,\"root\":", root);
    put_seen(page, out, b",\"seen\":", seen);
}

/// Puts the answer to a read of a path.
fn put_path<K: Sink>(page: &mut Page, out: &mut K, nodes: &PathIds, seen: u32)
    ensures { Puts (K.state out.old) (K.state out.new) page.old page.new
        (text_of_reply (Reply.Path nodes.now seen)) }
{
    page.put(out, b"{\"ok\":true,\"path\":");
    put_list(page, out, &nodes.nodes[..nodes.count as usize]);
    put_seen(page, out, b",\"seen\":", seen);
}

/// Puts the answer to a read of leaves.
fn put_leaves<K: Sink>(page: &mut Page, out: &mut K, leaves: &Ids, seen: u32)
    ensures { Puts (K.state out.old) (K.state out.new) page.old page.new
        (text_of_reply (Reply.Leaves leaves.now seen)) }
{
    page.put(out, b"{\"leaves\":");
    put_list(page, out, leaves.list.as_slice());
    put_seen(page, out, b",\"ok\":true,\"seen\":", seen);
}

/// Puts the answer to a read of changes.
fn put_changes<K: Sink>(page: &mut Page, out: &mut K, ops: &Summaries, seen: u32)
    ensures { Puts (K.state out.old) (K.state out.new) page.old page.new
        (text_of_reply (Reply.Changes ops.now seen)) }
{
    page.put(out, b"{\"changes\":");
    put_list(page, out, ops.list.as_slice());
    put_seen(page, out, b",\"ok\":true,\"seen\":", seen);
}

/// Puts a piece of text and a list of ids behind it.
pub fn put_ids<K: Sink>(page: &mut Page, out: &mut K, piece: &[u8], ids: &Ids)
    ensures { Puts (K.state out.old) (K.state out.new) page.old page.new (piece.now
        ++ ids_text ids.now) }
{
    page.put(out, piece);
    put_list(page, out, ids.list.as_slice());
}

/// Puts the answer to an accepted edit that shows no cut.
fn put_edited<K: Sink>(
    page: &mut Page,
    out: &mut K,
    op: u32,
    at: u64,
    retired: &Ids,
    made: &Ids,
    seen: u32,
)
    ensures { Puts (K.state out.old) (K.state out.new) page.old page.new
        (edited_text op at retired.now made.now None seen) }
{
    page.put_number(out, b"{\"at\":", at);
    put_ids(page, out, b",\"made\":", made);
    page.put_number(out, b",\"ok\":true,\"op\":", op as u64);
    put_ids(page, out, b",\"retired\":", retired);
    put_seen(page, out, b",\"seen\":", seen);
}

/// Puts the answer to an accepted split, with the cut and a flow that shows it least.
fn put_split<K: Sink>(
    page: &mut Page,
    out: &mut K,
    op: u32,
    at: u64,
    retired: &Ids,
    made: &Ids,
    shown: &Shown,
    seen: u32,
)
    ensures { Puts (K.state out.old) (K.state out.new) page.old page.new
        (edited_text op at retired.now made.now (Some shown.now) seen) }
{
    page.put_number(out, b"{\"at\":", at);
    page.put(out, b",\"cut\":");
    put_list(page, out, shown.cut.list.as_slice());
    page.put(out, b",\"flow\":");
    put_list(page, out, shown.flow.list.as_slice());
    put_ids(page, out, b",\"made\":", made);
    page.put_number(out, b",\"ok\":true,\"op\":", op as u64);
    put_ids(page, out, b",\"retired\":", retired);
    page.put_number(out, b",\"seen\":", seen as u64);
    page.put_number(out, b",\"total\":", shown.total);
    page.put(out, b"}\n");
}

/// Puts the answer to an accepted edit.
fn put_done<K: Sink>(
    page: &mut Page,
    out: &mut K,
    op: u32,
    at: u64,
    retired: &Ids,
    made: &Ids,
    shown: &Option<Shown>,
    seen: u32,
)
    ensures { Puts (K.state out.old) (K.state out.new) page.old page.new
        (edited_text op at retired.now made.now shown.now seen) }
{
    match shown {
        None => put_edited(page, out, op, at, retired, made, seen),
        Some(shown) => put_split(page, out, op, at, retired, made, shown, seen),
    }
}

/// Puts the text of a reply.
#[tactic(auto, unfolding(crate::specs::Texts::text_of_reply))]
fn put_reply<K: Sink>(page: &mut Page, out: &mut K, reply: &Reply)
    ensures { Puts (K.state out.old) (K.state out.new) page.old page.new (text_of_reply reply.now) }
{
    match reply {
        Reply::Root { root, seen } => put_root(page, out, *root, *seen),
        Reply::Path { nodes, seen } => put_path(page, out, nodes, *seen),
        Reply::Leaves { leaves, seen } => put_leaves(page, out, leaves, *seen),
        Reply::Changes { ops, seen } => put_changes(page, out, ops, *seen),
        Reply::Edited {
            op,
            at,
            retired,
            made,
            shown,
            seen,
        } => put_done(page, out, *op, *at, retired, made, shown, *seen),
        Reply::Refused { refusal, seen } => put_refused(page, out, *refusal, *seen),
        Reply::BadLine { error } => put_bad_line(page, out, *error),
        Reply::NoMemory => put_bare(page, out, b"NoMemory"),
    }
}

/// Writes a reply: its text and a line feed, in pieces of 8,192 bytes, the last one shorter, and a
/// flush, behind which all that the sink holds is flushed. After `Failed`, which comes only where a
/// write or the flush failed, a front of the text was written, the whole of it where the flush
/// failed. It takes no memory.
#[tactic(auto, using(crate::proofs::Whole::whole_ok))]
pub fn write_reply<K: Sink>(reply: &Reply, out: &mut K) -> Result<(), Failed>
    ensures ok { OnOk result
        (Appends (K.state out.old).held (K.state out.new).held (text_of_reply reply.now)) }
    ensures err { OnErr result
        (AppendsFront (K.state out.old).held (K.state out.new).held (text_of_reply reply.now)) }
    ensures flushed { OnOk result (IsFlushed (K.state out.new).held (K.state out.new).flushed) }
    ensures cause { HasCause (K.state out.old).faults (K.state out.new).faults result }
{
    let mut page = Page::new();
    put_reply(&mut page, out, reply);
    page.finish(out)
}
