//! How many entries there are, and what the record of one tells.

ghost use Rattle.std.specs.Prelude.{◌≡◌, ◌<◌, ◌||◌, ◌==◌, length, Some};
ghost use Rattle.op_model.specs.declared.entry.Entry.{Entry};
ghost use Rattle.op_model.specs.Operations.{undoes, redoes, last_about};
ghost use Rattle.record_rows.specs.Readings.{ForEachLog, ForSomeLog, ParentImage};
ghost use Rattle.log_rows.specs.Entries.{AtEntry, ForEntry, ForEntryAt, HasLog, HoldsEntry, IsNextEntry};
ghost use Rattle.log_rows.specs.Heads.{head_of};

use crate::records::{Head, before, count, head_at, newest, number};
use crate::seeking::{first_of, next_own, seek};
use op_model::Kind;
use pcg_base::Words;
use row_words::Spot;

/// How many entries the log has.
pub fn length<W: Words>(w: &mut W) -> u32
    requires image { HasLog ParentImage (W.words w.old) }
    ensures same { w.new ≡ w.old }
    ensures is { ForEachLog ParentImage (W.words w.old) (λ d b log. result ≡ length log) }
{
    let last = newest(w);
    number(w, last) + 1
}

/// The place of the record of entry `n`, of which there must be one.
pub fn entry_spot<W: Words>(w: &mut W, n: u32) -> Spot
    requires entry { ForSomeLog ParentImage (W.words w.old) (λ d b log. n < length log) }
    ensures same { w.new ≡ w.old }
    ensures is { ForEntry ParentImage (W.words w.old) n (λ d b log e. HoldsEntry d b log result e) }
{
    let count = count(w);
    let first = first_of(w, n, count);
    seek(w, n, first, count)
}

/// The place of the next entry's record, where an entry's record stands at this one; `None` exactly
/// for the newest entry. So a walk over the whole log looks at each record once.
pub fn next_entry<W: Words>(w: &mut W, entry: Spot) -> Option<Spot>
    requires entry { AtEntry (W.words w.old) entry }
    ensures same { w.new ≡ w.old }
    ensures is { ForEntryAt ParentImage (W.words w.old) entry (λ d b log e. IsNextEntry d b log e result) }
{
    let count = count(w);
    let from = entry.0 + 1;
    if from >= count {
        return None;
    }
    let own = next_own(w, from, count);
    Some(Spot(own))
}

/// What entry `n`, of which there must be one, is.
pub fn head<W: Words>(w: &mut W, n: u32) -> Head
    requires entry { ForSomeLog ParentImage (W.words w.old) (λ d b log. n < length log) }
    ensures same { w.new ≡ w.old }
    ensures is { ForEntry ParentImage (W.words w.old) n (λ d b log e. result ≡ head_of e) }
{
    let spot = entry_spot(w, n);
    head_at(w, spot)
}

/// The number of the last entry that is merge or split `op`, or undoes or redoes it. There must be
/// an entry `op`; of the ingest, an undo or a redo it is the entry itself.
pub fn last_about<W: Words>(w: &mut W, op: u32) -> u32
    requires entry { ForSomeLog ParentImage (W.words w.old) (λ d b log. op < length log) }
    ensures same { w.new ≡ w.old }
    ensures is { ForEachLog ParentImage (W.words w.old) (λ d b log. (e : Entry) × (last_about log op ≡ Some e) × (result ≡ e.number)) }
{
    let mut spot = newest(w);
    while !is_about(w, spot, op) {
        let Some(older) = before(w, spot) else {
            return number(w, spot);
        };
        spot = older;
    }
    number(w, spot)
}

/// Whether the entry whose record stands there is entry `op`, or undoes or redoes it.
pub fn is_about<W: Words>(w: &mut W, entry: Spot, op: u32) -> bool
    requires entry { AtEntry (W.words w.old) entry }
    ensures same { w.new ≡ w.old }
    ensures is { ForEntryAt ParentImage (W.words w.old) entry (λ d b log e. result ≡ (e.number == op || undoes e.asked op || redoes e.asked op)) }
{
    let head = head_at(w, entry);
    number(w, entry) == op || turns(head, op)
}

/// Whether an entry with this head undoes or redoes `op`.
fn turns(head: Head, op: u32) -> bool
    ensures { (e : Entry) → head ≡ head_of e → result ≡ (undoes e.asked op || redoes e.asked op) }
{
    match head.kind {
        Kind::Undo | Kind::Redo => head.names == op as u64,
        _ => false,
    }
}
