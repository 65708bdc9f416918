//! Words without their records of edges.

ghost use Rattle.std.specs.Prelude.{◌≡◌, ◌+◌, ◌*◌, ◌≤◌, List, length};
ghost use Rattle.op_model.specs.declared.base.Dataset.{Dataset};
ghost use Rattle.op_model.specs.declared.base.Base.{Base};
ghost use Rattle.op_model.specs.declared.entry.Entry.{Entry};
ghost use Rattle.record_rows.specs.Rows.{Row};
ghost use Rattle.record_rows.specs.Readings.{Holds, ParentImage};
ghost use Rattle.row_tests.specs.Logs.{HasUntold, IsUntold, TellsLog};

use pcg_base::{VecWords, Words};
use row_words::{Spot, kind_of};

/// The kind of an edge's record.
const EDGE: u8 = 6;

/// Writes 0 to each word of an edge's record. What the words tell of nodes stays.
fn clear(w: &mut VecWords, place: u32)
    requires untold { HasUntold w.old.words place }
    ensures keeps { (d : Dataset) (b : Base) (log : List Entry) (row : Row) → ParentImage d b log w.old.words → Holds d b log place row → IsUntold row → ParentImage d b log w.new.words }
    ensures length { length w.new.words ≡ length w.old.words }
{
    for k in 0..8 {
        w.set(8 * place as u64 + k, 0);
    }
}

/// Empties the record at a place if it is an edge's; whether it was.
fn empty(w: &mut VecWords, place: u32) -> bool
    requires tells { TellsLog w.old.words }
    requires within { 8 * place + 8 ≤ length w.old.words }
    ensures tells { TellsLog w.new.words }
    ensures length { length w.new.words ≡ length w.old.words }
{
    if kind_of(w, Spot(place)) != EDGE {
        return false;
    }
    clear(w, place);
    true
}

/// Writes 0 to each word of each edge's record; how many edges there were.
pub fn empty_edges(w: &mut VecWords) -> usize
    requires tells { TellsLog w.old.words }
    ensures tells { TellsLog w.new.words }
{
    let mut count: usize = 0;
    for place in 0..(w.len() / 8) as u32 {
        if empty(w, place) {
            count = count.wrapping_add(1);
        }
    }
    count
}
