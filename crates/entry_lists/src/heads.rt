//! What an entry's own record tells.

ghost use Rattle.std.specs.Prelude.{◌≡◌, ◌+◌, ◌<◌, ◌^◌, List, length, None};
ghost use Rattle.op_model.specs.declared.base.Dataset.{Dataset};
ghost use Rattle.op_model.specs.declared.base.Base.{Base};
ghost use Rattle.op_model.specs.declared.entry.Entry.{Entry};
ghost use Rattle.op_model.specs.declared.entry.Asked.TheVariants as asked;
ghost use Rattle.op_model.specs.Refusals.{refuse_early};
ghost use Rattle.record_rows.specs.LogRows.{rows_of};
ghost use Rattle.record_rows.specs.Readings.{Image};
ghost use Rattle.record_rows.specs.Words.{kind_code, names};
ghost use Rattle.entry_rows.specs.Listed.{IsHead};

use entry_rows::EntryHead;
use op_model::Edit;
use pcg_base::Words;
use row_words::Spot;

// the code of an edit's kind in an entry's record
#[tactic(auto, unfolding(record_rows::specs::Words::kind_code))]
fn kind_of(edit: &Edit) -> u8
    ensures { result ≡ kind_code (asked.Edit edit.now) }
{
    match edit {
        Edit::Merge { .. } => 1,
        Edit::Split { .. } => 2,
        Edit::Undo { .. } => 3,
        Edit::Redo { .. } => 4,
    }
}

// the operation that an undo or redo names, else 0
#[tactic(auto, unfolding(record_rows::specs::Words::names))]
fn named_by(edit: &Edit) -> u64
    ensures { result ≡ names (asked.Edit edit.now) }
{
    match edit {
        Edit::Undo { op } => *op,
        Edit::Redo { op } => *op,
        Edit::Merge { .. } => 0,
        Edit::Split { .. } => 0,
    }
}

// the place of the last record
fn last_place<W: Words>(w: &W) -> Spot
    requires image { (d : Dataset) × (b : Base) × (log : List Entry) × Image d b log (W.words w.now) }
    ensures is { (d : Dataset) (b : Base) (log : List Entry) → Image d b log (W.words w.now) → result + 1 ≡ length (rows_of d b log) }
{
    Spot((w.len() / 8 - 1) as u32)
}

/// What the record of an entry tells that a client's edit makes behind a log: all but its items and
/// changes. The edit must be one that no refusal before the late ones meets.
pub fn entry_head<W: Words>(w: &mut W, edit: &Edit, client: u32, line: u32, at: u64) -> EntryHead
    requires plan { (d : Dataset) × (b : Base) × (log : List Entry) × Image d b log (W.words w.old) × (refuse_early d b log edit.now ≡ None) }
    ensures same { w.new ≡ w.old }
    ensures head { (d : Dataset) (b : Base) (log : List Entry) (e : Entry) → Image d b log (W.words w.old) → e.asked ≡ asked.Edit edit.now → e.number ≡ length log
        → e.client ≡ client → e.line ≡ line → e.at ≡ at → IsHead e result }
    ensures before { (d : Dataset) (b : Base) (log : List Entry) → Image d b log (W.words w.old) → result.before + 1 ≡ length (rows_of d b log) }
{
    let kind = kind_of(edit);
    let names = named_by(edit) as u32;
    let number = log_rows::length(w);
    let before = last_place(w);
    EntryHead {
        kind,
        names,
        at,
        client,
        line,
        number,
        before,
    }
}
