//! What an undo or a redo is refused for, before room, ids and time count.

ghost use Rattle.std.specs.Prelude.{◌≡◌, ◌<◌, if◌then◌else◌, List, None, length};
ghost use Rattle.op_model.specs.declared.entry.Entry.{Entry};
ghost use Rattle.op_model.specs.declared.reply.Refusal.TheVariants as refusal;
ghost use Rattle.op_model.specs.Operations.{entry_at, is_operation, undoes};
ghost use Rattle.op_model.specs.Refusals.{refuse_early};
ghost use Rattle.record_rows.specs.Readings.{ForEachLog, ForSomeLog, Image, ParentImage};
ghost use Rattle.log_rows.specs.Entries.{HasLog};
ghost use Rattle.log_rows.specs.Heads.{head_of};
ghost use Rattle.undo_redo.specs.Turns.{turn};

use crate::overtaking::overtaken_by;
use log_rows::{Head, head, last_about_by_changes, length};
use op_model::{Kind, Refusal};
use pcg_base::Words;

/// Why an undo of this operation, or else a redo, is refused before room, ids and time count; `None`
/// if it isn't.
pub fn refusal_of<W: Words>(w: &mut W, op: u64, back: bool) -> Option<Refusal>
    requires image { HasLog Image (W.words w.old) }
    ensures same { w.new ≡ w.old }
    ensures is { ForEachLog Image (W.words w.old) (λ d b log. result ≡ refuse_early d b log (turn back op)) }
    ensures fits { result ≡ None → op < 4294967296 }
{
    let count = length(w);
    if op >= count as u64 {
        return Some(Refusal::NoSuchOp { op });
    }
    refusal_in(w, op as u32, back)
}

/// The same of an entry that the log has.
fn refusal_in<W: Words>(w: &mut W, op: u32, back: bool) -> Option<Refusal>
    requires entry { ForSomeLog Image (W.words w.old) (λ d b log. op < length log) }
    ensures same { w.new ≡ w.old }
    ensures is { ForEachLog Image (W.words w.old) (λ d b log. op < length log → result ≡ refuse_early d b log (turn back op)) }
{
    let asked = head(w, op);
    if !is_edit(asked) {
        return Some(Refusal::NotAnEdit { op: op as u64 });
    }
    let last = last_about_by_changes(w, op);
    let undone = is_undo(head(w, last), op);
    if undone == back {
        return Some(out_of_turn(op as u64, back));
    }
    let by = overtaken_by(w, last)?;
    Some(Refusal::Overtaken { by })
}

/// The refusal of an undo of what is undone, or else of a redo of what is in force.
fn out_of_turn(op: u64, back: bool) -> Refusal
    ensures { result ≡ (if back then refusal.NotInForce op else refusal.InForce op) }
{
    if back {
        Refusal::NotInForce { op }
    } else {
        Refusal::InForce { op }
    }
}

/// Whether an entry with this head is a merge or a split.
fn is_edit(head: Head) -> bool
    ensures { (e : Entry) → head ≡ head_of e → result ≡ is_operation e.asked }
{
    match head.kind {
        Kind::Merge | Kind::Split => true,
        _ => false,
    }
}

/// Whether an entry with this head undoes the operation.
fn is_undo(head: Head, op: u32) -> bool
    ensures { (e : Entry) → head ≡ head_of e → result ≡ undoes e.asked op }
{
    match head.kind {
        Kind::Undo => head.names == op as u64,
        _ => false,
    }
}
