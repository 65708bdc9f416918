//! The last entry about an operation, along the changes of its first pair.

ghost use Rattle.std.specs.Prelude.{◌≡◌, ◌<◌, ◌||◌, ◌==◌, length, Some};
ghost use Rattle.op_model.specs.declared.entry.Entry.{Entry};
ghost use Rattle.op_model.specs.Operations.{undoes, redoes, last_about};
ghost use Rattle.record_rows.specs.Readings.{ForEachLog, ForSomeLog, Image, ParentImage};
ghost use Rattle.log_rows.specs.Entries.{ForEntry, IsFirstChange};

use crate::changing::{changer, first_change, later_change};
use crate::heads::{entry_spot, is_about};
use pcg_base::Words;
use row_words::Spot;

/// The number of the last entry that is merge or split `op`, or undoes or redoes it, as
/// [`crate::last_about`] gives it. Each undo and redo of `op` changed its first pair too, so no more
/// than the changes of this pair from its own on are looked at. There must be an entry `op`.
pub fn last_about_by_changes<W: Words>(w: &mut W, op: u32) -> u32
    requires entry { ForSomeLog Image (W.words w.old) (λ d b log. op < length log) }
    ensures same { w.new ≡ w.old }
    ensures is { ForEachLog Image (W.words w.old) (λ d b log. (e : Entry) × (last_about log op ≡ Some e) × (result ≡ e.number)) }
{
    match first_change(w, op) {
        Some(change) => last_from(w, op, change),
        None => op,
    }
}

/// The same for an operation whose first change stands there.
fn last_from<W: Words>(w: &mut W, op: u32, first: Spot) -> u32
    requires entry { ForSomeLog Image (W.words w.old) (λ d b log. op < length log) }
    requires change { IsFirstChange (W.words w.old) op first }
    ensures same { w.new ≡ w.old }
    ensures is { ForEachLog Image (W.words w.old) (λ d b log. (e : Entry) × (last_about log op ≡ Some e) × (result ≡ e.number)) }
{
    let mut found = op;
    let mut at = Some(first);
    while let Some(change) = at {
        let entry = changer(w, change);
        if is_turn(w, entry, op) {
            found = entry;
        }
        at = later_change(w, change);
    }
    found
}

/// Whether entry `n`, of which there must be one, is entry `op`, or undoes or redoes it.
fn is_turn<W: Words>(w: &mut W, n: u32, op: u32) -> bool
    requires entry { ForSomeLog ParentImage (W.words w.old) (λ d b log. n < length log) }
    ensures same { w.new ≡ w.old }
    ensures is { ForEntry ParentImage (W.words w.old) n (λ d b log e. result ≡ (e.number == op || undoes e.asked op || redoes e.asked op)) }
{
    let spot = entry_spot(w, n);
    is_about(w, spot, op)
}
