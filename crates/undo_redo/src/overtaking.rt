//! Pairs that aren't in the state that an entry gave them.

ghost use Rattle.std.specs.Prelude.{◌≡◌, ◌<◌, if◌then◌else◌, ℕ, List, length, Some, None};
ghost use Rattle.op_model.specs.declared.base.Dataset.{Dataset};
ghost use Rattle.op_model.specs.declared.base.Base.{Base};
ghost use Rattle.op_model.specs.declared.entry.Changed.{Changed as ChangedPair};
ghost use Rattle.op_model.specs.declared.entry.Entry.{Entry};
ghost use Rattle.op_model.specs.Labels.{edges};
ghost use Rattle.op_model.specs.Laws.{IsKnown};
ghost use Rattle.record_rows.specs.Readings.{ForSomeLog, HoldsChange, Image};
ghost use Rattle.log_rows.specs.Entries.{ForEntry};
ghost use Rattle.undo_redo.specs.Turns.{changer, is_overtaken, overtaker};

use crate::pair_changes::latest_change;
use log_rows::{changed, first_change, next_change};
use op_model::Changed;
use pcg_base::Words;
use row_words::Spot;

/// The number of the last entry that changed the first pair of entry `n` that isn't in the state
/// that entry `n` gave it; `None` if all are. There must be an entry `n`.
pub fn overtaken_by<W: Words>(w: &mut W, n: u32) -> Option<u32>
    requires entry { ForSomeLog Image (W.words w.old) (λ d b log. n < length log) }
    ensures same { w.new ≡ w.old }
    ensures is { ForEntry Image (W.words w.old) n (λ d b log e. result ≡ overtaker d b log e.changed) }
{
    let mut next = first_change(w, n);
    while let Some(change) = next {
        let pair = changed(w, change);
        if let Some(by) = turned_by(w, change, &pair) {
            return Some(by);
        }
        next = next_change(w, change);
    }
    None
}

/// The number of the last entry that changed a pair; `None` if the pair is in the state that the
/// change gave it which stands at this place.
fn turned_by<W: Words>(w: &mut W, change: Spot, own: &Changed) -> Option<u32>
    requires change { (d : Dataset) × (b : Base) × (log : List Entry) × (entry : ℕ) × (c : ChangedPair) × Image d b log (W.words w.old) × HoldsChange d b log change entry c }
    ensures same { w.new ≡ w.old }
    ensures is { (d : Dataset) (b : Base) (log : List Entry) (entry : ℕ) → Image d b log (W.words w.old) → HoldsChange d b log change entry own.now → IsKnown b own.now.pair → result ≡ (if is_overtaken (edges d b log) own.now then Some (changer log own.now.pair) else None) }
{
    let last = latest_change(w, change);
    if last.active == own.active {
        None
    } else {
        Some(last.entry)
    }
}
