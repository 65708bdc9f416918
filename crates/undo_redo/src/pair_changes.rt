//! The last change of a pair.

ghost use Rattle.std.specs.Prelude.{◌≡◌, ℕ, List};
ghost use Rattle.op_model.specs.declared.base.Dataset.{Dataset};
ghost use Rattle.op_model.specs.declared.base.Base.{Base};
ghost use Rattle.op_model.specs.declared.entry.Changed.{Changed};
ghost use Rattle.op_model.specs.declared.entry.Entry.{Entry};
ghost use Rattle.op_model.specs.Labels.{edges};
ghost use Rattle.record_rows.specs.Readings.{HoldsChange, Image};
ghost use Rattle.record_rows.specs.Walks.{is_active};
ghost use Rattle.undo_redo.specs.Turns.{changer};
ghost use Rattle.undo_redo.specs.Latest.{IsLast};

use log_rows::{changed, changer, later_change};
use pcg_base::Words;
use row_words::Spot;

/// What the last change of a pair did.
#[derive(Clone, Copy, Drop)]
pub struct Latest {
    /// The number of its entry.
    pub entry: u32,
    /// The state that it gave the pair.
    pub active: bool,
}

/// The last change of the pair whose change stands there. So its entry is the last one that changed
/// the pair, and its state is the one that the pair has.
pub fn latest_change<W: Words>(w: &mut W, change: Spot) -> Latest
    requires change { (d : Dataset) × (b : Base) × (log : List Entry) × (entry : ℕ) × (c : Changed) × Image d b log (W.words w.old) × HoldsChange d b log change entry c }
    ensures same { w.new ≡ w.old }
    ensures entry { (d : Dataset) (b : Base) (log : List Entry) (entry : ℕ) (c : Changed) → Image d b log (W.words w.old) → HoldsChange d b log change entry c → result.entry ≡ changer log c.pair }
    ensures state { (d : Dataset) (b : Base) (log : List Entry) (entry : ℕ) (c : Changed) → Image d b log (W.words w.old) → HoldsChange d b log change entry c → result.active ≡ is_active (edges d b log) c.pair }
{
    let last = last_of_pair(w, change);
    let entry = changer(w, last);
    let active = changed(w, last).active;
    Latest { entry, active }
}

/// The place of the last change of the pair whose change stands there.
fn last_of_pair<W: Words>(w: &mut W, change: Spot) -> Spot
    requires change { (d : Dataset) × (b : Base) × (log : List Entry) × (entry : ℕ) × (c : Changed) × Image d b log (W.words w.old) × HoldsChange d b log change entry c }
    ensures same { w.new ≡ w.old }
    ensures is { (d : Dataset) (b : Base) (log : List Entry) (entry : ℕ) (c : Changed) → Image d b log (W.words w.old) → HoldsChange d b log change entry c → IsLast d b log c.pair result }
{
    let mut last = change;
    let mut next = Some(change);
    while let Some(place) = next {
        last = place;
        next = later_change(w, place);
    }
    last
}
