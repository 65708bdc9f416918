//! The state of an edge at a prefix.

ghost use Rattle.std.specs.Prelude.{◌≡◌, ℕ, List};
ghost use Rattle.op_model.specs.declared.base.Dataset.{Dataset};
ghost use Rattle.op_model.specs.declared.base.Base.{Base};
ghost use Rattle.op_model.specs.declared.base.Edge.{Edge};
ghost use Rattle.op_model.specs.declared.entry.Entry.{Entry};
ghost use Rattle.op_model.specs.Labels.{edges};
ghost use Rattle.op_model.specs.Transcript.{log_at};
ghost use Rattle.record_rows.specs.Readings.{Image, HoldsEdge};
ghost use Rattle.record_rows.specs.Walks.{is_active};

use crate::chains::{first_change, next_change};
use crate::fields::{changed_by, changed_state, first_state};
use pcg_base::Words;
use row_words::Spot;

/// Whether an edge is active after the first `prefix` entries. One that a later entry made isn't.
/// The changes stand in the order of their entries, so the first one that is too new ends the walk.
pub fn state_at<W: Words>(w: &mut W, edge: Spot, prefix: u32) -> bool
    requires edge { (d : Dataset) × (b : Base) × (log : List Entry) × (made : ℕ) × (e : Edge) × Image d b log (W.words w.old) × HoldsEdge d b log edge made e }
    ensures same { w.new ≡ w.old }
    ensures is { (d : Dataset) (b : Base) (log : List Entry) (made : ℕ) (e : Edge) → Image d b log (W.words w.old) → HoldsEdge d b log edge made e → result ≡ is_active (edges d b (log_at d b log prefix)) e.pair }
{
    let mut active = first_state(w, edge);
    let mut at = first_change(w, edge);
    while let Some(change) = at {
        if changed_by(w, change) >= prefix as u64 {
            return active;
        }
        active = changed_state(w, change);
        at = next_change(w, change);
    }
    active
}
