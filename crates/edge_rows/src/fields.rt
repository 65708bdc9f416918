//! What the words of an edge or a change tell.

ghost use Rattle.std.specs.Prelude.{◌≡◌, ℕ, List};
ghost use Rattle.op_model.specs.declared.base.Dataset.{Dataset};
ghost use Rattle.op_model.specs.declared.base.Base.{Base};
ghost use Rattle.op_model.specs.declared.base.Edge.{Edge};
ghost use Rattle.op_model.specs.declared.entry.Changed.{Changed};
ghost use Rattle.op_model.specs.declared.entry.Entry.{Entry};
ghost use Rattle.record_rows.specs.Readings.{Image, HoldsEdge, HoldsChange};

use node_ids::NodeId;
use op_model::{Pair, Weight};
use pcg_base::Words;
use row_words::{Spot, fixed};

/// The ends of an edge, the lesser id first.
pub(crate) fn pair_of<W: Words>(w: &mut W, edge: Spot) -> Pair
    requires edge { (d : Dataset) × (b : Base) × (log : List Entry) × (made : ℕ) × (e : Edge) × Image d b log (W.words w.old) × HoldsEdge d b log edge made e }
    ensures same { w.new ≡ w.old }
    ensures is { (d : Dataset) (b : Base) (log : List Entry) (made : ℕ) (e : Edge) → Image d b log (W.words w.old) → HoldsEdge d b log edge made e → result ≡ e.pair }
{
    let a = fixed(w, edge, 1);
    let b = fixed(w, edge, 2);
    Pair {
        a: NodeId(a),
        b: NodeId(b),
    }
}

/// The weight of an edge; a strength of 0 stands for glue.
pub(crate) fn weight_of<W: Words>(w: &mut W, edge: Spot) -> Weight
    requires edge { (d : Dataset) × (b : Base) × (log : List Entry) × (made : ℕ) × (e : Edge) × Image d b log (W.words w.old) × HoldsEdge d b log edge made e }
    ensures same { w.new ≡ w.old }
    ensures is { (d : Dataset) (b : Base) (log : List Entry) (made : ℕ) (e : Edge) → Image d b log (W.words w.old) → HoldsEdge d b log edge made e → result ≡ e.weight }
{
    let strength = fixed(w, edge, 3);
    if strength == 0 {
        Weight::Glue
    } else {
        Weight::Affinity(strength as u32)
    }
}

/// The number of the entry that made an edge known; 0 for those of the ingest.
pub(crate) fn made_by<W: Words>(w: &mut W, edge: Spot) -> u32
    requires edge { (d : Dataset) × (b : Base) × (log : List Entry) × (made : ℕ) × (e : Edge) × Image d b log (W.words w.old) × HoldsEdge d b log edge made e }
    ensures same { w.new ≡ w.old }
    ensures is { (d : Dataset) (b : Base) (log : List Entry) (made : ℕ) (e : Edge) → Image d b log (W.words w.old) → HoldsEdge d b log edge made e → result ≡ made }
{
    (fixed(w, edge, 0) / 4294967296) as u32
}

/// The state of an edge before any entry changes it.
pub(crate) fn first_state<W: Words>(w: &mut W, edge: Spot) -> bool
    requires edge { (d : Dataset) × (b : Base) × (log : List Entry) × (made : ℕ) × (e : Edge) × Image d b log (W.words w.old) × HoldsEdge d b log edge made e }
    ensures same { w.new ≡ w.old }
    ensures is { (d : Dataset) (b : Base) (log : List Entry) (made : ℕ) (e : Edge) → Image d b log (W.words w.old) → HoldsEdge d b log edge made e → result ≡ e.active }
{
    fixed(w, edge, 0) / 256 % 2 == 1
}

/// The state that a change gives its edge.
pub(crate) fn changed_state<W: Words>(w: &mut W, change: Spot) -> bool
    requires change { (d : Dataset) × (b : Base) × (log : List Entry) × (entry : ℕ) × (c : Changed) × Image d b log (W.words w.old) × HoldsChange d b log change entry c }
    ensures same { w.new ≡ w.old }
    ensures is { (d : Dataset) (b : Base) (log : List Entry) (entry : ℕ) (c : Changed) → Image d b log (W.words w.old) → HoldsChange d b log change entry c → result ≡ c.active }
{
    fixed(w, change, 0) / 256 % 2 == 1
}

/// The number of the entry of a change.
pub(crate) fn changed_by<W: Words>(w: &mut W, change: Spot) -> u64
    requires change { (d : Dataset) × (b : Base) × (log : List Entry) × (entry : ℕ) × (c : Changed) × Image d b log (W.words w.old) × HoldsChange d b log change entry c }
    ensures same { w.new ≡ w.old }
    ensures is { (d : Dataset) (b : Base) (log : List Entry) (entry : ℕ) (c : Changed) → Image d b log (W.words w.old) → HoldsChange d b log change entry c → result ≡ entry }
{
    fixed(w, change, 3)
}
