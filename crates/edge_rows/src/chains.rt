//! From one record of a chain to the next: the edges of a supervoxel, and the changes of an edge.

ghost use Rattle.std.specs.Prelude.{◌≡◌, ℕ, List, true};
ghost use Rattle.op_model.specs.declared.base.Dataset.{Dataset};
ghost use Rattle.op_model.specs.declared.base.Base.{Base};
ghost use Rattle.op_model.specs.declared.base.Edge.{Edge};
ghost use Rattle.op_model.specs.declared.entry.Changed.{Changed};
ghost use Rattle.op_model.specs.declared.entry.Entry.{Entry};
ghost use Rattle.record_rows.specs.Rows.{EdgeRow};
ghost use Rattle.record_rows.specs.Chains.{edge_at, change_of};
ghost use Rattle.record_rows.specs.LogRows.{rows_of};
ghost use Rattle.record_rows.specs.Readings.{Image, HoldsSupervoxel, HoldsEdge, HoldsChange, first_place, next_place};

use node_ids::NodeId;
use pcg_base::Words;
use row_words::{Spot, fixed, pointer};

/// The first edge of a supervoxel.
pub(crate) fn first_edge<W: Words>(w: &mut W, sv: Spot) -> Option<Spot>
    requires supervoxel { (d : Dataset) × (b : Base) × (log : List Entry) × (v : ℕ) × Image d b log (W.words w.old) × HoldsSupervoxel d b log sv v }
    ensures same { w.new ≡ w.old }
    ensures is { (d : Dataset) (b : Base) (log : List Entry) (v : ℕ) → Image d b log (W.words w.old) → HoldsSupervoxel d b log sv v → result ≡ first_place (edge_at v) (rows_of d b log) }
{
    pointer(w, sv, 4)
}

/// The next edge of a supervoxel behind this one, of which it is an end.
pub(crate) fn next_edge<W: Words>(w: &mut W, edge: Spot, sv: NodeId) -> Option<Spot>
    requires edge { (d : Dataset) × (b : Base) × (log : List Entry) × (made : ℕ) × (e : Edge) × Image d b log (W.words w.old) × HoldsEdge d b log edge made e }
    ensures same { w.new ≡ w.old }
    ensures is { (d : Dataset) (b : Base) (log : List Entry) (made : ℕ) (e : Edge) → Image d b log (W.words w.old) → HoldsEdge d b log edge made e → edge_at sv (EdgeRow made e) ≡ true → result ≡ next_place (edge_at sv) (rows_of d b log) edge }
{
    if fixed(w, edge, 1) == sv.0 {
        pointer(w, edge, 5)
    } else {
        pointer(w, edge, 6)
    }
}

/// The first change of an edge.
pub(crate) fn first_change<W: Words>(w: &mut W, edge: Spot) -> Option<Spot>
    requires edge { (d : Dataset) × (b : Base) × (log : List Entry) × (made : ℕ) × (e : Edge) × Image d b log (W.words w.old) × HoldsEdge d b log edge made e }
    ensures same { w.new ≡ w.old }
    ensures is { (d : Dataset) (b : Base) (log : List Entry) (made : ℕ) (e : Edge) → Image d b log (W.words w.old) → HoldsEdge d b log edge made e → result ≡ first_place (change_of e.pair) (rows_of d b log) }
{
    pointer(w, edge, 4)
}

/// The next change behind this one of the same edge.
pub(crate) fn next_change<W: Words>(w: &mut W, change: Spot) -> Option<Spot>
    requires change { (d : Dataset) × (b : Base) × (log : List Entry) × (entry : ℕ) × (c : Changed) × Image d b log (W.words w.old) × HoldsChange d b log change entry c }
    ensures same { w.new ≡ w.old }
    ensures is { (d : Dataset) (b : Base) (log : List Entry) (entry : ℕ) (c : Changed) → Image d b log (W.words w.old) → HoldsChange d b log change entry c → result ≡ next_place (change_of c.pair) (rows_of d b log) change }
{
    pointer(w, change, 5)
}
