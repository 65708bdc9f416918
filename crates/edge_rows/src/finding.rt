//! The record of a pair, and the ends of chains.

ghost use Rattle.std.specs.Prelude.{◌≡◌, ℕ, List};
ghost use Rattle.op_model.specs.declared.base.Dataset.{Dataset};
ghost use Rattle.op_model.specs.declared.base.Base.{Base};
ghost use Rattle.op_model.specs.declared.base.Edge.{Edge};
ghost use Rattle.op_model.specs.declared.entry.Entry.{Entry};
ghost use Rattle.op_model.specs.Edges.{same_pair};
ghost use Rattle.record_rows.specs.Chains.{edge_at, is_edge, change_of};
ghost use Rattle.record_rows.specs.LogRows.{rows_of};
ghost use Rattle.record_rows.specs.Readings.{Image, HoldsSupervoxel, HoldsEdge, first_place, last_place};
ghost use Rattle.record_rows.specs.Sorted.{FoundAmong, supervoxel_count};

use crate::base_edges::base_edge;
use crate::chains::{first_change, first_edge, next_change, next_edge};
use crate::fields::pair_of;
use crate::ordering::is_same;
use node_ids::NodeId;
use op_model::Pair;
use pcg_base::Words;
use row_words::{Spot, fixed, supervoxel};

/// The record of the edge of a pair; `None` exactly where no edge joins the pair, whatever its
/// state. An edge of the base is found by halving. For any other the edges of both ends are
/// followed by turns, so that the shorter chain bounds the time.
pub fn find_edge<W: Words>(w: &mut W, pair: Pair) -> Option<Spot>
    requires image { (d : Dataset) × (b : Base) × (log : List Entry) × Image d b log (W.words w.old) }
    ensures same { w.new ≡ w.old }
    ensures found { (d : Dataset) (b : Base) (log : List Entry) → Image d b log (W.words w.old) → result ≡ first_place (is_edge pair) (rows_of d b log) }
{
    let Some(edge) = base_edge(w, &pair) else {
        return joined_edge(w, pair);
    };
    Some(edge)
}

// the record of the edge of a pair, found along the edges of both its ends
fn joined_edge<W: Words>(w: &mut W, pair: Pair) -> Option<Spot>
    requires image { (d : Dataset) × (b : Base) × (log : List Entry) × Image d b log (W.words w.old) }
    ensures same { w.new ≡ w.old }
    ensures found { (d : Dataset) (b : Base) (log : List Entry) → Image d b log (W.words w.old) → result ≡ first_place (is_edge pair) (rows_of d b log) }
{
    let lesser = supervoxel_of(w, pair.a)?;
    let greater = supervoxel_of(w, pair.b)?;
    let mut one = first_edge(w, lesser);
    let mut other = first_edge(w, greater);
    while let Some(edge) = one {
        let Some(turn) = other else {
            return None;
        };
        if is_of(w, edge, &pair) {
            return one;
        }
        if is_of(w, turn, &pair) {
            return other;
        }
        one = next_edge(w, edge, pair.a);
        other = next_edge(w, turn, pair.b);
    }
    None
}

/// The record of a supervoxel; `None` exactly where the base hasn't its id.
fn supervoxel_of<W: Words>(w: &mut W, id: NodeId) -> Option<Spot>
    requires image { (d : Dataset) × (b : Base) × (log : List Entry) × Image d b log (W.words w.old) }
    ensures same { w.new ≡ w.old }
    ensures found { FoundAmong (W.words w.old) 1 (supervoxel_count (W.words w.old)) id result }
{
    supervoxel(w, id.0)
}

/// Whether an edge is that of the pair.
fn is_of<W: Words>(w: &mut W, edge: Spot, pair: &Pair) -> bool
    requires edge { (d : Dataset) × (b : Base) × (log : List Entry) × (made : ℕ) × (e : Edge) × Image d b log (W.words w.old) × HoldsEdge d b log edge made e }
    ensures same { w.new ≡ w.old }
    ensures is { (d : Dataset) (b : Base) (log : List Entry) (made : ℕ) (e : Edge) → Image d b log (W.words w.old) → HoldsEdge d b log edge made e → result ≡ same_pair e.pair pair.now }
{
    let ends = pair_of(w, edge);
    is_same(&ends, pair)
}

/// The last edge of a supervoxel, which the next new edge of it goes behind; `None` where it has none.
pub fn last_edge<W: Words>(w: &mut W, sv: Spot) -> Option<Spot>
    requires supervoxel { (d : Dataset) × (b : Base) × (log : List Entry) × (v : ℕ) × Image d b log (W.words w.old) × HoldsSupervoxel d b log sv v }
    ensures same { w.new ≡ w.old }
    ensures is { (d : Dataset) (b : Base) (log : List Entry) (v : ℕ) → Image d b log (W.words w.old) → HoldsSupervoxel d b log sv v → result ≡ last_place (edge_at v) (rows_of d b log) }
{
    let id = NodeId(fixed(w, sv, 1));
    let mut found = None;
    let mut at = first_edge(w, sv);
    while let Some(edge) = at {
        found = at;
        at = next_edge(w, edge, id);
    }
    found
}

/// The last change of an edge; `None` where no entry changed it.
pub fn last_change<W: Words>(w: &mut W, edge: Spot) -> Option<Spot>
    requires edge { (d : Dataset) × (b : Base) × (log : List Entry) × (made : ℕ) × (e : Edge) × Image d b log (W.words w.old) × HoldsEdge d b log edge made e }
    ensures same { w.new ≡ w.old }
    ensures is { (d : Dataset) (b : Base) (log : List Entry) (made : ℕ) (e : Edge) → Image d b log (W.words w.old) → HoldsEdge d b log edge made e → result ≡ last_place (change_of e.pair) (rows_of d b log) }
{
    let mut found = None;
    let mut at = first_change(w, edge);
    while let Some(change) = at {
        found = at;
        at = next_change(w, change);
    }
    found
}
