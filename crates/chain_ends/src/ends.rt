//! The ends of the chains of supervoxels, nodes, chunks and edges.

ghost use Rattle.std.specs.Prelude.{◌≡◌, ◌<◌, ◌≤◌, ℕ, List, IsTrue};
ghost use Rattle.op_model.specs.declared.base.Dataset.{Dataset};
ghost use Rattle.op_model.specs.declared.base.Base.{Base};
ghost use Rattle.op_model.specs.declared.base.Edge.{Edge};
ghost use Rattle.op_model.specs.declared.entry.Entry.{Entry};
ghost use Rattle.graph_model.specs.Lists.{has};
ghost use Rattle.record_rows.specs.LogRows.{chunks, rows_of};
ghost use Rattle.record_rows.specs.Readings.{HoldsEdge, HoldsId, Image, ParentImage};
ghost use Rattle.row_append.specs.Ends.{EdgesOf, EndsAt, NodesIn, VersionsOf};
ghost use Rattle.row_append.specs.Tails.{word_number};
ghost use Rattle.grown_rows.specs.Aimed.{ChangesEndAt};

use edge_rows::{last_change, last_edge};
use node_ids::NodeId;
use parent_rows::{chunk, find, last_node, last_version};
use pcg_base::Words;
use row_append::Tail;
use row_words::{Spot, fixed};

/// Where the edges of a supervoxel of the base end.
pub fn edges_end<W: Words>(w: &mut W, id: NodeId) -> Tail
    requires supervoxel { (d : Dataset) × (b : Base) × (log : List Entry) × Image d b log (W.words w.old) × IsTrue (has b.supervoxels id) }
    ensures same { w.new ≡ w.old }
    ensures end { (d : Dataset) (b : Base) (log : List Entry) → Image d b log (W.words w.old) → IsTrue (has b.supervoxels id) → EndsAt (EdgesOf id) (rows_of d b log) (word_number result) }
    ensures pointer { (4 ≤ result.word) × (result.word < 8) }
{
    let Some(spot) = find(w, id) else {
        return Tail {
            spot: Spot(0),
            word: 4,
        };
    };
    let Some(edge) = last_edge(w, spot) else {
        return Tail { spot, word: 4 };
    };
    if fixed(w, edge, 1) == id.0 {
        Tail {
            spot: edge,
            word: 5,
        }
    } else {
        Tail {
            spot: edge,
            word: 6,
        }
    }
}

/// Where the links of the supervoxel or node at a place end.
pub fn versions_end<W: Words>(w: &mut W, spot: Spot) -> Tail
    requires owner { (d : Dataset) × (b : Base) × (log : List Entry) × (id : ℕ) × ParentImage d b log (W.words w.old) × HoldsId d b log spot id }
    ensures same { w.new ≡ w.old }
    ensures end { (d : Dataset) (b : Base) (log : List Entry) (id : ℕ) → ParentImage d b log (W.words w.old) → HoldsId d b log spot id → EndsAt (VersionsOf id) (rows_of d b log) (word_number result) }
    ensures pointer { (4 ≤ result.word) × (result.word < 8) }
{
    let Some(link) = last_version(w, spot) else {
        return Tail { spot, word: 5 };
    };
    Tail {
        spot: link,
        word: 6,
    }
}

/// Where the nodes of a chunk of the base, by its id with segment 0, end.
pub fn nodes_end<W: Words>(w: &mut W, id: NodeId) -> Tail
    requires chunk { (d : Dataset) × (b : Base) × (log : List Entry) × ParentImage d b log (W.words w.old) × IsTrue (has (chunks d b) id) }
    ensures same { w.new ≡ w.old }
    ensures end { (d : Dataset) (b : Base) (log : List Entry) → ParentImage d b log (W.words w.old) → IsTrue (has (chunks d b) id) → EndsAt (NodesIn id) (rows_of d b log) (word_number result) }
    ensures pointer { (4 ≤ result.word) × (result.word < 8) }
{
    let Some(spot) = chunk(w, id) else {
        return Tail {
            spot: Spot(0),
            word: 4,
        };
    };
    let Some(node) = last_node(w, spot) else {
        return Tail { spot, word: 4 };
    };
    Tail {
        spot: node,
        word: 7,
    }
}

/// Where the changes of the edge at a place end.
pub fn changes_end<W: Words>(w: &mut W, edge: Spot) -> Tail
    requires edge { (d : Dataset) × (b : Base) × (log : List Entry) × (made : ℕ) × (e : Edge) × Image d b log (W.words w.old) × HoldsEdge d b log edge made e }
    ensures same { w.new ≡ w.old }
    ensures end { (d : Dataset) (b : Base) (log : List Entry) (made : ℕ) (e : Edge) → Image d b log (W.words w.old) → HoldsEdge d b log edge made e → ChangesEndAt e.pair (rows_of d b log) (word_number result) }
    ensures pointer { (4 ≤ result.word) × (result.word < 8) }
{
    let Some(change) = last_change(w, edge) else {
        return Tail {
            spot: edge,
            word: 4,
        };
    };
    Tail {
        spot: change,
        word: 5,
    }
}
