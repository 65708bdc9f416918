//! The records of supervoxels, chunks and nodes, found by their ids.

ghost use Rattle.std.specs.Prelude.{◌≡◌, ℕ, ◌≤◌, ◌-◌, ◌/◌, ◌^◌, List, length, slice_index};
ghost use Rattle.op_model.specs.declared.base.Dataset.{Dataset};
ghost use Rattle.op_model.specs.declared.base.Base.{Base};
ghost use Rattle.op_model.specs.declared.entry.Entry.{Entry};
ghost use Rattle.record_rows.specs.Chains.{has_id};
ghost use Rattle.record_rows.specs.LogRows.{rows_of};
ghost use Rattle.record_rows.specs.Readings.{HoldsChunk, ParentImage, first_place};
ghost use Rattle.record_rows.specs.Sorted.{supervoxel_count};
ghost use Rattle.record_rows.specs.Walks.{is_chunk};
ghost use Rattle.parent_rows.specs.Steps.{is_node_of};

use crate::chunk_nodes::next_node;
use crate::near::near_node;
use crate::runs::{layout, leap};
use node_ids::NodeId;
use pcg_base::Words;
use row_words::{Spot, find_sorted, fixed, id_of, supervoxel};

/// The record of a supervoxel or a node; `None` exactly where no entry of the log knows the id. A
/// supervoxel is found by halving, and so are the chunk of a node and the entry of a root. Along the
/// chain of another chunk each run of nodes that one entry made takes one step.
pub fn find<W: Words>(w: &mut W, id: NodeId) -> Option<Spot>
    requires image { (d : Dataset) × (b : Base) × (log : List Entry) × ParentImage d b log (W.words w.old) }
    ensures same { w.new ≡ w.old }
    ensures found { (d : Dataset) (b : Base) (log : List Entry) → ParentImage d b log (W.words w.old) → result ≡ first_place (has_id id) (rows_of d b log) }
{
    let parts = layout(w).unpack(id);
    if parts.layer == 1 {
        supervoxel(w, id.0)
    } else {
        let Some(spot) = chunk(w, chunk_of(id, parts.segment)) else {
            return None;
        };
        node_of(w, spot, id.0)
    }
}

/// The record of a chunk of layer 2 or above, whose id has segment 0; `None` exactly where the chunk
/// holds no supervoxel.
pub fn chunk<W: Words>(w: &mut W, id: NodeId) -> Option<Spot>
    requires image { (d : Dataset) × (b : Base) × (log : List Entry) × ParentImage d b log (W.words w.old) }
    ensures same { w.new ≡ w.old }
    ensures found { (d : Dataset) (b : Base) (log : List Entry) → ParentImage d b log (W.words w.old) → result ≡ first_place (is_chunk id) (rows_of d b log) }
{
    let (supervoxels, chunks) = counts(w);
    find_sorted(w, Spot(1 + supervoxels), chunks, id.0)
}

// the id of a node's chunk
fn chunk_of(id: NodeId, segment: u64) -> NodeId
    requires { segment ≤ id }
    ensures { result ≡ id - segment }
{
    NodeId(id.0 - segment)
}

// the node of this id among those of a chunk
fn node_of<W: Words>(w: &mut W, chunk: Spot, id: u64) -> Option<Spot>
    requires chunk { (d : Dataset) × (b : Base) × (log : List Entry) × (c : ℕ) × ParentImage d b log (W.words w.old) × HoldsChunk d b log chunk c }
    ensures same { w.new ≡ w.old }
    ensures is { (d : Dataset) (b : Base) (log : List Entry) (c : ℕ) → ParentImage d b log (W.words w.old) → HoldsChunk d b log chunk c → result ≡ first_place (is_node_of c id) (rows_of d b log) }
{
    let mut at = near_node(w, chunk, id);
    while let Some(spot) = at {
        if id_of(w, spot) > id {
            return None;
        }
        let last = leap(w, spot, id);
        if id_of(w, last) == id {
            return Some(last);
        }
        at = next_node(w, last);
    }
    None
}

// how many supervoxels and how many chunks the header counts
#[tactic(auto, unfolding(record_rows::specs::Sorted::supervoxel_count))]
fn counts<W: Words>(w: &mut W) -> (u32, u32)
    requires header { 8 ≤ length (W.words w.old) }
    ensures same { w.new ≡ w.old }
    ensures supervoxels { result.0 ≡ supervoxel_count (W.words w.old) }
    ensures chunks { result.1 ≡ slice_index (W.words w.old) 2 / 2 ^ 32 }
{
    let word = fixed(w, Spot(0), 2);
    ((word % 4294967296) as u32, (word / 4294967296) as u32)
}
