//! The edges of a supervoxel at a prefix.

ghost use Rattle.std.specs.Prelude.{◌≡◌, ℕ, ◌≤◌, nat_lt, if◌then◌else◌, List, [], ◌∷◌, ◌++◌, OnOk, IfOk};
ghost use Rattle.op_model.specs.declared.base.Dataset.{Dataset};
ghost use Rattle.op_model.specs.declared.base.Base.{Base};
ghost use Rattle.op_model.specs.declared.base.Edge.{Edge};
ghost use Rattle.op_model.specs.declared.entry.Entry.{Entry};
ghost use Rattle.op_model.specs.Labels.{edges};
ghost use Rattle.op_model.specs.Transcript.{log_at};
ghost use Rattle.record_rows.specs.Readings.{Image, HoldsSupervoxel, HoldsEdge};
ghost use Rattle.record_rows.specs.Walks.{edges_at};
ghost use Rattle.edge_rows.specs.AtPrefix.{with_state};

use crate::chains::{first_edge, next_edge};
use crate::fields::{made_by, pair_of, weight_of};
use crate::ordering::ascending;
use crate::states::state_at;
use node_ids::NodeId;
use op_model::{Edge, EdgeList};
use pcg_base::{NoMemory, Words};
use row_words::{Spot, fixed};
use std::alloc::Global;

/// An edge with its state after the first `prefix` entries.
fn edge_at<W: Words>(w: &mut W, edge: Spot, prefix: u32) -> Edge
    requires edge { (d : Dataset) × (b : Base) × (log : List Entry) × (made : ℕ) × (e : Edge) × Image d b log (W.words w.old) × HoldsEdge d b log edge made e }
    ensures same { w.new ≡ w.old }
    ensures is { (d : Dataset) (b : Base) (log : List Entry) (made : ℕ) (e : Edge) → Image d b log (W.words w.old) → HoldsEdge d b log edge made e → result ≡ with_state (edges d b (log_at d b log prefix)) e }
{
    let pair = pair_of(w, edge);
    let weight = weight_of(w, edge);
    let active = state_at(w, edge, prefix);
    Edge {
        pair,
        weight,
        active,
    }
}

/// Puts an edge with its state after the first `prefix` entries behind others, if one of those
/// entries made it.
fn keep_edge<W: Words>(
    w: &mut W,
    list: &mut Vec<Edge>,
    edge: Spot,
    prefix: u32,
) -> Result<(), NoMemory>
    requires edge { (d : Dataset) × (b : Base) × (log : List Entry) × (made : ℕ) × (e : Edge) × Image d b log (W.words w.old) × HoldsEdge d b log edge made e }
    ensures same { w.new ≡ w.old }
    ensures kept { (d : Dataset) (b : Base) (log : List Entry) (made : ℕ) (e : Edge) → Image d b log (W.words w.old) → HoldsEdge d b log edge made e → OnOk result (list.new.items ≡ (if nat_lt made prefix then list.old.items ++ with_state (edges d b (log_at d b log prefix)) e ∷ [] else list.old.items)) }
{
    if made_by(w, edge) < prefix {
        let kept = edge_at(w, edge, prefix);
        list.push(kept).map_err(|_| NoMemory)?;
    }
    Ok(())
}

/// The edges of a supervoxel after the first `prefix` entries, at least one, with their states,
/// ascending by pair. Behind the walk along their records it takes time n log n in their number.
///
/// # Errors
///
/// `NoMemory` where there is no memory for the list.
pub fn edges_of<W: Words>(
    alloc: Global,
    w: &mut W,
    sv: Spot,
    prefix: u32,
) -> Result<EdgeList, NoMemory>
    requires supervoxel { (d : Dataset) × (b : Base) × (log : List Entry) × (v : ℕ) × Image d b log (W.words w.old) × HoldsSupervoxel d b log sv v }
    requires prefix { 1 ≤ prefix }
    ensures same { w.new ≡ w.old }
    ensures edges { (d : Dataset) (b : Base) (log : List Entry) (v : ℕ) → Image d b log (W.words w.old) → HoldsSupervoxel d b log sv v → IfOk result (λ es. es ≡ edges_at (edges d b (log_at d b log prefix)) v) }
{
    let id = NodeId(fixed(w, sv, 1));
    let mut list = Vec::new(alloc);
    let mut at = first_edge(w, sv);
    while let Some(edge) = at {
        keep_edge(w, &mut list, edge, prefix)?;
        at = next_edge(w, edge, id);
    }
    Ok(ascending(list))
}
