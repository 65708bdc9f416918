//! The nodes that an entry makes, by the places of their chunks.

ghost use Rattle.std.specs.Prelude.{◌≡◌, ◌∷◌, ◌<◌, ◌≤◌, ◌^◌, ℕ, List, length, map, IsTrue, IfOk};
ghost use Rattle.std.specs.List.{All};
ghost use Rattle.graph_model.specs.Lists.{has};
ghost use Rattle.op_model.specs.declared.base.Dataset.{Dataset};
ghost use Rattle.op_model.specs.declared.base.Base.{Base};
ghost use Rattle.op_model.specs.declared.entry.Entry.{Entry};
ghost use Rattle.op_model.specs.Valid.{IsAscending};
ghost use Rattle.record_rows.specs.LogRows.{chunks, new_nodes, rows_of};
ghost use Rattle.record_rows.specs.Readings.{ParentImage};
ghost use Rattle.row_append.specs.Ends.{NodesIn};
ghost use Rattle.base_rows.specs.States.{AreTails};
ghost use Rattle.entry_parts.specs.Made.{AreMade};
ghost use Rattle.entry_rows.specs.States.{ArePointers};
ghost use Rattle.entry_lists.specs.Parts.{AreNodesPlaced, IsBehind, base_node};

use crate::ids::ascending_ids;
use base_rows::BaseNode;
use chain_ends::nodes_end;
use entry_parts::MadeNode;
use node_ids::NodeId;
use octree_layers::place_of;
use pcg_base::{NoMemory, Words};
use row_append::Tail;
use std::alloc::Global;

/// Nodes with their chunks by places in a list of chunks.
#[derive(Drop)]
pub struct NodeLists {
    /// The nodes.
    pub nodes: Vec<BaseNode>,
    /// Where the nodes of each of those chunks end.
    pub ends: Vec<Tail>,
}

// the chunks of nodes
fn chunks_of(alloc: Global, nodes: &[MadeNode]) -> Result<Vec<NodeId>, NoMemory>
    ensures { IfOk result (λ v. v.items ≡ map (λ n. n.chunk) nodes.now) }
{
    let mut list = Vec::new(alloc);
    for node in nodes {
        let Ok(()) = list.push(node.chunk) else {
            return Err(NoMemory);
        };
    }
    Ok(list)
}

// where the nodes of each chunk end
fn chunk_ends<W: Words>(alloc: Global, w: &mut W, ids: &[NodeId]) -> Result<Vec<Tail>, NoMemory>
    requires chunks { (d : Dataset) × (b : Base) × (log : List Entry) × ParentImage d b log (W.words w.old) × All (λ c. IsTrue (has (chunks d b) c)) ids.now }
    ensures same { w.new ≡ w.old }
    ensures ends { (d : Dataset) (b : Base) (log : List Entry) → ParentImage d b log (W.words w.old) → All (λ c. IsTrue (has (chunks d b) c)) ids.now → IfOk result (λ v. AreTails NodesIn ids.now (rows_of d b log) v.items) }
    ensures pointers { IfOk result (λ v. ArePointers v.items) }
{
    let mut list = Vec::new(alloc);
    for id in ids {
        let tail = nodes_end(w, *id);
        let Ok(()) = list.push(tail) else {
            return Err(NoMemory);
        };
    }
    Ok(list)
}

// the node with the place of its chunk
#[tactic(auto, unfolding(crate::specs::Parts::base_node))]
fn node_at(ids: &[NodeId], node: &MadeNode) -> BaseNode
    requires ascending { IsAscending ids.now }
    requires size { length ids.now < 2 ^ 32 }
    requires known { IsTrue (has ids.now node.now.chunk) }
    ensures { result ≡ base_node ids.now node.now }
{
    BaseNode {
        id: node.id,
        least: node.least,
        chunk: place_of(ids, node.chunk),
    }
}

// the nodes with the places of their chunks
fn nodes_at(alloc: Global, ids: &[NodeId], nodes: &[MadeNode]) -> Result<Vec<BaseNode>, NoMemory>
    requires ascending { IsAscending ids.now }
    requires size { length ids.now < 2 ^ 32 }
    requires known { All (λ n. IsTrue (has ids.now n.chunk)) nodes.now }
    ensures { IfOk result (λ v. v.items ≡ map (base_node ids.now) nodes.now) }
{
    let mut list = Vec::new(alloc);
    for node in nodes {
        let placed = node_at(ids, node);
        let Ok(()) = list.push(placed) else {
            return Err(NoMemory);
        };
    }
    Ok(list)
}

/// The nodes that an entry makes behind a log, by the places of their chunks, and where the nodes of
/// each of those end in the log's records.
///
/// # Errors
///
/// `NoMemory` where there is none for the lists.
pub fn list_nodes<W: Words>(
    alloc: Global,
    w: &mut W,
    nodes: &[MadeNode],
) -> Result<NodeLists, NoMemory>
    requires few { length nodes.now < 2 ^ 32 }
    requires entry { (d : Dataset) × (b : Base) × (log : List Entry) × (e : Entry) × IsBehind d b log e (W.words w.old) × AreMade d b log e nodes.now }
    ensures same { w.new ≡ w.old }
    ensures listed { (d : Dataset) (b : Base) (log : List Entry) (e : Entry) → IsBehind d b log e (W.words w.old) → AreMade d b log e nodes.now
        → IfOk result (λ r. AreNodesPlaced e.number (rows_of d b log) r.nodes.items r.ends.items (new_nodes d b (e ∷ log) e.number)) }
{
    let all = chunks_of(alloc, nodes)?;
    let ids = ascending_ids(all);
    let ends = chunk_ends(alloc, w, &ids)?;
    let placed = nodes_at(alloc, &ids, nodes)?;
    Ok(NodeLists {
        nodes: placed,
        ends,
    })
}
