//! All records of a base and its first entry.

ghost use Rattle.std.specs.Prelude.{◌≡◌, ℕ, List, ◌<◌, ◌≤◌, ◌+◌, ◌-◌, ◌*◌, ◌^◌, ◌++◌, [], length, map, IfOk, OnOk};
ghost use Rattle.std.specs.List.{All};
ghost use Rattle.op_model.specs.declared.base.Dataset.{Dataset as TheDataset};
ghost use Rattle.op_model.specs.declared.entry.Entry.{Entry};
ghost use Rattle.record_rows.specs.Rows.{Node};
ghost use Rattle.record_rows.specs.Words.{words_of};
ghost use Rattle.row_append.specs.Tails.{IsIngest};
ghost use Rattle.base_rows.specs.Lists.{AreNodes, IsOnce, IsPlaced, IsWithin};
ghost use Rattle.base_rows.specs.BaseRows.{all_rows, edged_rows, noded_rows, owner_rows};

use crate::edges::put_edges;
use crate::links::put_links;
use crate::lists::{BaseEdge, BaseLists, BaseNode};
use crate::nodes::put_nodes;
use crate::owners::put_owners;
use node_ids::NodeId;
use op_model::Dataset;
use pcg_base::{NoMemory, VecWords};
use row_append::push_entry;
use std::alloc::Global;

// puts the edges, and lets go of their list
fn put_all_edges(
    alloc: Global,
    w: &mut VecWords,
    ids: &[NodeId],
    edges: Vec<BaseEdge>,
) -> Result<(), NoMemory>
    requires places { (1 + length ids.now < 2 ^ 32)
        × (length w.old.words + 8 * length edges.items < 8 * 2 ^ 32) }
    requires room { 8 * length edges.items ≤ w.old.spare }
    requires once { IsOnce ids.now }
    requires placed { All (IsPlaced ids.now) edges.items }
    requires owners { (d : TheDataset) × (chunks : List ℕ)
        × (w.old.words ≡ words_of (owner_rows d ids.now chunks)) }
    ensures words { (d : TheDataset) (chunks : List ℕ)
        → w.old.words ≡ words_of (owner_rows d ids.now chunks)
        → OnOk result (w.new.words ≡ words_of (edged_rows d ids.now chunks edges.items)) }
    ensures length { OnOk result (length w.new.words ≡ length w.old.words + 8 * length edges.items) }
    ensures room { OnOk result (w.new.spare ≡ w.old.spare - 8 * length edges.items) }
{
    put_edges(alloc, w, ids, &edges)
}

// puts all records up to the nodes into words that are empty yet
fn put_to_nodes(
    alloc: Global,
    w: &mut VecWords,
    dataset: &Dataset,
    ids: &[NodeId],
    chunks: &[NodeId],
    edges: Vec<BaseEdge>,
    nodes: &[BaseNode],
) -> Result<(), NoMemory>
    requires empty { w.old.words ≡ [] }
    requires places { 1 + length ids.now + length chunks.now + length edges.items
        + length nodes.now < 2 ^ 32 }
    requires room { 8 * (1 + length ids.now + length chunks.now + length edges.items
        + length nodes.now) ≤ w.old.spare }
    requires ids { IsOnce ids.now }
    requires chunks { IsOnce chunks.now }
    requires edges { All (IsPlaced ids.now) edges.items }
    requires nodes { (ns : List Node) × AreNodes chunks.now nodes.now ns }
    ensures words { OnOk result ((ns : List Node) → AreNodes chunks.now nodes.now ns
        → w.new.words ≡ words_of (noded_rows dataset.now ids.now chunks.now edges.items ns)) }
    ensures length { OnOk result (length w.new.words ≡ 8 * (1 + length ids.now + length chunks.now
        + length edges.items + length nodes.now)) }
    ensures room { OnOk result (w.new.spare ≡ w.old.spare - 8 * (1 + length ids.now
        + length chunks.now + length edges.items + length nodes.now)) }
{
    put_owners(w, *dataset, ids, chunks);
    put_all_edges(alloc, w, ids, edges)?;
    let first = 1 + ids.len() as u32;
    put_nodes(alloc, w, first, chunks, nodes)?;
    Ok(())
}

/// The words of the records of a base and its first entry, which has the timestamp `at` in
/// milliseconds, with room for all records of the dataset's capacity. `ids` are the supervoxels. The
/// list of edges is let go as soon as their records stand.
///
/// Time is linear in the records.
///
/// # Errors
///
/// `NoMemory` where there is none for the words or for the ends of chains.
pub fn base_words(
    alloc: Global,
    dataset: &Dataset,
    ids: &[NodeId],
    lists: BaseLists,
    at: u64,
) -> Result<VecWords, NoMemory>
    requires capacity { dataset.now.capacity ≤ 16777216 }
    requires fits { 2 + length ids.now + length lists.chunks.items + length lists.edges.items + length lists.nodes.items + length lists.links.items ≤ dataset.now.capacity }
    requires chunks { IsOnce lists.chunks.items }
    requires owners { IsOnce (ids.now ++ map (λ n. n.id) lists.nodes.items) }
    requires edges { All (IsPlaced ids.now) lists.edges.items }
    requires links { All (IsWithin (ids.now ++ map (λ n. n.id) lists.nodes.items) (map (λ n. n.id) lists.nodes.items)) lists.links.items }
    requires nodes { (ns : List Node) × AreNodes lists.chunks.items lists.nodes.items ns }
    ensures words { IfOk result (λ w. (ns : List Node) (e : Entry) → AreNodes lists.chunks.items lists.nodes.items ns → IsIngest e at
        → w.words ≡ words_of (all_rows dataset.now ids.now lists.chunks.items lists.edges.items ns lists.links.items e)) }
    ensures room { IfOk result (λ w. 8 * dataset.now.capacity ≤ length w.words + w.spare) }
{
    let mut w = VecWords::new(Vec::new(alloc), 8 * dataset.capacity as u64)?;
    let BaseLists {
        chunks,
        edges,
        nodes,
        links,
    } = lists;
    let first = 1 + ids.len() as u32 + chunks.len() as u32 + edges.len() as u32;
    put_to_nodes(alloc, &mut w, dataset, ids, &chunks, edges, &nodes)?;
    put_links(alloc, &mut w, ids, first, &nodes, &links)?;
    push_entry(&mut w, at);
    Ok(w)
}
