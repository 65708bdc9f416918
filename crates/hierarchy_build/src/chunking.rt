//! The chunks of a base that hold a supervoxel, and the nodes of all layers with the places of their chunks.

ghost use Rattle.std.specs.Prelude.{◌≡◌, ◌<◌, ◌≤◌, ◌-◌, ◌^◌, ◌+◌, ◌++◌, [], ◌∷◌, ℕ, length, map, IfOk, OnOk};
ghost use Rattle.std.specs.List.{All};
ghost use Rattle.base_rows.specs.Lists.{AreNodes};
ghost use Rattle.op_model.specs.Chunks.{top};
ghost use Rattle.op_model.specs.Valid.{IsBase, IsDataset};
ghost use Rattle.record_rows.specs.LogRows.{chunks};
ghost use Rattle.op_model.specs.Ingest.{ingested};
ghost use Rattle.octree_layers.specs.Layers.{all_nodes, AreLayers};
ghost use Rattle.hierarchy_build.specs.Chunked.{base_node, chunks_behind, count_behind, fresh, nodes_behind};

use base_rows::BaseNode;
use node_ids::NodeId;
use octree_layers::Made;
use octree_layers::layers::Layer;
use octree_layers::lists::ids_of;
use op_model::{Base, Dataset};
use pcg_base::NoMemory;
use std::alloc::Global;

// how many chunks there are up to this one, which stands behind the last of so many or is it
fn count_behind(last: NodeId, count: u64, chunk: NodeId) -> u64
    requires count { count + 1 < 2 ^ 64 }
    ensures { result ≡ count_behind last count chunk }
{
    if chunk == last { count } else { count + 1 }
}

// how many chunks the nodes of a layer lie in
fn chunks_in(made: &[Made]) -> u64
    ensures { result ≡ length (chunks_behind 0 made.now) }
{
    let mut last = NodeId(0);
    let mut count = 0;
    for node in made {
        count = count_behind(last, count, node.chunk);
        last = node.chunk;
    }
    count
}

/// How many chunks of the layers from 2 to the top hold a supervoxel.
pub fn chunk_count(dataset: &Dataset, base: &Base, layers: &[Layer]) -> u64
    requires dataset { IsDataset dataset.now }
    requires base { IsBase dataset.now base.now }
    requires layers { (now : ℕ) → AreLayers dataset.now base.now (ingested dataset.now base.now now) 2 layers.now }
    requires count { length layers.now ≡ top dataset.now - 1 }
    ensures { result ≡ length (chunks dataset.now base.now) }
{
    let mut count = 0;
    for layer in layers {
        count += chunks_in(&layer.made);
    }
    count
}

// puts the chunk of a node behind those of a layer, if it isn't the last one
fn push_chunk(list: &mut Vec<NodeId>, last: NodeId, chunk: NodeId) -> Result<(), NoMemory>
    ensures { OnOk result (list.new.items ≡ list.old.items ++ fresh last (chunk ∷ [])) }
{
    if chunk == last {
        return Ok(());
    }
    match list.push(chunk) {
        Ok(()) => Ok(()),
        Err(_) => Err(NoMemory),
    }
}

// puts the chunks of a layer's nodes behind a list
fn push_chunks(list: &mut Vec<NodeId>, made: &[Made]) -> Result<(), NoMemory>
    ensures { OnOk result (list.new.items ≡ list.old.items ++ chunks_behind 0 made.now) }
{
    let mut last = NodeId(0);
    for node in made {
        push_chunk(list, last, node.chunk)?;
        last = node.chunk;
    }
    Ok(())
}

/// The chunks of the layers from 2 to the top that hold a supervoxel, by layers and ascending in each:
/// the order of their records. Time is linear in the nodes.
///
/// # Errors
///
/// `NoMemory` where there is none for the list.
pub fn base_chunks(
    alloc: Global,
    dataset: &Dataset,
    base: &Base,
    layers: &[Layer],
) -> Result<Vec<NodeId>, NoMemory>
    requires dataset { IsDataset dataset.now }
    requires base { IsBase dataset.now base.now }
    requires layers { (now : ℕ) → AreLayers dataset.now base.now (ingested dataset.now base.now now) 2 layers.now }
    requires count { length layers.now ≡ top dataset.now - 1 }
    ensures { IfOk result (λ v. v.items ≡ chunks dataset.now base.now) }
{
    let mut list = Vec::new(alloc);
    for layer in layers {
        push_chunks(&mut list, &layer.made)?;
    }
    Ok(list)
}

// a node of the last of so many chunks
fn base_node(ids: &[NodeId], node: &Made, count: u64) -> BaseNode
    requires least { node.now.least < length ids.now }
    requires count { (1 ≤ count) × (count ≤ 2 ^ 32) }
    ensures { result ≡ base_node ids.now count node.now }
{
    BaseNode {
        id: node.id,
        least: ids[node.least as usize],
        chunk: (count - 1) as u32,
    }
}

// puts the nodes of a layer behind a list, where the layers below have so many chunks: how many there are then
fn push_nodes(
    list: &mut Vec<BaseNode>,
    ids: &[NodeId],
    made: &[Made],
    below: u64,
) -> Result<u64, NoMemory>
    requires least { All (λ m. m.least < length ids.now) made.now }
    requires chunks { All (λ m. 0 < m.chunk) made.now }
    requires few { below + length made.now < 2 ^ 32 }
    ensures nodes { OnOk result (list.new.items ≡ list.old.items ++ nodes_behind ids.now 0 below made.now) }
    ensures count { IfOk result (λ n. n ≡ below + length (chunks_behind 0 made.now)) }
{
    let mut last = NodeId(0);
    let mut count = below;
    for node in made {
        count = count_behind(last, count, node.chunk);
        last = node.chunk;
        let Ok(()) = list.push(base_node(ids, node, count)) else {
            return Err(NoMemory);
        };
    }
    Ok(count)
}

/// The nodes of all layers in the order of their records, with their least supervoxels and the places of
/// their chunks in the list that [`base_chunks`] gives. Since the nodes of a layer stand by their
/// chunks, the place moves on by one where the chunk is another: time is linear in the nodes.
///
/// # Errors
///
/// `NoMemory` where there is none for the list.
pub fn base_nodes(
    alloc: Global,
    dataset: &Dataset,
    base: &Base,
    layers: &[Layer],
) -> Result<Vec<BaseNode>, NoMemory>
    requires dataset { IsDataset dataset.now }
    requires base { IsBase dataset.now base.now }
    requires layers { (now : ℕ) → AreLayers dataset.now base.now (ingested dataset.now base.now now) 2 layers.now }
    requires count { length layers.now ≡ top dataset.now - 1 }
    requires few { length (all_nodes base.now layers.now) < 2 ^ 32 }
    ensures { IfOk result (λ v. AreNodes (chunks dataset.now base.now) v.items (all_nodes base.now layers.now)) }
{
    let ids = ids_of(base);
    let mut list = Vec::new(alloc);
    let mut count = 0;
    for layer in layers {
        count = push_nodes(&mut list, ids, &layer.made, count)?;
    }
    Ok(list)
}
