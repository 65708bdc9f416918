//! The nodes of a layer in the order of their records: by chunks, and in each by least leaves.

ghost use Rattle.std.specs.Prelude.{◌≡◌, ◌<◌, ◌≤◌, ◌^◌, ◌+◌, ◌++◌, ℕ, Some, None, IsTrue, length, map, slice_index_or, IfOk, IfErr, OnOk};
ghost use Rattle.std.specs.List.{All};
ghost use Rattle.graph_model.specs.Lists.{has};
ghost use Rattle.node_ids.specs.Ids.{segments};
ghost use Rattle.op_model.specs.Chunks.{top};
ghost use Rattle.op_model.specs.Labels.{node};
ghost use Rattle.op_model.specs.Valid.{IsAscending, IsBase, IsDataset};
ghost use Rattle.record_rows.specs.LogRows.{layer_nodes};
ghost use Rattle.op_model.specs.Ingest.{ingested, spent_in};
ghost use Rattle.layer_laws.specs.Building.{AreLeastLeaves};
ghost use Rattle.octree_layers.specs.Numbers.{AreByChunk, IsOwn, LabelsFitIn, OfSpent, node_of, number_behind, numbered, overflow, owner_at, owners, told, told_node};

use crate::errors::LayersError;
use crate::lists::ids_of;
use node_ids::NodeId;
use op_model::chunks::chunk;
use op_model::{Base, Dataset};
use pcg_base::NoMemory;
use std::alloc::Global;

/// A node of a layer.
#[derive(Clone, Copy, Drop)]
pub struct Made {
    /// The id: that of its chunk with its number in the chunk as segment.
    pub id: NodeId,
    /// The id of its chunk, with segment 0.
    pub chunk: NodeId,
    /// The place of its least leaf in the base's list of supervoxels.
    pub least: u32,
}

// a node that has no number yet
#[derive(Clone, Copy, Drop)]
struct Owner {
    chunk: NodeId,
    least: u32,
}

// puts the node at a place behind a list, if its least leaf stands there
fn push_owner(
    list: &mut Vec<Owner>,
    dataset: &Dataset,
    base: &Base,
    layer: u8,
    firsts: &[u32],
    place: u32,
) -> Result<(), NoMemory>
    requires dataset { IsDataset dataset.now }
    requires base { IsBase dataset.now base.now }
    requires layer { (2 ≤ layer) × (layer ≤ top dataset.now) }
    requires place { place < length base.now.supervoxels }
    requires count { length firsts.now ≡ length base.now.supervoxels }
    ensures { OnOk result (list.new.items ≡ list.old.items ++ owner_at dataset.now base.now layer firsts.now place) }
{
    if firsts[place as usize] != place {
        return Ok(());
    }
    let owner = Owner {
        chunk: chunk(dataset, layer, ids_of(base)[place as usize]),
        least: place,
    };
    match list.push(owner) {
        Ok(()) => Ok(()),
        Err(_) => Err(NoMemory),
    }
}

// the nodes of a layer by the places of their least leaves
fn owners(
    alloc: Global,
    dataset: &Dataset,
    base: &Base,
    layer: u8,
    firsts: &[u32],
) -> Result<Vec<Owner>, NoMemory>
    requires dataset { IsDataset dataset.now }
    requires base { IsBase dataset.now base.now }
    requires layer { (2 ≤ layer) × (layer ≤ top dataset.now) }
    requires size { length base.now.supervoxels < 2 ^ 32 }
    requires count { length firsts.now ≡ length base.now.supervoxels }
    ensures { IfOk result (λ v. v.items ≡ owners dataset.now base.now layer firsts.now) }
{
    let mut list = Vec::new(alloc);
    for place in 0..firsts.len() as u32 {
        push_owner(&mut list, dataset, base, layer, firsts, place)?;
    }
    Ok(list)
}

// the same nodes by chunks, those of one chunk as they stood
fn by_chunk(owners: Vec<Owner>) -> Result<Vec<Owner>, NoMemory>
    ensures { IfOk result (λ v. AreByChunk owners.items v.items) }
{
    let mut list = owners;
    let Ok(()) = list.sort_by_key(|owner| owner.chunk.0) else {
        return Err(NoMemory);
    };
    Ok(list)
}

// the number of a node of a chunk behind a node of another or the same one
fn number_behind(last: NodeId, label: u64, chunk: NodeId) -> u64
    requires label { label + 1 < 2 ^ 64 }
    ensures { result ≡ number_behind last label chunk }
{
    if chunk == last { label + 1 } else { 1 }
}

// the first chunk with more nodes than there are numbers below the limit
fn overflow(limit: u64, owners: &[Owner]) -> Option<NodeId>
    requires limit { (1 ≤ limit) × (limit ≤ 2 ^ 56) }
    ensures { result ≡ overflow limit 0 0 owners.now }
{
    let mut last = NodeId(0);
    let mut label = 0;
    for owner in owners {
        label = number_behind(last, label, owner.chunk);
        last = owner.chunk;
        if label >= limit {
            return Some(last);
        }
    }
    None
}

// the id of a node with this number
fn id_of(chunk: NodeId, label: u64) -> NodeId
    requires chunk { chunk < 2 ^ 62 }
    requires label { label < 2 ^ 62 }
    ensures { result ≡ chunk + label }
{
    NodeId(chunk.0 + label)
}

// the nodes with their numbers
fn numbered(alloc: Global, owners: &[Owner]) -> Result<Vec<Made>, NoMemory>
    requires small { All (λ o. o.chunk < 2 ^ 62) owners.now }
    requires size { length owners.now < 2 ^ 32 }
    ensures { IfOk result (λ v. v.items ≡ numbered 0 0 owners.now) }
{
    let mut list = Vec::new(alloc);
    let mut last = NodeId(0);
    let mut label = 0;
    for owner in owners {
        label = number_behind(last, label, owner.chunk);
        last = owner.chunk;
        let made = Made {
            id: id_of(last, label),
            chunk: last,
            least: owner.least,
        };
        let Ok(()) = list.push(made) else {
            return Err(NoMemory);
        };
    }
    Ok(list)
}

// the first number of a layer that is no segment
fn segments(dataset: &Dataset, layer: u8) -> u64
    ensures is { result ≡ segments dataset.now.layout layer }
    ensures range { (1 ≤ result) × (result ≤ 2 ^ 56) }
{
    1 << (56 - 3 * dataset.layout.width(layer))
}

/// The nodes of a layer by the ids of their chunks, and in each chunk by their least leaves, with the
/// numbers of the chunk from 1 on. `firsts` has for the place of each supervoxel the place of the
/// least leaf of its node.
///
/// # Errors
///
/// `IdsSpent` with the first chunk that has more nodes than the layer's ids have numbers, and
/// `NoMemory` where there is none for the list.
pub fn made_nodes(
    alloc: Global,
    dataset: &Dataset,
    base: &Base,
    layer: u8,
    firsts: &[u32],
) -> Result<Vec<Made>, LayersError>
    requires dataset { IsDataset dataset.now }
    requires base { IsBase dataset.now base.now }
    requires layer { (2 ≤ layer) × (layer ≤ top dataset.now) }
    requires size { length base.now.supervoxels < 2 ^ 32 }
    requires firsts { (now : ℕ) → AreLeastLeaves dataset.now base.now (ingested dataset.now base.now now) layer firsts.now }
    ensures made { IfOk result (λ v. (now : ℕ) → map (told base.now) v.items ≡ map told_node (layer_nodes dataset.now base.now (ingested dataset.now base.now now) 0 layer)) }
    ensures nodes { IfOk result (λ v. (now : ℕ) → map (node_of base.now firsts.now) v.items ≡ layer_nodes dataset.now base.now (ingested dataset.now base.now now) 0 layer) }
    ensures ids { IfOk result (λ v. (now : ℕ) → All (λ m. m.id ≡ node dataset.now base.now (ingested dataset.now base.now now) layer (slice_index_or base.now.supervoxels m.least 0)) v.items) }
    ensures ascending { IfOk result (λ v. IsAscending (map (λ m. m.id) v.items)) }
    ensures least { IfOk result (λ v. All (λ m. IsOwn base.now firsts.now m.least) v.items) }
    ensures each { IfOk result (λ v. (i : ℕ) → i < length base.now.supervoxels → IsTrue (has (map (λ m. m.least) v.items) (slice_index_or firsts.now i 0))) }
    ensures room { OnOk result ((now : ℕ) → spent_in dataset.now base.now (ingested dataset.now base.now now) layer ≡ None) }
    ensures fit { OnOk result ((now : ℕ) → LabelsFitIn dataset.now base.now (ingested dataset.now base.now now) layer) }
    ensures spent { IfErr result (OfSpent (λ at c. (at ≡ layer) × ((now : ℕ) → spent_in dataset.now base.now (ingested dataset.now base.now now) layer ≡ Some c))) }
{
    let Ok(list) = owners(alloc, dataset, base, layer, firsts) else {
        return Err(LayersError::NoMemory);
    };
    let Ok(list) = by_chunk(list) else {
        return Err(LayersError::NoMemory);
    };
    if let Some(chunk) = overflow(segments(dataset, layer), &list) {
        return Err(LayersError::IdsSpent { layer, chunk });
    }
    match numbered(alloc, &list) {
        Ok(made) => Ok(made),
        Err(_) => Err(LayersError::NoMemory),
    }
}
