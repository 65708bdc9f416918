//! All layers of a base's octree.

ghost use Rattle.std.specs.Prelude.{◌≡◌, ◌<◌, ◌≤◌, ◌-◌, ◌^◌, ℕ, None, Some, length, IfOk, IfErr, OnOk};
ghost use Rattle.std.specs.List.{range_with_len};
ghost use Rattle.std.specs.List.Sorted.{IsNonDecreasingBy};
ghost use Rattle.op_model.specs.Chunks.{top};
ghost use Rattle.op_model.specs.Legal.{LabelsFit};
ghost use Rattle.op_model.specs.Valid.{IsBase, IsDataset};
ghost use Rattle.record_rows.specs.LogRows.{new_nodes};
ghost use Rattle.op_model.specs.Ingest.{ingested, IsFirstSpent, spent_in};
ghost use Rattle.layer_laws.specs.Building.{AreLeastLeaves};
ghost use Rattle.octree_layers.specs.Pairs.{AreEdges};
ghost use Rattle.octree_layers.specs.Places.{ArePlaces};
ghost use Rattle.octree_layers.specs.Numbers.{LabelsFitIn, OfSpent};
ghost use Rattle.octree_layers.specs.Layers.{all_nodes, AreLayers, IsLayer, last_firsts};

use crate::errors::LayersError;
use crate::levels::{PlacedEdge, by_level, placed_edges};
use crate::lists::ids_of;
use crate::numbering::{Made, made_nodes};
use crate::rising::rise;
use base_rows::BaseEdge;
use op_model::{Base, Dataset};
use pcg_base::NoMemory;
use std::alloc::Global;

/// A layer of the octree.
#[derive(Drop)]
pub struct Layer {
    /// For the place of each supervoxel the place of the least leaf of its node.
    pub firsts: Vec<u32>,
    /// The nodes by the ids of their chunks, and in each chunk by their numbers.
    pub made: Vec<Made>,
}

/// Each place by itself: the numbers below the count.
///
/// # Errors
///
/// `NoMemory` where there is none for the list.
pub fn places(alloc: Global, count: u32) -> Result<Vec<u32>, NoMemory>
    ensures { IfOk result (λ v. v.items ≡ range_with_len 0 count) }
{
    let mut list = Vec::new(alloc);
    for place in 0..count {
        let Ok(()) = list.push(place) else {
            return Err(NoMemory);
        };
    }
    Ok(list)
}

// the least leaves of the last layer, or others where there is none
fn last_firsts<'a>(firsts: &'a [u32], layers: &'a [Layer]) -> &'a [u32]
    ensures { result.now ≡ last_firsts firsts.now layers.now }
{
    match layers.last() {
        Some(layer) => layer.firsts.as_slice(),
        None => firsts,
    }
}

// a layer from the least leaves of the one below
fn next_layer(
    alloc: Global,
    dataset: &Dataset,
    base: &Base,
    edges: &[PlacedEdge],
    layer: u8,
    below: &[u32],
) -> Result<Layer, LayersError>
    requires dataset { IsDataset dataset.now }
    requires base { IsBase dataset.now base.now }
    requires size { length base.now.supervoxels < 2 ^ 32 }
    requires edges { AreEdges dataset.now base.now edges.now }
    requires rising { IsNonDecreasingBy (λ e. e.level) edges.now }
    requires layer { (2 ≤ layer) × (layer ≤ top dataset.now) }
    requires below { (now : ℕ) → AreLeastLeaves dataset.now base.now (ingested dataset.now base.now now) (layer - 1) below.now }
    ensures is { IfOk result (λ l. (now : ℕ) → IsLayer dataset.now base.now (ingested dataset.now base.now now) layer l) }
    ensures room { OnOk result ((now : ℕ) → spent_in dataset.now base.now (ingested dataset.now base.now now) layer ≡ None) }
    ensures fit { OnOk result ((now : ℕ) → LabelsFitIn dataset.now base.now (ingested dataset.now base.now now) layer) }
    ensures spent { IfErr result (OfSpent (λ at c. (at ≡ layer) × ((now : ℕ) → spent_in dataset.now base.now (ingested dataset.now base.now now) layer ≡ Some c))) }
{
    let Ok(firsts) = rise(alloc, edges, layer, below) else {
        return Err(LayersError::NoMemory);
    };
    match made_nodes(alloc, dataset, base, layer, &firsts) {
        Ok(made) => Ok(Layer { firsts, made }),
        Err(error) => Err(error),
    }
}

// the layers from 2 to the top, from the edges by ascending levels
fn layers_over(
    alloc: Global,
    dataset: &Dataset,
    base: &Base,
    edges: &[PlacedEdge],
    start: &[u32],
) -> Result<Vec<Layer>, LayersError>
    requires dataset { IsDataset dataset.now }
    requires base { IsBase dataset.now base.now }
    requires size { length base.now.supervoxels < 2 ^ 32 }
    requires edges { AreEdges dataset.now base.now edges.now }
    requires rising { IsNonDecreasingBy (λ e. e.level) edges.now }
    requires start { start.now ≡ range_with_len 0 (length base.now.supervoxels) }
    ensures layers { IfOk result (λ v. (now : ℕ) → AreLayers dataset.now base.now (ingested dataset.now base.now now) 2 v.items) }
    ensures count { IfOk result (λ v. length v.items ≡ top dataset.now - 1) }
    ensures nodes { IfOk result (λ v. (now : ℕ) → all_nodes base.now v.items ≡ new_nodes dataset.now base.now (ingested dataset.now base.now now) 0) }
    ensures fit { OnOk result ((now : ℕ) → LabelsFit dataset.now base.now (ingested dataset.now base.now now)) }
    ensures room { OnOk result ((now at : ℕ) → 2 ≤ at → at ≤ top dataset.now → spent_in dataset.now base.now (ingested dataset.now base.now now) at ≡ None) }
    ensures spent { IfErr result (OfSpent (λ at c. (now : ℕ) → IsFirstSpent dataset.now base.now (ingested dataset.now base.now now) at c)) }
{
    let mut layers = Vec::new(alloc);
    for layer in 2..dataset.grid.top_layer() + 1 {
        let below = last_firsts(start, &layers);
        let next = match next_layer(alloc, dataset, base, edges, layer, below) {
            Ok(next) => next,
            Err(error) => return Err(error),
        };
        let Ok(()) = layers.push(next) else {
            return Err(LayersError::NoMemory);
        };
    }
    Ok(layers)
}

/// The layers of a base's octree at its first entry, from layer 2 to the top, from its edges with the
/// places of their `ends`. The base has fewer than 2^32 supervoxels.
///
/// The nodes of a layer are the components of those below by the active edges whose ends first come
/// into one chunk in it (Dorkenwald et al. 2022). Each edge is looked at in its own layer alone; time
/// is linear in the edges and the layers times the supervoxels, but for sorting.
///
/// # Errors
///
/// `IdsSpent` with the first chunk that has more nodes than its layer's ids have numbers, and
/// `NoMemory` where there is none for the lists.
pub fn build_layers(
    alloc: Global,
    dataset: &Dataset,
    base: &Base,
    ends: &[BaseEdge],
) -> Result<Vec<Layer>, LayersError>
    requires dataset { IsDataset dataset.now }
    requires base { IsBase dataset.now base.now }
    requires size { length base.now.supervoxels < 2 ^ 32 }
    requires places { ArePlaces base.now ends.now }
    ensures layers { IfOk result (λ v. (now : ℕ) → AreLayers dataset.now base.now (ingested dataset.now base.now now) 2 v.items) }
    ensures count { IfOk result (λ v. length v.items ≡ top dataset.now - 1) }
    ensures nodes { IfOk result (λ v. (now : ℕ) → all_nodes base.now v.items ≡ new_nodes dataset.now base.now (ingested dataset.now base.now now) 0) }
    ensures fit { OnOk result ((now : ℕ) → LabelsFit dataset.now base.now (ingested dataset.now base.now now)) }
    ensures room { OnOk result ((now at : ℕ) → 2 ≤ at → at ≤ top dataset.now → spent_in dataset.now base.now (ingested dataset.now base.now now) at ≡ None) }
    ensures spent { IfErr result (OfSpent (λ at c. (now : ℕ) → IsFirstSpent dataset.now base.now (ingested dataset.now base.now now) at c)) }
{
    let Ok(edges) = placed_edges(alloc, dataset, base, ends) else {
        return Err(LayersError::NoMemory);
    };
    let edges = by_level(edges);
    let Ok(start) = places(alloc, ids_of(base).len() as u32) else {
        return Err(LayersError::NoMemory);
    };
    layers_over(alloc, dataset, base, &edges, &start)
}
