//! From the least leaves of the nodes of a layer to those of the next.

ghost use Rattle.std.specs.Prelude.{◌≡◌, ◌<◌, ◌≤◌, ◌-◌, ◌^◌, ℕ, length, map, slice_index_or, IfOk};
ghost use Rattle.std.specs.List.{All, filter};
ghost use Rattle.std.specs.List.Sorted.{IsNonDecreasingBy};
ghost use Rattle.op_model.specs.declared.base.Dataset.{Dataset};
ghost use Rattle.op_model.specs.declared.base.Base.{Base};
ghost use Rattle.op_model.specs.Valid.{IsBase, IsDataset};
ghost use Rattle.op_model.specs.Ingest.{ingested};
ghost use Rattle.layer_laws.specs.Building.{AreLeastLeaves};
ghost use Rattle.octree_layers.specs.Pairs.{AreEdges, pair_at, pairs_at};

use crate::levels::{PlacedEdge, of_level};
use components::components;
use pcg_base::NoMemory;
use std::alloc::Global;

// the pairs of places that the active ones of some edges lead to
fn active_pairs(
    alloc: Global,
    edges: &[PlacedEdge],
    firsts: &[u32],
) -> Result<Vec<(u32, u32)>, NoMemory>
    requires within { All (λ e. (e.lesser < length firsts.now) × (e.greater < length firsts.now)) edges.now }
    ensures { IfOk result (λ v. v.items ≡ map (pair_at firsts.now) (filter (λ e. e.active) edges.now)) }
{
    let mut list = Vec::new(alloc);
    for edge in edges {
        if edge.active {
            let pair = (firsts[edge.lesser as usize], firsts[edge.greater as usize]);
            let Ok(()) = list.push(pair) else {
                return Err(NoMemory);
            };
        }
    }
    Ok(list)
}

// the pairs of places of least leaves that a layer joins
fn pairs_at(
    alloc: Global,
    edges: &[PlacedEdge],
    layer: u8,
    firsts: &[u32],
) -> Result<Vec<(u32, u32)>, NoMemory>
    requires rising { IsNonDecreasingBy (λ e. e.level) edges.now }
    requires within { All (λ e. (e.lesser < length firsts.now) × (e.greater < length firsts.now)) edges.now }
    ensures { IfOk result (λ v. v.items ≡ pairs_at firsts.now layer edges.now) }
{
    active_pairs(alloc, of_level(edges, layer), firsts)
}

// what each place leads to
fn lead(alloc: Global, least: &[u32], firsts: &[u32]) -> Result<Vec<u32>, NoMemory>
    requires within { All (λ f. f < length least.now) firsts.now }
    ensures { IfOk result (λ v. v.items ≡ map (λ f. slice_index_or least.now f 0) firsts.now) }
{
    let mut list = Vec::new(alloc);
    for first in firsts {
        let Ok(()) = list.push(least[*first as usize]) else {
            return Err(NoMemory);
        };
    }
    Ok(list)
}

/// From the least leaves of the layer below those of a layer: for the place of each supervoxel the
/// place of the least leaf of its node. In layer 1 each place leads to itself.
///
/// The edges are those of the base by ascending levels; only those of the layer's own level are
/// looked at. Time and memory are linear in them and the number of places.
///
/// # Errors
///
/// `NoMemory` where there is none for the lists.
pub fn rise(
    alloc: Global,
    edges: &[PlacedEdge],
    layer: u8,
    firsts: &[u32],
) -> Result<Vec<u32>, NoMemory>
    requires layer { 2 ≤ layer }
    requires rising { IsNonDecreasingBy (λ e. e.level) edges.now }
    requires within { All (λ e. (e.lesser < length firsts.now) × (e.greater < length firsts.now)) edges.now }
    requires firsts { All (λ f. f < length firsts.now) firsts.now }
    requires size { length firsts.now < 2 ^ 32 }
    ensures { IfOk result (λ v. (d : Dataset) (b : Base) (now : ℕ) → IsDataset d → IsBase d b → AreEdges d b edges.now → AreLeastLeaves d b (ingested d b now) (layer - 1) firsts.now → AreLeastLeaves d b (ingested d b now) layer v.items) }
{
    let pairs = pairs_at(alloc, edges, layer, firsts)?;
    let least = components(alloc, firsts.len() as u32, &pairs)?;
    lead(alloc, &least, firsts)
}
