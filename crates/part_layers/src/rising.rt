//! The edges of a part by their levels, and the least leaves from one layer to the next.

ghost use Rattle.std.specs.Prelude.{◌≡◌, ◌<◌, ◌≤◌, ◌-◌, ◌^◌, ℕ, List, length, IfOk};
ghost use Rattle.op_model.specs.declared.base.Base.{Base};
ghost use Rattle.op_model.specs.declared.entry.Entry.{Entry};
ghost use Rattle.op_model.specs.Valid.{IsBase, IsDataset};
ghost use Rattle.entry_parts.specs.Parts.{AreFirstsOf, IsPart};
ghost use Rattle.part_layers.specs.Rising.{AreByLevel, AreOwnFirsts};

use octree_layers::layers::places;
use octree_layers::lists::ids_of;
use octree_layers::{PlacedEdge, by_level, edge_places, placed_edges, rise};
use op_model::{Base, Dataset};
use pcg_base::NoMemory;
use std::alloc::Global;

/// The edges of a part, of fewer than 2^32 supervoxels, by the places of their ends and by ascending
/// levels: the layers in which their ends come into one chunk. Time is n log n in the edges.
///
/// # Errors
///
/// `NoMemory` where there is none for the lists.
pub fn edges_by_level(
    alloc: Global,
    dataset: &Dataset,
    part: &Base,
) -> Result<Vec<PlacedEdge>, NoMemory>
    requires dataset { IsDataset dataset.now }
    requires part { IsBase dataset.now part.now }
    requires size { length part.now.supervoxels < 2 ^ 32 }
    ensures { IfOk result (λ v. AreByLevel dataset.now part.now v.items) }
{
    let ends = edge_places(alloc, dataset, part)?;
    let edges = placed_edges(alloc, dataset, part, &ends)?;
    Ok(by_level(edges))
}

/// The least leaves of layer 1: each of so many supervoxels is its own.
///
/// # Errors
///
/// `NoMemory` where there is none for the list.
pub fn first_firsts(alloc: Global, dataset: &Dataset, part: &Base) -> Result<Vec<u32>, NoMemory>
    requires dataset { IsDataset dataset.now }
    requires part { IsBase dataset.now part.now }
    requires size { length part.now.supervoxels < 2 ^ 32 }
    ensures own { IfOk result (λ v. AreOwnFirsts dataset.now part.now 1 v.items) }
    ensures are { IfOk result (λ v. (b : Base) (log : List Entry) → IsBase dataset.now b → IsPart dataset.now b log part.now → AreFirstsOf dataset.now b log part.now.supervoxels 1 v.items) }
{
    let _ = dataset;
    places(alloc, ids_of(part).len() as u32)
}

/// The least leaves of a layer from those of the layer below, from the part's edges by ascending levels.
/// Only the edges of the layer's own level are looked at. Time and memory are linear in them and the
/// supervoxels.
///
/// # Errors
///
/// `NoMemory` where there is none for the lists.
pub fn next_firsts(
    alloc: Global,
    dataset: &Dataset,
    part: &Base,
    edges: &[PlacedEdge],
    layer: u8,
    below: &[u32],
) -> Result<Vec<u32>, NoMemory>
    requires dataset { IsDataset dataset.now }
    requires part { IsBase dataset.now part.now }
    requires size { length part.now.supervoxels < 2 ^ 32 }
    requires edges { AreByLevel dataset.now part.now edges.now }
    requires layer { 2 ≤ layer }
    requires below { AreOwnFirsts dataset.now part.now (layer - 1) below.now }
    ensures own { IfOk result (λ v. AreOwnFirsts dataset.now part.now layer v.items) }
    ensures are { IfOk result (λ v. (b : Base) (log : List Entry) → IsBase dataset.now b → IsPart dataset.now b log part.now → AreFirstsOf dataset.now b log part.now.supervoxels layer v.items) }
{
    let _ = dataset;
    let _ = part;
    rise(alloc, edges, layer, below)
}
