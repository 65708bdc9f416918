//! The edges of a base by the places of their ends, with the layer in which the ends come into one chunk.

ghost use Rattle.std.specs.Prelude.{◌≡◌, ◌==◌, map, IfOk, IsPermutation};
ghost use Rattle.std.specs.List.{filter};
ghost use Rattle.std.specs.List.Sorted.{IsNonDecreasingBy};
ghost use Rattle.op_model.specs.Chunks.{cell};
ghost use Rattle.op_model.specs.Valid.{IsBase, IsDataset};
ghost use Rattle.base_rows.specs.Lists.{IsPlaced};
ghost use Rattle.octree_layers.specs.Places.{ArePlaces, placed};

use base_rows::BaseEdge;
use chunk_geometry::Cell;
use node_ids::NodeId;
use op_model::{Base, Dataset};
use pcg_base::NoMemory;
use std::alloc::Global;

/// An edge between places of the base's list of supervoxels.
#[derive(Clone, Copy, Drop)]
pub struct PlacedEdge {
    /// The place of the lesser end.
    pub lesser: u32,
    /// The place of the greater end.
    pub greater: u32,
    /// The least layer, from the second on, of which one chunk holds both ends.
    pub level: u8,
    /// Whether the edge joins its ends.
    pub active: bool,
}

// the base chunk of a supervoxel
#[tactic(auto, unfolding(op_model::specs::Chunks::cell))]
fn cell(dataset: &Dataset, sv: NodeId) -> Cell
    ensures { result ≡ cell dataset.now sv }
{
    let parts = dataset.layout.unpack(sv);
    Cell {
        x: parts.x,
        y: parts.y,
        z: parts.z,
    }
}

// an edge by the places of its ends, with its level
fn placed(dataset: &Dataset, base: &Base, end: &BaseEdge) -> PlacedEdge
    requires dataset { IsDataset dataset.now }
    requires base { IsBase dataset.now base.now }
    requires placed { IsPlaced base.now.supervoxels end.now }
    ensures { result ≡ placed dataset.now base.now end.now.edge }
{
    let _ = base;
    let (a, b) = (end.edge.pair.a, end.edge.pair.b);
    PlacedEdge {
        lesser: end.lesser,
        greater: end.greater,
        level: dataset.grid.level(cell(dataset, a), cell(dataset, b)),
        active: end.edge.active,
    }
}

/// The edges of a base, in its order, by the places of their ends, with the level of each.
///
/// # Errors
///
/// `NoMemory` where there is none for the list.
pub fn placed_edges(
    alloc: Global,
    dataset: &Dataset,
    base: &Base,
    ends: &[BaseEdge],
) -> Result<Vec<PlacedEdge>, NoMemory>
    requires dataset { IsDataset dataset.now }
    requires base { IsBase dataset.now base.now }
    requires places { ArePlaces base.now ends.now }
    ensures { IfOk result (λ v. v.items ≡ map (placed dataset.now base.now) base.now.edges) }
{
    let mut list = Vec::new(alloc);
    for end in ends {
        let Ok(()) = list.push(placed(dataset, base, end)) else {
            return Err(NoMemory);
        };
    }
    Ok(list)
}

/// The same edges by ascending levels.
pub fn by_level(edges: Vec<PlacedEdge>) -> Vec<PlacedEdge>
    ensures same { IsPermutation edges.items result.items }
    ensures rising { IsNonDecreasingBy (λ e. e.level) result.items }
{
    let mut list = edges;
    list.sort_unstable_by_key(|edge| edge.level);
    list
}

/// The edges of a level, among edges by ascending levels.
pub fn of_level(edges: &[PlacedEdge], level: u8) -> &[PlacedEdge]
    requires rising { IsNonDecreasingBy (λ e. e.level) edges.now }
    ensures { result.now ≡ filter (λ e. e.level == level) edges.now }
{
    let first = edges.partition_point(|edge| edge.level < level);
    let (_, rest) = edges.split_at(first);
    let count = rest.partition_point(|edge| edge.level <= level);
    let (part, _) = rest.split_at(count);
    part
}
