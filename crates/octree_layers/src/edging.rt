//! The edges of a base in the order of their records, with the places of their ends.

ghost use Rattle.std.specs.Prelude.{◌≡◌, ◌<◌, ◌^◌, [], length, map, IfOk, IsPermutation};
ghost use Rattle.std.specs.List.{All};
ghost use Rattle.base_rows.specs.Lists.{IsPlaced};
ghost use Rattle.op_model.specs.Edges.{put_edges};
ghost use Rattle.op_model.specs.Labels.{edges};
ghost use Rattle.op_model.specs.Valid.{IsAscending, IsBase, IsEdge, PairsDiffer};
ghost use Rattle.octree_layers.specs.Places.{ArePlaces};

use crate::lists::{edges_of, ids_of};
use crate::places::place_of;
use base_rows::BaseEdge;
use node_ids::NodeId;
use op_model::{Base, Dataset, Edge};
use pcg_base::NoMemory;
use std::alloc::Global;

// an edge with the places of its ends in an ascending list
fn base_edge(ids: &[NodeId], edge: &Edge) -> BaseEdge
    requires ascending { IsAscending ids.now }
    requires size { length ids.now < 2 ^ 32 }
    requires edge { IsEdge ids.now edge.now }
    ensures is { result.edge ≡ edge.now }
    ensures placed { IsPlaced ids.now result }
{
    BaseEdge {
        edge: *edge,
        lesser: place_of(ids, edge.pair.a),
        greater: place_of(ids, edge.pair.b),
    }
}

/// The edges of a base, in its order, with the places of their ends in the base's list of supervoxels, of
/// which there are fewer than 2^32. Each end is found by halving.
///
/// # Errors
///
/// `NoMemory` where there is none for the list.
pub fn edge_places(alloc: Global, dataset: &Dataset, base: &Base) -> Result<Vec<BaseEdge>, NoMemory>
    requires base { IsBase dataset.now base.now }
    requires size { length base.now.supervoxels < 2 ^ 32 }
    ensures { IfOk result (λ v. ArePlaces base.now v.items) }
{
    let _ = dataset;
    let ids = ids_of(base);
    let mut list = Vec::new(alloc);
    for edge in edges_of(base) {
        let Ok(()) = list.push(base_edge(ids, edge)) else {
            return Err(NoMemory);
        };
    }
    Ok(list)
}

// the same edges ascending by pairs, where they differ in them
fn by_pair(edges: Vec<BaseEdge>) -> Vec<BaseEdge>
    requires once { PairsDiffer (map (λ x. x.edge) edges.items) }
    ensures moved { IsPermutation edges.items result.items }
    ensures sorted { map (λ x. x.edge) result.items ≡ put_edges (map (λ x. x.edge) edges.items) [] }
{
    let mut list = edges;
    list.sort_unstable_by_key(|x| (x.edge.pair.a.0, x.edge.pair.b.0));
    list
}

/// The edges of a base ascending by pairs, the lesser end first: the order of their records. Each keeps the
/// places of its ends. No memory is taken; time is n log n in the edges.
pub fn base_edges(dataset: &Dataset, base: &Base, ends: Vec<BaseEdge>) -> Vec<BaseEdge>
    requires base { IsBase dataset.now base.now }
    requires places { ArePlaces base.now ends.items }
    ensures edges { map (λ x. x.edge) result.items ≡ edges dataset.now base.now [] }
    ensures placed { All (IsPlaced base.now.supervoxels) result.items }
{
    let _ = dataset;
    let _ = base;
    by_pair(ends)
}
