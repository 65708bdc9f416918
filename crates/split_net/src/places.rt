//! Supervoxels as vertices: the vertex of a supervoxel is its place among the leaves.

ghost use Rattle.std.specs.Prelude.{◌≡◌, ◌<◌, ◌^◌, length, map, get_or, IsTrue, IfOk};
ghost use Rattle.std.specs.List.{All, AllByRecursion};
ghost use Rattle.graph_model.specs.Lists.{has};
ghost use Rattle.op_model.specs.Valid.{IsAscending};
ghost use Rattle.split_net.specs.Parts.{id_at};

use node_ids::NodeId;
use std::alloc::{AllocError, Global};

/// The place of an id among ascending leaves that have it, found by halving.
pub(crate) fn place_of(leaves: &[NodeId], id: NodeId) -> u32
    requires rising { IsAscending leaves.now }
    requires few { length leaves.now < 2 ^ 32 }
    requires among { IsTrue (has leaves.now id) }
    ensures at { id_at leaves.now result ≡ id }
    ensures below { result < length leaves.now }
{
    leaves.binary_search(&id).unwrap() as u32
}

/// The places of ids among ascending leaves that have them.
pub(crate) fn places_of(
    alloc: Global,
    leaves: &[NodeId],
    ids: &[NodeId],
) -> Result<Vec<u32>, AllocError>
    requires rising { IsAscending leaves.now }
    requires few { length leaves.now < 2 ^ 32 }
    requires among { AllByRecursion (λ v. IsTrue (has leaves.now v)) ids.now }
    ensures at { IfOk result (λ places. map (id_at leaves.now) places.items ≡ ids.now) }
    ensures below { IfOk result (λ places. All (λ i. i < length leaves.now) places.items) }
{
    let mut places = Vec::new(alloc);
    for at in 0..ids.len() {
        places.push(place_of(leaves, ids[at]))?;
    }
    Ok(places)
}
