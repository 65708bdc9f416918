//! The supervoxels of joints, and the joints by their places.

ghost use Rattle.std.specs.Prelude.{◌≡◌, ◌<◌, ◌^◌, ◌++◌, ◌∷◌, [], ℕ, IsTrue, length, map, nat_le, IfOk, OnOk};
ghost use Rattle.graph_model.specs.Lists.{has};
ghost use Rattle.op_model.specs.Valid.{IsAscending};
ghost use Rattle.united_layers.specs.Jointed.{joint_ids, pairs_to, placed};

use crate::joints::{Joint, PlacedJoint};
use node_ids::NodeId;
use octree_layers::place_of;
use pcg_base::NoMemory;
use std::alloc::Global;
use touched_paths::ascending_ids;

// puts an id behind others
fn put_id(list: &mut Vec<NodeId>, id: NodeId) -> Result<(), NoMemory>
    ensures { OnOk result (list.new.items ≡ list.old.items ++ id ∷ []) }
{
    match list.push(id) {
        Ok(()) => Ok(()),
        Err(_) => Err(NoMemory),
    }
}

/// The supervoxels of joints, ascending, each once. Time is n log n.
///
/// # Errors
///
/// `NoMemory` where there is none for the list.
pub fn ids_of(alloc: Global, joints: &[Joint]) -> Result<Vec<NodeId>, NoMemory>
    ensures ascending { IfOk result (λ v. IsAscending v.items) }
    ensures same { IfOk result (λ v. (u : ℕ) → has v.items u ≡ has (joint_ids joints.now) u) }
{
    let mut list = Vec::new(alloc);
    for joint in joints {
        put_id(&mut list, joint.a)?;
        put_id(&mut list, joint.b)?;
    }
    Ok(ascending_ids(list))
}

// a joint by the places of its supervoxels
fn placed_at(ids: &[NodeId], joint: &Joint) -> PlacedJoint
    requires ascending { IsAscending ids.now }
    requires size { length ids.now < 2 ^ 32 }
    requires known { IsTrue (has ids.now joint.now.a) × IsTrue (has ids.now joint.now.b) }
    ensures { result ≡ placed ids.now joint.now }
{
    PlacedJoint {
        layer: joint.layer,
        a: place_of(ids, joint.a),
        b: place_of(ids, joint.b),
    }
}

/// Joints by the places of their supervoxels in an ascending list that has them. They are found by
/// halving.
///
/// # Errors
///
/// `NoMemory` where there is none for the list.
pub fn placed(alloc: Global, ids: &[NodeId], joints: &[Joint]) -> Result<Vec<PlacedJoint>, NoMemory>
    requires ascending { IsAscending ids.now }
    requires size { length ids.now < 2 ^ 32 }
    requires known { (u : ℕ) → IsTrue (has (joint_ids joints.now) u) → IsTrue (has ids.now u) }
    ensures { IfOk result (λ v. v.items ≡ map (placed ids.now) joints.now) }
{
    let mut list = Vec::new(alloc);
    for joint in joints {
        let Ok(()) = list.push(placed_at(ids, joint)) else {
            return Err(NoMemory);
        };
    }
    Ok(list)
}

/// The joints of the layers up to this one, as pairs of places.
///
/// # Errors
///
/// `NoMemory` where there is none for the list.
#[tactic(auto, unfolding(crate::specs::Jointed::pairs_to))]
pub fn pairs_to(
    alloc: Global,
    joints: &[PlacedJoint],
    layer: u8,
) -> Result<Vec<(u32, u32)>, NoMemory>
    ensures { IfOk result (λ v. v.items ≡ pairs_to layer joints.now) }
{
    let mut list = Vec::new(alloc);
    for joint in joints {
        if joint.layer <= layer {
            let Ok(()) = list.push((joint.a, joint.b)) else {
                return Err(NoMemory);
            };
        }
    }
    Ok(list)
}
