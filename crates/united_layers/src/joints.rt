//! Pairs of supervoxels that are of one node from some layer on.

ghost use Rattle.std.specs.Prelude.{◌≡◌, ◌++◌, ◌∷◌, [], OnOk};

use node_ids::NodeId;
use pcg_base::NoMemory;

/// Two supervoxels that are of one node of a layer, and so of each layer above it.
#[derive(Clone, Copy, Drop)]
pub struct Joint {
    /// The layer.
    pub layer: u8,
    /// One of them: the least leaf of a node, or an end of a changed pair.
    pub a: NodeId,
    /// The other: the least leaf of one of the node's children, or the pair's other end.
    pub b: NodeId,
}

/// The same by their places in a list.
#[derive(Clone, Copy, Drop)]
pub struct PlacedJoint {
    /// The layer.
    pub layer: u8,
    /// The place of the one.
    pub a: u32,
    /// The place of the other.
    pub b: u32,
}

/// Puts a joint behind others.
///
/// # Errors
///
/// `NoMemory` where the list can't grow.
pub fn put(list: &mut Vec<Joint>, joint: Joint) -> Result<(), NoMemory>
    ensures { OnOk result (list.new.items ≡ list.old.items ++ joint ∷ []) }
{
    match list.push(joint) {
        Ok(()) => Ok(()),
        Err(_) => Err(NoMemory),
    }
}
