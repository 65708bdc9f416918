//! What the plain program tells of a base's supervoxels.

ghost use Rattle.op_model.specs.Valid.{IsBase, IsDataset};

use node_ids::NodeId;
use op_model::{Base, Dataset, PathIds};
use pcg_base::NoMemory;
use plain_hierarchy::{path, root};
use std::alloc::Global;

/// A supervoxel with its root and its path.
#[derive(Drop)]
pub struct Wanted {
    /// The supervoxel.
    pub sv: NodeId,
    /// Its node of the top layer.
    pub root: NodeId,
    /// Its nodes from layer 2 on.
    pub path: PathIds,
}

/// What is told of each supervoxel, in the base's order.
pub fn wanted_of(alloc: Global, dataset: &Dataset, base: &Base) -> Result<Vec<Wanted>, NoMemory>
    requires dataset { IsDataset dataset.now }
    requires base { IsBase dataset.now base.now }
{
    let mut list = Vec::new(alloc);
    for sv in base.supervoxels.list.as_slice() {
        let told = Wanted {
            sv: *sv,
            root: root(alloc, dataset, base, *sv)?,
            path: path(alloc, dataset, base, *sv)?,
        };
        match list.push(told) {
            Ok(()) => {}
            Err(_) => return Err(NoMemory),
        }
    }
    Ok(list)
}

/// The supervoxels with this root, in their order.
pub fn leaves_of(alloc: Global, wanted: &[Wanted], root: NodeId) -> Result<Vec<NodeId>, NoMemory> {
    let mut list = Vec::new(alloc);
    for x in wanted {
        if x.root == root {
            match list.push(x.sv) {
                Ok(()) => {}
                Err(_) => return Err(NoMemory),
            }
        }
    }
    Ok(list)
}

/// Whether a supervoxel has this id.
pub fn is_known(wanted: &[Wanted], id: NodeId) -> bool {
    wanted.iter().any(|x| x.sv == id)
}

/// The greatest root.
pub fn last_root(wanted: &[Wanted]) -> NodeId {
    let mut last = NodeId(0);
    for x in wanted {
        if last < x.root {
            last = x.root;
        }
    }
    last
}
