//! The supervoxels of chunks.

ghost use Rattle.std.specs.Prelude.{◌≡◌, ◌≤◌, IfOk};
ghost use Rattle.op_model.specs.Chunks.{members, top};
ghost use Rattle.op_model.specs.Valid.{IsBase, IsDataset};

use crate::lists::{ids_of, push};
use node_ids::NodeId;
use op_model::chunks::chunk;
use op_model::{Base, Dataset};
use pcg_base::NoMemory;
use std::alloc::Global;

// the supervoxels of a chunk, ascending
pub fn members(
    alloc: Global,
    dataset: &Dataset,
    base: &Base,
    layer: u8,
    place: NodeId,
) -> Result<Vec<NodeId>, NoMemory>
    requires dataset { IsDataset dataset.now }
    requires base { IsBase dataset.now base.now }
    requires layer { (2 ≤ layer) × (layer ≤ top dataset.now) }
    ensures { IfOk result (λ v. v.items ≡ members dataset.now base.now layer place) }
{
    let mut list = Vec::new(alloc);
    for sv in ids_of(&base.supervoxels) {
        if chunk(dataset, layer, *sv) == place {
            push(&mut list, *sv)?;
        }
    }
    Ok(list)
}
