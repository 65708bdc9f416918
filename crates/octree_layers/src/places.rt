//! The places of supervoxels in an ascending list.

ghost use Rattle.std.specs.Prelude.{◌≡◌, ◌<◌, ◌^◌, IsTrue, length, slice_index_or};
ghost use Rattle.graph_model.specs.Lists.{has};
ghost use Rattle.op_model.specs.Valid.{IsAscending};
ghost use Rattle.octree_layers.specs.Places.{place_of};

use node_ids::NodeId;

/// The place of an id in an ascending list that has it, found by halving.
pub fn place_of(ids: &[NodeId], id: NodeId) -> u32
    requires ascending { IsAscending ids.now }
    requires size { length ids.now < 2 ^ 32 }
    requires known { IsTrue (has ids.now id) }
    ensures is { result ≡ place_of ids.now id }
    ensures within { result < length ids.now }
    ensures there { slice_index_or ids.now result 0 ≡ id }
{
    let mut low = 0;
    let mut high = ids.len() as u32;
    while low < high {
        let middle = low + (high - low) / 2;
        if ids[middle as usize] < id {
            low = middle + 1;
        } else {
            high = middle;
        }
    }
    low
}
