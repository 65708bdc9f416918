//! The chunks of supervoxels.

ghost use Rattle.std.specs.Prelude.{◌≡◌, ◌≤◌, ◌<◌, ◌^◌};
ghost use Rattle.op_model.specs.Chunks.{chunk, top};
ghost use Rattle.op_model.specs.Valid.{IsDataset, IsSupervoxel};

use crate::Dataset;
use chunk_geometry::Cell;
use node_ids::{NodeId, Parts};

/// The top layer, in which the whole grid is one chunk: from 2 to 18. Its nodes are the roots.
#[tactic(auto, unfolding(crate::specs::Chunks::top))]
pub fn top(dataset: &Dataset) -> u8
    ensures is { result ≡ top dataset.now }
    ensures range { (2 ≤ result) × (result ≤ 18) }
{
    dataset.grid.top_layer()
}

/// The chunk that holds a supervoxel in a layer from 2 to the top layer: the id with the layer, the
/// chunk's place in the layer and segment 0. The octree of chunks follows Dorkenwald et al. 2022.
pub fn chunk(dataset: &Dataset, layer: u8, sv: NodeId) -> NodeId
    requires dataset { IsDataset dataset.now }
    requires layer { (2 ≤ layer) × (layer ≤ top dataset.now) }
    requires sv { IsSupervoxel dataset.now sv }
    ensures is { result ≡ chunk dataset.now layer sv }
    ensures small { result < 2 ^ 62 }
{
    let parts = dataset.layout.unpack(sv);
    let base = Cell {
        x: parts.x,
        y: parts.y,
        z: parts.z,
    };
    let cell = dataset.grid.chunk_at(layer, base);
    let place = Parts {
        layer,
        x: cell.x,
        y: cell.y,
        z: cell.z,
        segment: 0,
    };
    match dataset.layout.pack(place) {
        Ok(id) => id,
        Err(_) => unreachable!(),
    }
}
