//! The nodes of supervoxels.

ghost use Rattle.std.specs.Prelude.{◌≡◌, ◌≤◌, ◌<◌, ◌+◌, ◌^◌, ℕ, List, true, IsTrue, IfOk};
ghost use Rattle.graph_model.specs.Lists.{has};
ghost use Rattle.op_model.specs.Chunks.{top};
ghost use Rattle.op_model.specs.Labels.{node, path, root};
ghost use Rattle.op_model.specs.Valid.{IsBase, IsDataset};
ghost use Rattle.op_model.specs.Ingest.{ingested};
ghost use Rattle.plain_hierarchy.specs.Ingest.{up_to};

use crate::chunks::members;
use crate::leaves::{firsts, least};
use node_ids::NodeId;
use op_model::chunks::{chunk, top};
use op_model::{Base, Dataset, PathIds};
use pcg_base::NoMemory;
use std::alloc::Global;

// how many of a list of ids are no greater
pub fn up_to(ids: &[NodeId], last: NodeId) -> usize
    ensures { result ≡ up_to last ids.now }
{
    ids.iter().filter(|id| **id <= last).count()
}

// the id of a chunk with a label
pub fn numbered(place: NodeId, label: usize) -> NodeId
    requires place { place < 2 ^ 62 }
    requires label { label < 2 ^ 62 }
    ensures { result ≡ place + label }
{
    NodeId(place.0 + label as u64)
}

/// The node of a supervoxel in a layer, from 2 to the top layer, after the first entry alone.
///
/// `NoMemory` comes for want of memory alone.
pub fn node(
    alloc: Global,
    dataset: &Dataset,
    base: &Base,
    layer: u8,
    sv: NodeId,
) -> Result<NodeId, NoMemory>
    requires dataset { IsDataset dataset.now }
    requires base { IsBase dataset.now base.now }
    requires layer { (2 ≤ layer) × (layer ≤ top dataset.now) }
    requires sv { IsTrue (has base.now.supervoxels sv) }
    ensures { IfOk result (λ id. (at : ℕ) → id ≡ node dataset.now base.now (ingested dataset.now base.now at) layer sv) }
{
    let place = chunk(dataset, layer, sv);
    let inside = members(alloc, dataset, base, layer, place)?;
    let nodes = firsts(alloc, dataset, base, layer, inside.as_slice())?;
    let first = least(alloc, dataset, base, layer, sv)?;
    Ok(numbered(place, up_to(nodes.as_slice(), first)))
}

/// The root of a supervoxel, which is its node in the top layer, after the first entry alone.
///
/// `NoMemory` comes for want of memory alone.
#[tactic(auto, unfolding(op_model::specs::Labels::root))]
pub fn root(alloc: Global, dataset: &Dataset, base: &Base, sv: NodeId) -> Result<NodeId, NoMemory>
    requires dataset { IsDataset dataset.now }
    requires base { IsBase dataset.now base.now }
    requires sv { IsTrue (has base.now.supervoxels sv) }
    ensures { IfOk result (λ id. (at : ℕ) → id ≡ root dataset.now base.now (ingested dataset.now base.now at) sv) }
{
    node(alloc, dataset, base, top(dataset), sv)
}

/// The nodes of a supervoxel from layer 2 to its root, after the first entry alone.
///
/// `NoMemory` comes for want of memory alone.
pub fn path(alloc: Global, dataset: &Dataset, base: &Base, sv: NodeId) -> Result<PathIds, NoMemory>
    requires dataset { IsDataset dataset.now }
    requires base { IsBase dataset.now base.now }
    requires sv { IsTrue (has base.now.supervoxels sv) }
    ensures { IfOk result (λ ids. (at : ℕ) → ids ≡ path dataset.now base.now (ingested dataset.now base.now at) sv) }
{
    let count = top(dataset) - 1;
    let mut nodes = [NodeId(0); 17];
    for place in 0..count {
        nodes[place as usize] = node(alloc, dataset, base, place + 2, sv)?;
    }
    Ok(PathIds { count, nodes })
}
