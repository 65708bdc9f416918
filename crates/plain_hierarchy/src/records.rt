//! How many records a base takes.

ghost use Rattle.std.specs.Prelude.{◌≡◌, ◌≤◌, ◌<◌, ◌*◌, ◌^◌, ℕ, List, map, length, ◌++◌, IfOk, OnOk};
ghost use Rattle.std.specs.List.{flat_map};
ghost use Rattle.op_model.specs.Chunks.{chunk, layers, top};
ghost use Rattle.op_model.specs.Records.{node_count, nodes_in, records};
ghost use Rattle.op_model.specs.Valid.{IsBase, IsDataset};
ghost use Rattle.op_model.specs.Ingest.{ingested};

use crate::leaves::firsts;
use crate::lists::{ascending_ids, edges_of, ids_of, push};
use node_ids::NodeId;
use op_model::chunks::{chunk, top};
use op_model::{Base, Dataset};
use pcg_base::NoMemory;
use std::alloc::Global;

// puts the chunks of a layer behind a list
fn add_chunks(
    list: &mut Vec<NodeId>,
    dataset: &Dataset,
    base: &Base,
    layer: u8,
) -> Result<(), NoMemory>
    requires dataset { IsDataset dataset.now }
    requires base { IsBase dataset.now base.now }
    requires layer { (2 ≤ layer) × (layer ≤ top dataset.now) }
    ensures { OnOk result (list.new.items ≡ list.old.items ++ map (chunk dataset.now layer) base.now.supervoxels) }
{
    for sv in ids_of(&base.supervoxels) {
        push(list, chunk(dataset, layer, *sv))?;
    }
    Ok(())
}

// the chunk of each supervoxel in each layer
fn chunks(alloc: Global, dataset: &Dataset, base: &Base) -> Result<Vec<NodeId>, NoMemory>
    requires dataset { IsDataset dataset.now }
    requires base { IsBase dataset.now base.now }
    ensures { IfOk result (λ v. v.items ≡ flat_map (λ layer. map (chunk dataset.now layer) base.now.supervoxels) (layers dataset.now)) }
{
    let mut list = Vec::new(alloc);
    for place in 0..top(dataset) - 1 {
        add_chunks(&mut list, dataset, base, place + 2)?;
    }
    Ok(list)
}

// how many nodes a layer has
fn nodes_in(alloc: Global, dataset: &Dataset, base: &Base, layer: u8) -> Result<u64, NoMemory>
    requires dataset { IsDataset dataset.now }
    requires base { IsBase dataset.now base.now }
    requires layer { (2 ≤ layer) × (layer ≤ top dataset.now) }
    ensures is { IfOk result (λ n. n ≡ nodes_in dataset.now base.now (ingested dataset.now base.now 0) layer) }
    ensures few { IfOk result (λ n. n ≤ length base.now.supervoxels) }
{
    let nodes = firsts(alloc, dataset, base, layer, ids_of(&base.supervoxels))?;
    Ok(nodes.len() as u64)
}

// how many nodes all layers have together
fn node_count(alloc: Global, dataset: &Dataset, base: &Base) -> Result<u64, NoMemory>
    requires dataset { IsDataset dataset.now }
    requires base { IsBase dataset.now base.now }
    requires size { length base.now.supervoxels < 2 ^ 32 }
    ensures is { IfOk result (λ n. n ≡ node_count dataset.now base.now (ingested dataset.now base.now 0)) }
    ensures few { IfOk result (λ n. n ≤ 17 * 2 ^ 32) }
{
    let mut count = 0;
    for place in 0..top(dataset) - 1 {
        count += nodes_in(alloc, dataset, base, place + 2)?;
    }
    Ok(count)
}

/// How many records the base and its first entry take: the header, the supervoxels, the chunks that hold one, the
/// edges, the nodes, a link for each supervoxel and each node that is no root, and the entry.
///
/// The base has fewer than 2^32 supervoxels. `NoMemory` comes for want of memory alone.
pub fn record_count(alloc: Global, dataset: &Dataset, base: &Base) -> Result<u64, NoMemory>
    requires dataset { IsDataset dataset.now }
    requires base { IsBase dataset.now base.now }
    requires size { length base.now.supervoxels < 2 ^ 32 }
    ensures { IfOk result (λ n. (at : ℕ) → n ≡ records dataset.now base.now (ingested dataset.now base.now at)) }
{
    let svs = ids_of(&base.supervoxels).len() as u64;
    let edges = edges_of(&base.edges).len() as u64;
    let all = chunks(alloc, dataset, base)?;
    let held = ascending_ids(all).len() as u64;
    let nodes = node_count(alloc, dataset, base)?;
    let roots = nodes_in(alloc, dataset, base, top(dataset))?;
    Ok(1 + svs + held + edges + nodes + (svs + nodes - roots) + 1)
}
