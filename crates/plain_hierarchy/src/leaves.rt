//! The supervoxels of a node, and the least of them.

ghost use Rattle.std.specs.Prelude.{◌≡◌, ◌≤◌, ◌==◌, ℕ, List, true, IsTrue, IfOk};
ghost use Rattle.graph_model.specs.Lists.{has};
ghost use Rattle.op_model.specs.Chunks.{top};
ghost use Rattle.op_model.specs.Labels.{component, least};
ghost use Rattle.op_model.specs.Valid.{IsBase, IsDataset};
ghost use Rattle.op_model.specs.Ingest.{ingested};
ghost use Rattle.plain_hierarchy.specs.Ingest.{firsts};

use crate::chunks::members;
use crate::growth::joined;
use crate::lists::{edges_of, head_or, ids_of, push};
use node_ids::NodeId;
use op_model::chunks::chunk;
use op_model::{Base, Dataset, Ids};
use pcg_base::NoMemory;
use std::alloc::Global;

/// The supervoxels that walks of active pairs join to `sv` inside its chunk of the layer, `sv` among them, ascending.
///
/// The layer is from 2 to the top layer. `NoMemory` comes for want of memory alone.
pub fn component(
    alloc: Global,
    dataset: &Dataset,
    base: &Base,
    layer: u8,
    sv: NodeId,
) -> Result<Ids, NoMemory>
    requires dataset { IsDataset dataset.now }
    requires base { IsBase dataset.now base.now }
    requires layer { (2 ≤ layer) × (layer ≤ top dataset.now) }
    requires sv { IsTrue (has base.now.supervoxels sv) }
    ensures { IfOk result (λ ids. (at : ℕ) → ids ≡ component dataset.now base.now (ingested dataset.now base.now at) layer sv) }
{
    let place = chunk(dataset, layer, sv);
    let inside = members(alloc, dataset, base, layer, place)?;
    let list = joined(alloc, edges_of(&base.edges), inside.as_slice(), sv)?;
    Ok(Ids { list })
}

// the least supervoxel of a node
pub fn least(
    alloc: Global,
    dataset: &Dataset,
    base: &Base,
    layer: u8,
    sv: NodeId,
) -> Result<NodeId, NoMemory>
    requires dataset { IsDataset dataset.now }
    requires base { IsBase dataset.now base.now }
    requires layer { (2 ≤ layer) × (layer ≤ top dataset.now) }
    requires sv { IsTrue (has base.now.supervoxels sv) }
    ensures { IfOk result (λ first. first ≡ least dataset.now base.now (ingested dataset.now base.now 0) layer sv) }
{
    let leaves = component(alloc, dataset, base, layer, sv)?;
    Ok(head_or(ids_of(&leaves), sv))
}

// those of a list of supervoxels that are the least of their nodes
pub fn firsts(
    alloc: Global,
    dataset: &Dataset,
    base: &Base,
    layer: u8,
    among: &[NodeId],
) -> Result<Vec<NodeId>, NoMemory>
    requires dataset { IsDataset dataset.now }
    requires base { IsBase dataset.now base.now }
    requires layer { (2 ≤ layer) × (layer ≤ top dataset.now) }
    requires among { (v : ℕ) → has among.now v ≡ true → has base.now.supervoxels v ≡ true }
    ensures { IfOk result (λ v. v.items ≡ firsts dataset.now base.now layer among.now) }
{
    let mut list = Vec::new(alloc);
    for sv in among {
        if least(alloc, dataset, base, layer, *sv)? == *sv {
            push(&mut list, *sv)?;
        }
    }
    Ok(list)
}
