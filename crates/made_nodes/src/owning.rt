//! The nodes of a layer before they have numbers.

ghost use Rattle.std.specs.Prelude.{◌≡◌, ◌≤◌, ◌<◌, ◌++◌, ◌∷◌, [], length, map, IfOk, OnOk};
ghost use Rattle.std.specs.List.{All};
ghost use Rattle.op_model.specs.Chunks.{top};
ghost use Rattle.op_model.specs.Valid.{IsDataset, IsSupervoxel};
ghost use Rattle.made_nodes.specs.Numbers.{AreByChunk, owner};

use node_ids::NodeId;
use op_model::Dataset;
use op_model::chunks::chunk;
use pcg_base::NoMemory;
use std::alloc::Global;

/// A node that has no number yet.
#[derive(Clone, Copy, Drop)]
pub struct Owner {
    /// The id of its chunk, with segment 0.
    pub chunk: NodeId,
    /// The place of its least leaf.
    pub least: u32,
}

// a node behind a list
fn put(list: &mut Vec<Owner>, owner: Owner) -> Result<(), NoMemory>
    ensures { OnOk result (list.new.items ≡ list.old.items ++ owner ∷ []) }
{
    match list.push(owner) {
        Ok(()) => Ok(()),
        Err(_) => Err(NoMemory),
    }
}

/// The nodes whose least leaves stand at these places of a list of supervoxels.
///
/// # Errors
///
/// `NoMemory` where there is none for the list.
pub fn owners(
    alloc: Global,
    dataset: &Dataset,
    ids: &[NodeId],
    layer: u8,
    leasts: &[u32],
) -> Result<Vec<Owner>, NoMemory>
    requires dataset { IsDataset dataset.now }
    requires layer { (2 ≤ layer) × (layer ≤ top dataset.now) }
    requires ids { All (IsSupervoxel dataset.now) ids.now }
    requires leasts { All (λ p. p < length ids.now) leasts.now }
    ensures { IfOk result (λ v. v.items ≡ map (owner dataset.now ids.now layer) leasts.now) }
{
    let mut list = Vec::new(alloc);
    for least in leasts {
        let owner = Owner {
            chunk: chunk(dataset, layer, ids[*least as usize]),
            least: *least,
        };
        put(&mut list, owner)?;
    }
    Ok(list)
}

/// The same nodes by the ids of their chunks, those of one chunk as they stood.
///
/// # Errors
///
/// `NoMemory` where there is none to sort them.
pub fn by_chunk(owners: Vec<Owner>) -> Result<Vec<Owner>, NoMemory>
    ensures { IfOk result (λ v. AreByChunk owners.items v.items) }
{
    let mut list = owners;
    let Ok(()) = list.sort_by_key(|owner| owner.chunk.0) else {
        return Err(NoMemory);
    };
    Ok(list)
}
