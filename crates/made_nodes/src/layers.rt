//! The new nodes of a layer.

ghost use Rattle.std.specs.Prelude.{◌≡◌, ◌≤◌, ◌<◌, ◌++◌, ◌∷◌, [], ℕ, List, length, map, IfOk, OnOk};
ghost use Rattle.std.specs.List.{All};
ghost use Rattle.op_model.specs.declared.base.Base.{Base};
ghost use Rattle.op_model.specs.declared.entry.Entry.{Entry};
ghost use Rattle.op_model.specs.Chunks.{top};
ghost use Rattle.op_model.specs.Ingest.{spent_in};
ghost use Rattle.layer_laws.specs.Building.{at};
ghost use Rattle.entry_parts.specs.Made.{AreMadeIn};
ghost use Rattle.made_nodes.specs.Layers.{IsTouched};

use crate::finding::different_leasts;
use crate::numbering::{first_spent, numbered, segments};
use crate::owning::{Owner, by_chunk, owners};
use entry_parts::MadeNode;
use node_ids::NodeId;
use op_model::Dataset;
use pcg_base::{NoMemory, Words};
use std::alloc::Global;

/// The nodes that an entry makes in a layer.
#[derive(Drop)]
pub struct MadeLayer {
    /// The nodes in the order of their records.
    pub nodes: Vec<MadeNode>,
    /// The places of their least leaves, in the same order.
    pub leasts: Vec<u32>,
    /// The first chunk of the layer that has given a number which its ids don't hold.
    pub spent: Option<NodeId>,
}

// the places of the nodes' least leaves
fn leasts_of(alloc: Global, owners: &[Owner]) -> Result<Vec<u32>, NoMemory>
    ensures { IfOk result (λ v. v.items ≡ map (λ o. o.least) owners.now) }
{
    let mut list = Vec::new(alloc);
    for owner in owners {
        let Ok(()) = list.push(owner.least) else {
            return Err(NoMemory);
        };
    }
    Ok(list)
}

/// The nodes of a layer that an entry makes: those that hold an end of one of its changed pairs.
///
/// The words tell of the log before the entry. `ids` has supervoxels, ascending, with the least leaf of
/// each one's node of the layer behind the entry; `ends` has the places of the ends of the changed
/// pairs in `ids`, ascending, and `firsts` for each place that of the least leaf of its node.
/// Time is n log n in the ends. Each chunk with a new node is looked up once.
///
/// # Errors
///
/// `NoMemory` where there is none for the lists.
pub fn layer_made<W: Words>(
    alloc: Global,
    w: &mut W,
    dataset: &Dataset,
    ids: &[NodeId],
    ends: &[u32],
    layer: u8,
    firsts: &[u32],
) -> Result<MadeLayer, NoMemory>
    requires layer { (2 ≤ layer) × (layer ≤ top dataset.now) }
    requires touched { (b : Base) × (log : List Entry) × (e : Entry) × IsTouched dataset.now b log e (W.words w.old) ids.now ends.now layer firsts.now }
    ensures same { w.new ≡ w.old }
    ensures nodes { IfOk result (λ m. (b : Base) (log : List Entry) (e : Entry) → IsTouched dataset.now b log e (W.words w.old) ids.now ends.now layer firsts.now → AreMadeIn dataset.now b log e layer m.nodes.items) }
    ensures leasts { IfOk result (λ m. map (at ids.now) m.leasts.items ≡ map (λ n. n.least) m.nodes.items) }
    ensures places { IfOk result (λ m. All (λ p. p < length ids.now) m.leasts.items) }
    ensures spent { IfOk result (λ m. (b : Base) (log : List Entry) (e : Entry) → IsTouched dataset.now b log e (W.words w.old) ids.now ends.now layer firsts.now → m.spent ≡ spent_in dataset.now b (e ∷ log) layer) }
{
    let list = different_leasts(alloc, ends, firsts)?;
    let list = owners(alloc, dataset, ids, layer, &list)?;
    let list = by_chunk(list)?;
    let nodes = numbered(alloc, w, ids, &list)?;
    let leasts = leasts_of(alloc, &list)?;
    let spent = first_spent(segments(dataset, layer), &nodes);
    Ok(MadeLayer {
        nodes,
        leasts,
        spent,
    })
}
