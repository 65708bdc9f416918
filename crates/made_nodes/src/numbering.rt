//! The new nodes of a layer by their chunks, and their numbers.

ghost use Rattle.std.specs.Prelude.{◌≡◌, ◌<◌, ◌≤◌, ◌+◌, ◌^◌, ◌++◌, ◌∷◌, [], ℕ, List, length, map, IfOk, OnOk};
ghost use Rattle.std.specs.List.{All};
ghost use Rattle.node_ids.specs.Ids.{segments};
ghost use Rattle.op_model.specs.declared.base.Dataset.{Dataset};
ghost use Rattle.op_model.specs.declared.base.Base.{Base};
ghost use Rattle.op_model.specs.declared.entry.Entry.{Entry};
ghost use Rattle.op_model.specs.Labels.{used};
ghost use Rattle.record_rows.specs.Readings.{ParentImage};
ghost use Rattle.layer_laws.specs.Building.{at};
ghost use Rattle.made_nodes.specs.Numbers.{IsHeld, first_spent, number_behind, numbered};

use crate::greatest::{number_of, used};
use crate::owning::Owner;
use entry_parts::MadeNode;
use node_ids::NodeId;
use op_model::Dataset;
use pcg_base::{NoMemory, Words};
use std::alloc::Global;

// the number of a node of a chunk behind a node of another or the same one
fn number_behind<W: Words>(w: &mut W, last: NodeId, number: u64, chunk: NodeId) -> u64
    requires chunk { (d : Dataset) × (b : Base) × (log : List Entry) × (layer : ℕ) × ParentImage d b log (W.words w.old) × IsHeld d b layer chunk }
    requires number { number < 2 ^ 62 }
    ensures same { w.new ≡ w.old }
    ensures is { (d : Dataset) (b : Base) (log : List Entry) (layer : ℕ) → ParentImage d b log (W.words w.old) → IsHeld d b layer chunk → result ≡ number_behind (used d b log layer) last number chunk }
    ensures low { (k : ℕ) → number ≤ 2 ^ 56 + k → result ≤ 2 ^ 56 + (k + 1) }
{
    if chunk == last {
        number + 1
    } else {
        used(w, chunk) + 1
    }
}

// a node behind a list
fn put(list: &mut Vec<MadeNode>, node: MadeNode) -> Result<(), NoMemory>
    ensures { OnOk result (list.new.items ≡ list.old.items ++ node ∷ []) }
{
    match list.push(node) {
        Ok(()) => Ok(()),
        Err(_) => Err(NoMemory),
    }
}

// the id of a node with this number
fn id_of(chunk: NodeId, number: u64) -> NodeId
    requires chunk { chunk < 2 ^ 62 }
    requires number { number < 2 ^ 62 }
    ensures { result ≡ chunk + number }
{
    NodeId(chunk.0 + number)
}

/// The nodes with the next numbers of their chunks behind the log. They stand by their chunks, and
/// `ids` has the supervoxels.
///
/// # Errors
///
/// `NoMemory` where there is none for the list.
pub fn numbered<W: Words>(
    alloc: Global,
    w: &mut W,
    ids: &[NodeId],
    owners: &[Owner],
) -> Result<Vec<MadeNode>, NoMemory>
    requires chunks { (d : Dataset) × (b : Base) × (log : List Entry) × (layer : ℕ) × ParentImage d b log (W.words w.old) × All (λ o. IsHeld d b layer o.chunk) owners.now }
    requires leasts { All (λ o. o.least < length ids.now) owners.now }
    ensures same { w.new ≡ w.old }
    ensures is { IfOk result (λ v. (d : Dataset) (b : Base) (log : List Entry) (layer : ℕ) → ParentImage d b log (W.words w.old) → All (λ o. IsHeld d b layer o.chunk) owners.now → v.items ≡ numbered (used d b log layer) ids.now 0 0 owners.now) }
{
    let mut list = Vec::new(alloc);
    let mut last = NodeId(0);
    let mut number = 0;
    for owner in owners {
        number = number_behind(w, last, number, owner.chunk);
        last = owner.chunk;
        let node = MadeNode {
            id: id_of(last, number),
            chunk: last,
            least: ids[owner.least as usize],
        };
        put(&mut list, node)?;
    }
    Ok(list)
}

/// The first number of a layer that is no segment.
pub fn segments(dataset: &Dataset, layer: u8) -> u64
    ensures is { result ≡ segments dataset.now.layout layer }
    ensures range { (1 ≤ result) × (result ≤ 2 ^ 56) }
{
    1 << (56 - 3 * dataset.layout.width(layer))
}

/// The chunk of the first node whose number isn't below the limit.
pub fn first_spent(limit: u64, nodes: &[MadeNode]) -> Option<NodeId>
    requires ids { All (λ m. m.chunk ≤ m.id) nodes.now }
    ensures { result ≡ first_spent limit nodes.now }
{
    for node in nodes {
        let number = number_of(node.id, node.chunk);
        if number >= limit {
            return Some(node.chunk);
        }
    }
    None
}
