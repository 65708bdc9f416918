//! From the ends of changed pairs to their nodes in each layer.

ghost use Rattle.std.specs.Prelude.{◌≡◌, ℕ, ◌+◌, ◌++◌, ◌∷◌, [], List, length, IfOk, OnOk, IsTrue};
ghost use Rattle.op_model.specs.declared.base.Dataset.{Dataset};
ghost use Rattle.op_model.specs.declared.base.Base.{Base};
ghost use Rattle.op_model.specs.declared.entry.Entry.{Entry};
ghost use Rattle.graph_model.specs.Lists.{has};
ghost use Rattle.op_model.specs.Chunks.{layers};
ghost use Rattle.op_model.specs.Operations.{ends};
ghost use Rattle.op_model.specs.Valid.{IsAscending};
ghost use Rattle.record_rows.specs.Readings.{HoldsSupervoxel, ParentImage};
ghost use Rattle.touched_paths.specs.Climbing.{Covers, IsClimbed};

use crate::ordering::{ascending_ids, ascending_spots};
use node_ids::NodeId;
use node_reader::{node_above, supervoxel_of};
use op_model::Changed;
use pcg_base::{NoMemory, Words};
use row_words::Spot;
use std::alloc::Global;

// puts an id behind the others of a list
pub(crate) fn put_id(list: &mut Vec<NodeId>, id: NodeId) -> Result<(), NoMemory>
    ensures { OnOk result (list.new.items ≡ list.old.items ++ id ∷ []) }
{
    match list.push(id) {
        Ok(()) => Ok(()),
        Err(_) => Err(NoMemory),
    }
}

// puts a place behind the others of a list
pub(crate) fn put_spot(list: &mut Vec<Spot>, spot: Spot) -> Result<(), NoMemory>
    ensures { OnOk result (list.new.items ≡ list.old.items ++ spot ∷ []) }
{
    match list.push(spot) {
        Ok(()) => Ok(()),
        Err(_) => Err(NoMemory),
    }
}

/// The ends of changed pairs, ascending, each once.
///
/// # Errors
///
/// `NoMemory` where there is none for the list.
pub fn end_ids(alloc: Global, changed: &[Changed]) -> Result<Vec<NodeId>, NoMemory>
    ensures ascending { IfOk result (λ v. IsAscending v.items) }
    ensures same { IfOk result (λ v. (u : ℕ) → has v.items u ≡ has (ends changed.now) u) }
{
    let mut list = Vec::new(alloc);
    for change in changed {
        put_id(&mut list, change.pair.a)?;
        put_id(&mut list, change.pair.b)?;
    }
    Ok(ascending_ids(list))
}

// the records of these supervoxels
pub(crate) fn spots_of<W: Words>(
    alloc: Global,
    w: &mut W,
    ids: &[NodeId],
) -> Result<Vec<Spot>, NoMemory>
    requires known { (d : Dataset) × (b : Base) × (log : List Entry) × ParentImage d b log (W.words w.old) × ((u : ℕ) → IsTrue (has ids.now u) → IsTrue (has b.supervoxels u)) }
    ensures same { w.new ≡ w.old }
    ensures is { (d : Dataset) (b : Base) (log : List Entry) → ParentImage d b log (W.words w.old) → ((u : ℕ) → IsTrue (has ids.now u) → IsTrue (has b.supervoxels u)) → IfOk result (λ v. Covers ids.now (λ p u. HoldsSupervoxel d b log p u) v.items) }
{
    let mut list = Vec::new(alloc);
    for place in 0..ids.len() {
        let spot = supervoxel_of(w, ids[place]);
        put_spot(&mut list, spot)?;
    }
    Ok(list)
}

/// The places of the nodes one layer above those at some places, ascending, each once.
pub(crate) fn next_spots<W: Words>(
    alloc: Global,
    w: &mut W,
    spots: &[Spot],
    prefix: u32,
) -> Result<Vec<Spot>, NoMemory>
    requires climbed { (d : Dataset) × (b : Base) × (log : List Entry) × (layer : ℕ) × (us : List ℕ) × IsTrue (has (layers d) layer) × IsClimbed d b log (W.words w.old) prefix layer us spots.now }
    ensures same { w.new ≡ w.old }
    ensures ascending { IfOk result (λ v. IsAscending v.items) }
    ensures is { (d : Dataset) (b : Base) (log : List Entry) (layer : ℕ) (us : List ℕ) → IsTrue (has (layers d) layer) → IsClimbed d b log (W.words w.old) prefix layer us spots.now → IfOk result (λ v. IsClimbed d b log (W.words w.old) prefix (layer + 1) us v.items) }
{
    let mut list = Vec::new(alloc);
    for place in 0..spots.len() {
        let above = node_above(w, spots[place], prefix);
        put_spot(&mut list, above)?;
    }
    Ok(ascending_spots(list))
}
