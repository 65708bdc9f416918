//! The nodes of the ends of changed pairs in all layers.

ghost use Rattle.std.specs.Prelude.{◌≡◌, ℕ, ◌+◌, ◌++◌, [], List, length, map, IfOk, OnOk, IsTrue};
ghost use Rattle.std.specs.List.{AllByRecursion};
ghost use Rattle.op_model.specs.declared.base.Dataset.{Dataset};
ghost use Rattle.op_model.specs.declared.base.Base.{Base};
ghost use Rattle.op_model.specs.declared.entry.Entry.{Entry};
ghost use Rattle.graph_model.specs.Lists.{has};
ghost use Rattle.op_model.specs.Chunks.{top};
ghost use Rattle.op_model.specs.Labels.{root};
ghost use Rattle.op_model.specs.Laws.{IsKnown};
ghost use Rattle.op_model.specs.Operations.{ascending, ends};
ghost use Rattle.record_rows.specs.Readings.{ParentImage};
ghost use Rattle.entry_rows.specs.Retiring.{AreOnPaths};
ghost use Rattle.touched_paths.specs.Climbing.{ArePassed, AreTops};

use crate::climbing::{end_ids, next_spots, put_id, put_spot, spots_of};
use crate::ordering::ascending_ids;
use log_rows::length;
use node_ids::NodeId;
use node_reader::top_of;
use op_model::{Changed, Ids};
use pcg_base::{NoMemory, Words};
use row_words::{Spot, id_of};
use std::alloc::Global;

/// The nodes that the ends of changed pairs have at the whole log.
#[derive(Drop)]
pub struct OldPaths {
    /// The places of the nodes of all layers, each once.
    pub places: Vec<Spot>,
    /// The places of the roots, ascending.
    pub tops: Vec<Spot>,
    /// The ids of the roots, ascending.
    pub roots: Ids,
}

// puts places behind the others of a list
fn put_spots(list: &mut Vec<Spot>, more: &[Spot]) -> Result<(), NoMemory>
    ensures { OnOk result (list.new.items ≡ list.old.items ++ more.now) }
{
    for place in 0..more.len() {
        put_spot(list, more[place])?;
    }
    Ok(())
}

// puts the places of the nodes of these supervoxels in all layers to a list, which is empty, and
// answers those of their roots
fn climb<W: Words>(
    alloc: Global,
    w: &mut W,
    ids: &[NodeId],
    places: &mut Vec<Spot>,
) -> Result<Vec<Spot>, NoMemory>
    requires known { (d : Dataset) × (b : Base) × (log : List Entry) × ParentImage d b log (W.words w.old) × ((u : ℕ) → IsTrue (has ids.now u) → IsTrue (has b.supervoxels u)) }
    requires empty { places.old.items ≡ [] }
    ensures same { w.new ≡ w.old }
    ensures tops { (d : Dataset) (b : Base) (log : List Entry) → ParentImage d b log (W.words w.old) → ((u : ℕ) → IsTrue (has ids.now u) → IsTrue (has b.supervoxels u)) → IfOk result (λ v. AreTops d b log ids.now v.items) }
    ensures passed { (d : Dataset) (b : Base) (log : List Entry) → ParentImage d b log (W.words w.old) → ((u : ℕ) → IsTrue (has ids.now u) → IsTrue (has b.supervoxels u)) → OnOk result (ArePassed d b log (top d + 1) ids.now places.new.items) }
{
    let prefix = length(w);
    let top = top_of(w);
    let mut spots = spots_of(alloc, w, ids)?;
    for layer in 2..top + 1 {
        let _ = layer;
        let next = next_spots(alloc, w, &spots, prefix)?;
        put_spots(places, &next)?;
        spots = next;
    }
    Ok(spots)
}

// the ids of roots, ascending
fn root_ids<W: Words>(alloc: Global, w: &mut W, tops: &[Spot]) -> Result<Ids, NoMemory>
    requires tops { (d : Dataset) × (b : Base) × (log : List Entry) × (us : List ℕ) × ParentImage d b log (W.words w.old) × AreTops d b log us tops.now }
    ensures same { w.new ≡ w.old }
    ensures is { (d : Dataset) (b : Base) (log : List Entry) (us : List ℕ) → ParentImage d b log (W.words w.old) → AreTops d b log us tops.now → IfOk result (λ ids. ids ≡ ascending (map (root d b log) us)) }
{
    let mut list = Vec::new(alloc);
    for place in 0..tops.len() {
        let id = NodeId(id_of(w, tops[place]));
        put_id(&mut list, id)?;
    }
    Ok(Ids {
        list: ascending_ids(list),
    })
}

// the nodes of these supervoxels
fn paths_of<W: Words>(alloc: Global, w: &mut W, ids: &[NodeId]) -> Result<OldPaths, NoMemory>
    requires known { (d : Dataset) × (b : Base) × (log : List Entry) × ParentImage d b log (W.words w.old) × ((u : ℕ) → IsTrue (has ids.now u) → IsTrue (has b.supervoxels u)) }
    ensures same { w.new ≡ w.old }
    ensures passed { (d : Dataset) (b : Base) (log : List Entry) → ParentImage d b log (W.words w.old) → ((u : ℕ) → IsTrue (has ids.now u) → IsTrue (has b.supervoxels u)) → IfOk result (λ p. ArePassed d b log (top d + 1) ids.now p.places.items) }
    ensures tops { (d : Dataset) (b : Base) (log : List Entry) → ParentImage d b log (W.words w.old) → ((u : ℕ) → IsTrue (has ids.now u) → IsTrue (has b.supervoxels u)) → IfOk result (λ p. AreTops d b log ids.now p.tops.items) }
    ensures roots { (d : Dataset) (b : Base) (log : List Entry) → ParentImage d b log (W.words w.old) → ((u : ℕ) → IsTrue (has ids.now u) → IsTrue (has b.supervoxels u)) → IfOk result (λ p. p.roots ≡ ascending (map (root d b log) ids.now)) }
{
    let mut places = Vec::new(alloc);
    let tops = climb(alloc, w, ids, &mut places)?;
    let roots = root_ids(alloc, w, &tops)?;
    Ok(OldPaths {
        places,
        tops,
        roots,
    })
}

/// The nodes of the ends of changed pairs at the whole log. An entry that changes the pairs retires just
/// these nodes. They are found by climbing from the ends, layer by layer, each node once: time is n log n
/// in the ends, times the layers.
///
/// # Errors
///
/// `NoMemory` where there is none for the lists.
pub fn old_paths<W: Words>(
    alloc: Global,
    w: &mut W,
    changed: &[Changed],
) -> Result<OldPaths, NoMemory>
    requires known { (d : Dataset) × (b : Base) × (log : List Entry) × ParentImage d b log (W.words w.old) × AllByRecursion (λ c. IsKnown b c.pair) changed.now }
    ensures same { w.new ≡ w.old }
    ensures places { (d : Dataset) (b : Base) (log : List Entry) (e : Entry) → ParentImage d b log (W.words w.old) → AllByRecursion (λ c. IsKnown b c.pair) changed.now → e.changed ≡ changed.now → IfOk result (λ p. AreOnPaths d b log e p.places.items) }
    ensures tops { (d : Dataset) (b : Base) (log : List Entry) → ParentImage d b log (W.words w.old) → AllByRecursion (λ c. IsKnown b c.pair) changed.now → IfOk result (λ p. AreTops d b log (ends changed.now) p.tops.items) }
    ensures roots { (d : Dataset) (b : Base) (log : List Entry) → ParentImage d b log (W.words w.old) → AllByRecursion (λ c. IsKnown b c.pair) changed.now → IfOk result (λ p. p.roots ≡ ascending (map (root d b log) (ends changed.now))) }
{
    let ids = end_ids(alloc, changed)?;
    let paths = paths_of(alloc, w, &ids)?;
    Ok(paths)
}
