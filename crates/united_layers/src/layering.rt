//! The layers that an entry makes which only makes pairs active, one from the other.

ghost use Rattle.std.specs.Prelude.{◌≡◌, ◌<◌, ◌≤◌, ◌-◌, ◌^◌, ◌∷◌, true, ℕ, List, length, IfOk};
ghost use Rattle.op_model.specs.declared.base.Base.{Base};
ghost use Rattle.op_model.specs.declared.base.Dataset.{Dataset};
ghost use Rattle.op_model.specs.declared.entry.Entry.{Entry};
ghost use Rattle.op_model.specs.Chunks.{top};
ghost use Rattle.record_rows.specs.Readings.{ParentImage};
ghost use Rattle.entry_rows.specs.Retiring.{AreOnPaths};
ghost use Rattle.entry_parts.specs.Parts.{AreFirstsOf};
ghost use Rattle.entry_layers.specs.Gathered.{AreEntryLayers, AreGathered};
ghost use Rattle.entry_layers.specs.Layering.{AreLayersTo};
ghost use Rattle.unite_laws.specs.Uniting.{HaveState};
ghost use Rattle.united_layers.specs.Layering.{ArePlaced, IsUnitedList};

use crate::guessing::child_guesses;
use crate::joints::PlacedJoint;
use crate::listing::{ids_of, pairs_to, placed};
use crate::reading::joints;
use components::components;
use entry_layers::{EntryLayers, LayerBelow, add_layer, begin, ids_of_made, lowest};
use log_rows::length;
use node_ids::NodeId;
use octree_layers::layers::places;
use op_model::{Changed, Dataset};
use pcg_base::{NoMemory, Words};
use row_words::Spot;
use std::alloc::Global;
use touched_part::end_places;

// the least leaves of a layer: those of the components that the joints of the layers up to it make
fn layer_firsts(
    alloc: Global,
    ids: &[NodeId],
    joints: &[PlacedJoint],
    layer: u8,
) -> Result<Vec<u32>, NoMemory>
    requires size { length ids.now < 2 ^ 32 }
    requires placed { ArePlaced (length ids.now) joints.now }
    ensures { IfOk result (λ v. (d : Dataset) (b : Base) (log : List Entry) (e : Entry) (words ends : List ℕ) → IsUnitedList d b log e words ids.now ends joints.now → 2 ≤ layer → layer ≤ top d → AreFirstsOf d b (e ∷ log) ids.now layer v.items) }
{
    let pairs = pairs_to(alloc, joints, layer)?;
    let least = components(alloc, ids.len() as u32, &pairs)?;
    Ok(least)
}

// layer 1
fn first_layer(alloc: Global, ids: &[NodeId]) -> Result<LayerBelow, NoMemory>
    requires size { length ids.now < 2 ^ 32 }
    ensures { IfOk result (λ x. (d : Dataset) (b : Base) (log : List Entry) (e : Entry) (words ends : List ℕ) (joints : List PlacedJoint) (all : EntryLayers) → IsUnitedList d b log e words ids.now ends joints → AreGathered d b log e 0 all → AreLayersTo d b log e ids.now 0 all x) }
{
    let firsts = places(alloc, ids.len() as u32)?;
    Ok(lowest(alloc, firsts))
}

// the next layer
fn next_layer<W: Words>(
    alloc: Global,
    w: &mut W,
    dataset: &Dataset,
    prefix: u32,
    ids: &[NodeId],
    ends: &[u32],
    joints: &[PlacedJoint],
    layer: u8,
    below: &LayerBelow,
    all: &mut EntryLayers,
    guesses: &[Spot],
) -> Result<LayerBelow, NoMemory>
    requires size { length ids.now < 2 ^ 32 }
    requires placed { ArePlaced (length ids.now) joints.now }
    requires layer { (2 ≤ layer) × (layer ≤ top dataset.now) }
    requires made { (b : Base) × (log : List Entry) × (e : Entry) × IsUnitedList dataset.now b log e (W.words w.old) ids.now ends.now joints.now × AreLayersTo dataset.now b log e ids.now (layer - 2) all.old below.now × (prefix ≡ length log) }
    ensures same { w.new ≡ w.old }
    ensures made { IfOk result (λ x. (b : Base) (log : List Entry) (e : Entry) → IsUnitedList dataset.now b log e (W.words w.old) ids.now ends.now joints.now → AreLayersTo dataset.now b log e ids.now (layer - 2) all.old below.now → prefix ≡ length log → AreLayersTo dataset.now b log e ids.now (layer - 1) all.new x) }
{
    let firsts = layer_firsts(alloc, ids, joints, layer)?;
    let next = add_layer(
        alloc, w, dataset, prefix, ids, ends, layer, firsts, below, all, guesses,
    )?;
    Ok(next)
}

// all layers. The joints begin with those of the children of the nodes at some places
fn layers_of<W: Words>(
    alloc: Global,
    w: &mut W,
    dataset: &Dataset,
    ids: &[NodeId],
    ends: &[u32],
    joints: &[PlacedJoint],
    places: &[Spot],
) -> Result<EntryLayers, NoMemory>
    requires size { length ids.now < 2 ^ 32 }
    requires placed { ArePlaced (length ids.now) joints.now }
    requires list { (b : Base) × (log : List Entry) × (e : Entry) × IsUnitedList dataset.now b log e (W.words w.old) ids.now ends.now joints.now }
    ensures same { w.new ≡ w.old }
    ensures layers { IfOk result (λ x. (b : Base) (log : List Entry) (e : Entry) → IsUnitedList dataset.now b log e (W.words w.old) ids.now ends.now joints.now → AreEntryLayers dataset.now b log e x) }
{
    let prefix = length(w);
    let list = child_guesses(alloc, w, ids.len(), joints, places)?;
    let guesses = list.as_slice();
    let mut all = begin(alloc);
    let mut below = first_layer(alloc, ids)?;
    for layer in 2..dataset.grid.top_layer() + 1 {
        below = next_layer(
            alloc, w, dataset, prefix, ids, ends, joints, layer, &below, &mut all, guesses,
        )?;
    }
    all.roots = ids_of_made(alloc, &below.made.nodes)?;
    Ok(all)
}

/// The nodes and links that an entry makes in all layers which only makes pairs active, over the words of
/// the log before it. `changed` has the pairs, and `places` the places of the nodes that it retires.
///
/// The children of those nodes are looked at, and the last node of each chunk in which the entry makes
/// some. Time is n log n in the links that the entry makes, a layer at a time. The record of a child that
/// stands is read where the link of its retired parent leads.
///
/// # Errors
///
/// `NoMemory` where there is none for the lists.
pub fn united_layers<W: Words>(
    alloc: Global,
    w: &mut W,
    dataset: &Dataset,
    changed: &[Changed],
    places: &[Spot],
) -> Result<EntryLayers, NoMemory>
    requires united { (b : Base) × (log : List Entry) × (e : Entry) × ParentImage dataset.now b log (W.words w.old) × AreOnPaths dataset.now b log e places.now × (e.changed ≡ changed.now) }
    requires active { HaveState true changed.now }
    ensures same { w.new ≡ w.old }
    ensures layers { IfOk result (λ x. (b : Base) (log : List Entry) (e : Entry) → ParentImage dataset.now b log (W.words w.old) → AreOnPaths dataset.now b log e places.now → e.changed ≡ changed.now → AreEntryLayers dataset.now b log e x) }
{
    let read = joints(alloc, w, dataset, changed, places)?;
    let found = read.as_slice();
    let list = ids_of(alloc, found)?;
    let ids = list.as_slice();
    let placed = placed(alloc, ids, found)?;
    let ends = end_places(alloc, ids, changed)?;
    let layers = layers_of(alloc, w, dataset, ids, &ends, &placed, places)?;
    Ok(layers)
}
