//! The layers that an entry makes, one from the other.

ghost use Rattle.std.specs.Prelude.{◌≡◌, ◌+◌, ◌-◌, ◌<◌, ◌≤◌, ◌^◌, ◌∷◌, ℕ, List, length, IfOk};
ghost use Rattle.op_model.specs.declared.base.Base.{Base};
ghost use Rattle.op_model.specs.declared.base.Dataset.{Dataset};
ghost use Rattle.op_model.specs.declared.entry.Entry.{Entry};
ghost use Rattle.op_model.specs.Chunks.{top};
ghost use Rattle.op_model.specs.Valid.{IsBase, IsDataset};
ghost use Rattle.entry_parts.specs.Parts.{AreFirstsOf};
ghost use Rattle.part_layers.specs.Rising.{AreByLevel, AreOwnFirsts};
ghost use Rattle.entry_layers.specs.Gathered.{AreEntryLayers, AreGathered};
ghost use Rattle.entry_layers.specs.Layering.{AreFirstsBelow, AreLayersTo, IsEntryList, IsEntryPart};

use crate::gathering::{EntryLayers, add, begin};
use crate::roots::ids_of_made;
use log_rows::length;
use made_links::layer_links;
use made_nodes::{MadeLayer, layer_made};
use node_ids::NodeId;
use octree_layers::PlacedEdge;
use octree_layers::lists::ids_of;
use op_model::{Base, Dataset};
use part_layers::{edges_by_level, first_firsts, next_firsts};
use pcg_base::{NoMemory, Words};
use row_words::Spot;
use std::alloc::Global;

/// A layer, for the one above it.
#[derive(Drop)]
pub struct LayerBelow {
    /// For the place of each supervoxel of the part the place of the least leaf of its node.
    pub firsts: Vec<u32>,
    /// The nodes that the entry makes.
    pub made: MadeLayer,
}

/// Layer 1, in which each supervoxel is its own node, and nothing is made. `firsts` has for each place that
/// place.
pub fn lowest(alloc: Global, firsts: Vec<u32>) -> LayerBelow
    ensures firsts { result.firsts ≡ firsts }
    ensures are { (d : Dataset) (b : Base) (log : List Entry) (e : Entry) (ids : List ℕ) (all : EntryLayers) → AreFirstsOf d b (e ∷ log) ids 1 firsts.items → AreGathered d b log e 0 all → AreLayersTo d b log e ids 0 all result }
{
    LayerBelow {
        firsts,
        made: MadeLayer {
            nodes: Vec::new(alloc),
            leasts: Vec::new(alloc),
            spent: None,
        },
    }
}

/// The next layer, whose nodes and links are put behind those of the layers below. `ids` has supervoxels,
/// ascending, with the least leaf of each child of a node that the entry makes; `ends` has the places of
/// the ends of its changed pairs there, and `firsts` for each place that of the least leaf of its node
/// of the layer. `guesses` may tell for such a place where the record of a child that stands may be;
/// where it isn't there, it is found by a climb.
///
/// # Errors
///
/// `NoMemory` where there is none for the lists.
pub fn add_layer<W: Words>(
    alloc: Global,
    w: &mut W,
    dataset: &Dataset,
    prefix: u32,
    ids: &[NodeId],
    ends: &[u32],
    layer: u8,
    firsts: Vec<u32>,
    below: &LayerBelow,
    all: &mut EntryLayers,
    guesses: &[Spot],
) -> Result<LayerBelow, NoMemory>
    requires layer { (2 ≤ layer) × (layer ≤ top dataset.now) }
    requires made { (b : Base) × (log : List Entry) × (e : Entry) × IsEntryList dataset.now b log e (W.words w.old) ids.now ends.now × AreLayersTo dataset.now b log e ids.now (layer - 2) all.old below.now × (prefix ≡ length log)
        × AreFirstsOf dataset.now b (e ∷ log) ids.now layer firsts.items }
    ensures same { w.new ≡ w.old }
    ensures firsts { IfOk result (λ x. x.firsts ≡ firsts) }
    ensures made { IfOk result (λ x. (b : Base) (log : List Entry) (e : Entry) → IsEntryList dataset.now b log e (W.words w.old) ids.now ends.now → AreLayersTo dataset.now b log e ids.now (layer - 2) all.old below.now → prefix ≡ length log
        → AreFirstsOf dataset.now b (e ∷ log) ids.now layer firsts.items → AreLayersTo dataset.now b log e ids.now (layer - 1) all.new x) }
{
    let made = layer_made(alloc, w, dataset, ids, ends, layer, &firsts)?;
    let links = layer_links(
        alloc,
        w,
        prefix,
        ids,
        layer,
        &below.firsts,
        &below.made,
        &firsts,
        &made,
        guesses,
    )?;
    add(all, layer, &made.nodes, made.spent, &links)?;
    Ok(LayerBelow { firsts, made })
}

// layer 1 of a part
fn first_layer(alloc: Global, dataset: &Dataset, part: &Base) -> Result<LayerBelow, NoMemory>
    requires dataset { IsDataset dataset.now }
    requires part { IsBase dataset.now part.now }
    requires size { length part.now.supervoxels < 2 ^ 32 }
    ensures own { IfOk result (AreFirstsBelow dataset.now part.now 1) }
    ensures are { IfOk result (λ x. (b : Base) (log : List Entry) (e : Entry) (words ends : List ℕ) (all : EntryLayers) → IsEntryPart dataset.now b log e words part.now ends → AreGathered dataset.now b log e 0 all → AreLayersTo dataset.now b log e part.now.supervoxels 0 all x) }
{
    let firsts = first_firsts(alloc, dataset, part)?;
    Ok(lowest(alloc, firsts))
}

// the next layer of a part
fn next_layer<W: Words>(
    alloc: Global,
    w: &mut W,
    dataset: &Dataset,
    prefix: u32,
    part: &Base,
    ends: &[u32],
    edges: &[PlacedEdge],
    layer: u8,
    below: &LayerBelow,
    all: &mut EntryLayers,
) -> Result<LayerBelow, NoMemory>
    requires dataset { IsDataset dataset.now }
    requires part { IsBase dataset.now part.now }
    requires size { length part.now.supervoxels < 2 ^ 32 }
    requires edges { AreByLevel dataset.now part.now edges.now }
    requires layer { (2 ≤ layer) × (layer ≤ top dataset.now) }
    requires below { AreFirstsBelow dataset.now part.now (layer - 1) below.now }
    requires made { (b : Base) × (log : List Entry) × (e : Entry) × IsEntryPart dataset.now b log e (W.words w.old) part.now ends.now × AreLayersTo dataset.now b log e part.now.supervoxels (layer - 2) all.old below.now × (prefix ≡ length log) }
    ensures same { w.new ≡ w.old }
    ensures own { IfOk result (AreFirstsBelow dataset.now part.now layer) }
    ensures made { IfOk result (λ x. (b : Base) (log : List Entry) (e : Entry) → IsEntryPart dataset.now b log e (W.words w.old) part.now ends.now → AreLayersTo dataset.now b log e part.now.supervoxels (layer - 2) all.old below.now → prefix ≡ length log → AreLayersTo dataset.now b log e part.now.supervoxels (layer - 1) all.new x) }
{
    let ids = ids_of(part);
    let firsts = next_firsts(alloc, dataset, part, edges, layer, &below.firsts)?;
    let next = add_layer(
        alloc,
        w,
        dataset,
        prefix,
        ids,
        ends,
        layer,
        firsts,
        below,
        all,
        &[],
    )?;
    Ok(next)
}

/// The nodes and links that an entry makes in all layers, over the words of the log before it. `part` is
/// the part of the base that it touches, of fewer than 2^32 supervoxels, and `ends` has the places of
/// the ends of its changed pairs there.
///
/// Time is n log n in the part's supervoxels and pairs, a layer at a time. No other node is looked at
/// than those of the part, and the last one of each chunk in which the entry makes some.
///
/// # Errors
///
/// `NoMemory` where there is none for the lists.
pub fn entry_layers<W: Words>(
    alloc: Global,
    w: &mut W,
    dataset: &Dataset,
    part: &Base,
    ends: &[u32],
) -> Result<EntryLayers, NoMemory>
    requires part { (b : Base) × (log : List Entry) × (e : Entry) × IsEntryPart dataset.now b log e (W.words w.old) part.now ends.now }
    requires size { length part.now.supervoxels < 2 ^ 32 }
    ensures same { w.new ≡ w.old }
    ensures layers { IfOk result (λ x. (b : Base) (log : List Entry) (e : Entry) → IsEntryPart dataset.now b log e (W.words w.old) part.now ends.now → AreEntryLayers dataset.now b log e x) }
{
    let prefix = length(w);
    let edges = edges_by_level(alloc, dataset, part)?;
    let mut all = begin(alloc);
    let mut below = first_layer(alloc, dataset, part)?;
    for layer in 2..dataset.grid.top_layer() + 1 {
        below = next_layer(
            alloc, w, dataset, prefix, part, ends, &edges, layer, &below, &mut all,
        )?;
    }
    all.roots = ids_of_made(alloc, &below.made.nodes)?;
    Ok(all)
}
