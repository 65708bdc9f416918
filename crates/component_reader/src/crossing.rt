//! The active edges that lead out of a node, at a prefix.

ghost use Rattle.std.specs.Prelude.{◌≡◌, ◌<◌, ◌≤◌, ◌++◌, ℕ, List, IfOk, OnOk, IsPermutation, IsSortedBy, IsTrue};
ghost use Rattle.std.specs.List.{filter, flat_map};
ghost use Rattle.op_model.specs.declared.base.Base.{Base};
ghost use Rattle.op_model.specs.declared.entry.Entry.{Entry};
ghost use Rattle.node_ids.specs.Ids.{parts_of};
ghost use Rattle.graph_model.specs.Lists.{has};
ghost use Rattle.op_model.specs.declared.base.Edge.{Edge};
ghost use Rattle.op_model.specs.Chunks.{cell, layers};
ghost use Rattle.op_model.specs.Edges.{pair_before};
ghost use Rattle.op_model.specs.Labels.{edges, node};
ghost use Rattle.op_model.specs.Transcript.{log_at};
ghost use Rattle.op_model.specs.Valid.{IsSupervoxel};
ghost use Rattle.layer_laws.specs.Levels.{leaving, level};
ghost use Rattle.record_rows.specs.Rows.{Node};
ghost use Rattle.record_rows.specs.Readings.{HoldsNode, Image};
ghost use Rattle.record_rows.specs.Walks.{edges_at};
ghost use Rattle.node_reader.specs.Readable.{AreKnown};
ghost use Rattle.component_reader.specs.Crossing.{AreInGrid, goes_out};

use chunk_geometry::Cell;
use edge_rows::edges_of;
use node_ids::NodeId;
use node_reader::{leaves, supervoxel_of};
use op_model::{Dataset, Edge, EdgeList};
use pcg_base::{NoMemory, Words};
use row_words::{Spot, id_of};
use std::alloc::Global;

/// The active edges that lead from a node out of its chunk, as the entries below the prefix left
/// them, ascending by pair. The node must be one of a supervoxel at the prefix, which is a number of
/// entries, at least 1, and the dataset that of the log. It takes time n log n in the leaves of the
/// node and their edges.
///
/// # Errors
///
/// `NoMemory` where the lists can't be had.
pub fn cross<W: Words>(
    alloc: Global,
    w: &mut W,
    dataset: &Dataset,
    spot: Spot,
    prefix: u32,
) -> Result<EdgeList, NoMemory>
    requires node { (b : Base) × (log : List Entry) × (n : Node) × Image dataset.now b log (W.words w.old) × HoldsNode dataset.now b log spot n }
    requires prefix { 1 ≤ prefix }
    ensures same { w.new ≡ w.old }
    ensures is { (b : Base) (log : List Entry) (n : Node) (layer v : ℕ) → Image dataset.now b log (W.words w.old) → HoldsNode dataset.now b log spot n → IsTrue (has (layers dataset.now) layer) → IsTrue (has b.supervoxels v) → n.id ≡ node dataset.now b (log_at dataset.now b log prefix) layer v → IfOk result (λ es. es ≡ leaving dataset.now b (log_at dataset.now b log prefix) layer v) }
{
    let layer = layer_of(w, dataset, spot);
    let leaves = leaves(alloc, w, spot)?;
    let found = all_out(alloc, w, dataset, leaves.list.as_slice(), prefix, layer)?;
    Ok(ascending(found))
}

/// The layer of a node.
fn layer_of<W: Words>(w: &mut W, dataset: &Dataset, node: Spot) -> u8
    requires node { (b : Base) × (log : List Entry) × (n : Node) × Image dataset.now b log (W.words w.old) × HoldsNode dataset.now b log node n }
    ensures same { w.new ≡ w.old }
    ensures is { (b : Base) (log : List Entry) (n : Node) → Image dataset.now b log (W.words w.old) → HoldsNode dataset.now b log node n → result ≡ (parts_of dataset.now.layout n.id).layer }
{
    let id = id_of(w, node);
    dataset.layout.unpack(NodeId(id)).layer
}

/// The active edges of supervoxels whose ends come into one chunk only above the layer, supervoxel by
/// supervoxel.
fn all_out<W: Words>(
    alloc: Global,
    w: &mut W,
    dataset: &Dataset,
    leaves: &[NodeId],
    prefix: u32,
    layer: u8,
) -> Result<Vec<Edge>, NoMemory>
    requires image { (b : Base) × (log : List Entry) × Image dataset.now b log (W.words w.old) × AreKnown b leaves.now }
    requires prefix { 1 ≤ prefix }
    ensures same { w.new ≡ w.old }
    ensures is { (b : Base) (log : List Entry) → Image dataset.now b log (W.words w.old) → AreKnown b leaves.now → IfOk result (λ es. es.items ≡ flat_map (λ v. filter (goes_out dataset.now layer) (edges_at (edges dataset.now b (log_at dataset.now b log prefix)) v)) leaves.now) }
{
    let mut list = Vec::new(alloc);
    for place in 0..leaves.len() {
        let sv = leaves[place];
        leaf_out(alloc, w, &mut list, dataset, sv, prefix, layer)?;
    }
    Ok(list)
}

/// Puts the active edges of a supervoxel whose ends come into one chunk only above the layer behind
/// others.
fn leaf_out<W: Words>(
    alloc: Global,
    w: &mut W,
    list: &mut Vec<Edge>,
    dataset: &Dataset,
    sv: NodeId,
    prefix: u32,
    layer: u8,
) -> Result<(), NoMemory>
    requires image { (b : Base) × (log : List Entry) × Image dataset.now b log (W.words w.old) × IsTrue (has b.supervoxels sv) }
    requires prefix { 1 ≤ prefix }
    ensures same { w.new ≡ w.old }
    ensures kept { (b : Base) (log : List Entry) → Image dataset.now b log (W.words w.old) → IsTrue (has b.supervoxels sv) → OnOk result (list.new.items ≡ list.old.items ++ filter (goes_out dataset.now layer) (edges_at (edges dataset.now b (log_at dataset.now b log prefix)) sv)) }
{
    let spot = supervoxel_of(w, sv);
    let own = edges_of(alloc, w, spot, prefix)?;
    keep_out(list, dataset, own.list.as_slice(), layer)?;
    Ok(())
}

/// Puts those edges that are active, and whose ends come into one chunk only above the layer, behind
/// others.
fn keep_out(
    list: &mut Vec<Edge>,
    dataset: &Dataset,
    own: &[Edge],
    layer: u8,
) -> Result<(), NoMemory>
    requires { AreInGrid dataset.now own.now }
    ensures { OnOk result (list.new.items ≡ list.old.items ++ filter (goes_out dataset.now layer) own.now) }
{
    for edge in own {
        if goes_out(dataset, layer, edge) {
            list.push(*edge).map_err(|_| NoMemory)?;
        }
    }
    Ok(())
}

// whether an edge is active, and its ends come into one chunk only above the layer
#[tactic(auto, unfolding(crate::specs::Crossing::goes_out))]
fn goes_out(dataset: &Dataset, layer: u8, edge: &Edge) -> bool
    requires { IsSupervoxel dataset.now edge.now.pair.a × IsSupervoxel dataset.now edge.now.pair.b }
    ensures { result ≡ goes_out dataset.now layer edge.now }
{
    edge.active && layer < level(dataset, edge.pair.a, edge.pair.b)
}

// the least layer from the second on whose chunk holds both supervoxels
fn level(dataset: &Dataset, u: NodeId, v: NodeId) -> u8
    requires u { IsSupervoxel dataset.now u }
    requires v { IsSupervoxel dataset.now v }
    ensures { result ≡ level dataset.now u v }
{
    dataset.grid.level(cell(dataset, u), cell(dataset, v))
}

// the base chunk of a supervoxel
#[tactic(auto, unfolding(op_model::specs::Chunks::cell))]
fn cell(dataset: &Dataset, sv: NodeId) -> Cell
    ensures { result ≡ cell dataset.now sv }
{
    let parts = dataset.layout.unpack(sv);
    Cell {
        x: parts.x,
        y: parts.y,
        z: parts.z,
    }
}

// the same edges by their pairs
fn ascending(edges: Vec<Edge>) -> EdgeList
    ensures same { IsPermutation edges.items result }
    ensures sorted { IsSortedBy (λ (e : Edge) (f : Edge). pair_before e.pair f.pair) result }
{
    let mut list = edges;
    list.sort_unstable_by_key(|edge| (edge.pair.a.0, edge.pair.b.0));
    EdgeList { list }
}
