//! The joints of retired nodes with their children, and of changed pairs.

ghost use Rattle.std.specs.Prelude.{◌≡◌, ◌++◌, ◌∷◌, [], ℕ, List, map, IfOk, OnOk, IsTrue, true, false};
ghost use Rattle.std.specs.List.{AllByRecursion, flat_map};
ghost use Rattle.graph_model.specs.Lists.{has, head_or};
ghost use Rattle.op_model.specs.declared.base.Dataset.{Dataset};
ghost use Rattle.op_model.specs.declared.base.Base.{Base};
ghost use Rattle.op_model.specs.declared.entry.Entry.{Entry};
ghost use Rattle.op_model.specs.Chunks.{cell};
ghost use Rattle.op_model.specs.Operations.{ends};
ghost use Rattle.op_model.specs.Valid.{IsSupervoxel};
ghost use Rattle.record_rows.specs.Rows.{Link, LinkRow, Node};
ghost use Rattle.record_rows.specs.Chains.{child_of, has_id};
ghost use Rattle.record_rows.specs.LogRows.{rows_of};
ghost use Rattle.record_rows.specs.Readings.{Holds, HoldsId, HoldsNode, HoldsSupervoxel, ParentImage, first_place, next_place};
ghost use Rattle.record_rows.specs.Walks.{children_in};
ghost use Rattle.record_rows.specs.Words.{place_from};
ghost use Rattle.node_reader.specs.Spreads.{AreNodes, id_leaves};
ghost use Rattle.united_layers.specs.Jointed.{all_joints, node_joint, pair_joint, place_joints};

use crate::joints::{Joint, put};
use chunk_geometry::Cell;
use node_ids::NodeId;
use op_model::{Changed, Dataset};
use parent_rows::node;
use pcg_base::{NoMemory, Words};
use row_words::{Spot, fixed, id_of, kind_of, pointer};
use std::alloc::Global;

// the first link of a node's children
fn first_link<W: Words>(w: &mut W, node: Spot) -> Option<Spot>
    requires node { (d : Dataset) × (b : Base) × (log : List Entry) × (n : Node) × ParentImage d b log (W.words w.old) × HoldsNode d b log node n }
    ensures same { w.new ≡ w.old }
    ensures is { (d : Dataset) (b : Base) (log : List Entry) (n : Node) → ParentImage d b log (W.words w.old) → HoldsNode d b log node n → result ≡ first_place (child_of n.id) (rows_of d b log) }
{
    pointer(w, node, 4)
}

// the next link of the children of a link's parent
fn next_link<W: Words>(w: &mut W, link: Spot) -> Option<Spot>
    requires link { (d : Dataset) × (b : Base) × (log : List Entry) × (l : Link) × ParentImage d b log (W.words w.old) × Holds d b log link (LinkRow l) }
    ensures same { w.new ≡ w.old }
    ensures is { (d : Dataset) (b : Base) (log : List Entry) (l : Link) → ParentImage d b log (W.words w.old) → Holds d b log link (LinkRow l) → result ≡ next_place (child_of l.parent) (rows_of d b log) link }
{
    pointer(w, link, 5)
}

// the record of a link's child
fn child_place<W: Words>(w: &mut W, link: Spot) -> Spot
    requires link { (d : Dataset) × (b : Base) × (log : List Entry) × (l : Link) × ParentImage d b log (W.words w.old) × Holds d b log link (LinkRow l) }
    ensures same { w.new ≡ w.old }
    ensures is { (d : Dataset) (b : Base) (log : List Entry) (l : Link) → ParentImage d b log (W.words w.old) → Holds d b log link (LinkRow l) → result ≡ place_from (has_id l.child) 0 (rows_of d b log) }
    ensures at { (d : Dataset) (b : Base) (log : List Entry) (l : Link) → ParentImage d b log (W.words w.old) → Holds d b log link (LinkRow l) → HoldsId d b log result l.child }
{
    Spot(fixed(w, link, 2) as u32)
}

// whether the record of a supervoxel or a node is that of a supervoxel
fn is_supervoxel<W: Words>(w: &mut W, spot: Spot) -> bool
    requires id { (d : Dataset) × (b : Base) × (log : List Entry) × (id : ℕ) × ParentImage d b log (W.words w.old) × HoldsId d b log spot id }
    ensures same { w.new ≡ w.old }
    ensures yes { (d : Dataset) (b : Base) (log : List Entry) (id : ℕ) → ParentImage d b log (W.words w.old) → HoldsId d b log spot id → result ≡ true → HoldsSupervoxel d b log spot id }
    ensures no { (d : Dataset) (b : Base) (log : List Entry) (id : ℕ) → ParentImage d b log (W.words w.old) → HoldsId d b log spot id → result ≡ false → (n : Node) × HoldsNode d b log spot n × (n.id ≡ id) }
{
    kind_of(w, spot) == 2
}

// the least leaf of a link's child: itself, where it is a supervoxel
fn child_least<W: Words>(w: &mut W, link: Spot) -> NodeId
    requires link { (d : Dataset) × (b : Base) × (log : List Entry) × (l : Link) × ParentImage d b log (W.words w.old) × Holds d b log link (LinkRow l) }
    ensures same { w.new ≡ w.old }
    ensures is { (d : Dataset) (b : Base) (log : List Entry) (l : Link) → ParentImage d b log (W.words w.old) → Holds d b log link (LinkRow l) → result ≡ head_or 0 (id_leaves (rows_of d b log) l.child) }
{
    let spot = child_place(w, link);
    if is_supervoxel(w, spot) {
        NodeId(id_of(w, spot))
    } else {
        node(w, spot).least
    }
}

// puts the joints of the node at a place with its children behind others
fn put_node<W: Words>(
    list: &mut Vec<Joint>,
    w: &mut W,
    dataset: &Dataset,
    spot: Spot,
) -> Result<(), NoMemory>
    requires node { (b : Base) × (log : List Entry) × (n : Node) × ParentImage dataset.now b log (W.words w.old) × HoldsNode dataset.now b log spot n }
    ensures same { w.new ≡ w.old }
    ensures put { (b : Base) (log : List Entry) (n : Node) → ParentImage dataset.now b log (W.words w.old) → HoldsNode dataset.now b log spot n
        → OnOk result (list.new.items ≡ list.old.items ++ map (node_joint dataset.now (rows_of dataset.now b log) n) (children_in (rows_of dataset.now b log) n.id)) }
{
    let row = node(w, spot);
    let layer = dataset.layout.unpack(row.id).layer;
    let a = row.least;
    let mut at = first_link(w, spot);
    while let Some(link) = at {
        let b = child_least(w, link);
        put(list, Joint { layer, a, b })?;
        at = next_link(w, link);
    }
    Ok(())
}

// puts the joints of the nodes at some places behind others
fn put_nodes<W: Words>(
    list: &mut Vec<Joint>,
    w: &mut W,
    dataset: &Dataset,
    places: &[Spot],
) -> Result<(), NoMemory>
    requires nodes { (b : Base) × (log : List Entry) × ParentImage dataset.now b log (W.words w.old) × AreNodes dataset.now b log places.now }
    ensures same { w.new ≡ w.old }
    ensures put { (b : Base) (log : List Entry) → ParentImage dataset.now b log (W.words w.old) → AreNodes dataset.now b log places.now
        → OnOk result (list.new.items ≡ list.old.items ++ flat_map (place_joints dataset.now (rows_of dataset.now b log)) places.now) }
{
    for place in 0..places.len() {
        put_node(list, w, dataset, places[place])?;
    }
    Ok(())
}

// the base chunk of a supervoxel
#[tactic(auto, unfolding(op_model::specs::Chunks::cell))]
fn cell(dataset: &Dataset, sv: NodeId) -> Cell
    ensures { result ≡ cell dataset.now sv }
{
    let parts = dataset.layout.unpack(sv);
    Cell {
        x: parts.x,
        y: parts.y,
        z: parts.z,
    }
}

// the joint of a changed pair, from its level on
fn pair_joint(dataset: &Dataset, change: &Changed) -> Joint
    requires ends { IsSupervoxel dataset.now change.now.pair.a × IsSupervoxel dataset.now change.now.pair.b }
    ensures { result ≡ pair_joint dataset.now change.now }
{
    let (a, b) = (change.pair.a, change.pair.b);
    Joint {
        layer: dataset.grid.level(cell(dataset, a), cell(dataset, b)),
        a,
        b,
    }
}

// puts the joints of changed pairs behind others
fn put_pairs(list: &mut Vec<Joint>, dataset: &Dataset, changed: &[Changed]) -> Result<(), NoMemory>
    requires ends { AllByRecursion (λ c. IsSupervoxel dataset.now c.pair.a × IsSupervoxel dataset.now c.pair.b) changed.now }
    ensures { OnOk result (list.new.items ≡ list.old.items ++ map (pair_joint dataset.now) changed.now) }
{
    for change in changed {
        put(list, pair_joint(dataset, change))?;
    }
    Ok(())
}

/// The joints of the nodes at some places with their children, and of changed pairs. All ends of the
/// pairs are supervoxels of the base. Each child is looked at once.
///
/// # Errors
///
/// `NoMemory` where there is none for the list.
pub fn joints<W: Words>(
    alloc: Global,
    w: &mut W,
    dataset: &Dataset,
    changed: &[Changed],
    places: &[Spot],
) -> Result<Vec<Joint>, NoMemory>
    requires nodes { (b : Base) × (log : List Entry) × ParentImage dataset.now b log (W.words w.old) × AreNodes dataset.now b log places.now × ((u : ℕ) → IsTrue (has (ends changed.now) u) → IsTrue (has b.supervoxels u)) }
    ensures same { w.new ≡ w.old }
    ensures are { (b : Base) (log : List Entry) → ParentImage dataset.now b log (W.words w.old) → AreNodes dataset.now b log places.now → IfOk result (λ v. v.items ≡ all_joints dataset.now (rows_of dataset.now b log) places.now changed.now) }
{
    let mut list = Vec::new(alloc);
    put_nodes(&mut list, w, dataset, places)?;
    put_pairs(&mut list, dataset, changed)?;
    Ok(list)
}
