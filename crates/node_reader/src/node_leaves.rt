//! The supervoxels of a node, found by opening it and the nodes below it.

ghost use Rattle.std.specs.Prelude.{◌≡◌, ◌<◌, ◌≤◌, ◌+◌, ◌++◌, ◌∷◌, [], ℕ, List, length, IfOk, OnOk, IsPermutation, true, false};
ghost use Rattle.op_model.specs.declared.base.Dataset.{Dataset};
ghost use Rattle.op_model.specs.declared.base.Base.{Base};
ghost use Rattle.op_model.specs.declared.entry.Entry.{Entry};
ghost use Rattle.record_rows.specs.Rows.{Link, LinkRow, Node, Row, SupervoxelRow};
ghost use Rattle.record_rows.specs.Chains.{child_of, has_id};
ghost use Rattle.record_rows.specs.LogRows.{rows_of};
ghost use Rattle.record_rows.specs.Words.{place_from};
ghost use Rattle.record_rows.specs.Readings.{Holds, HoldsId, HoldsNode, HoldsSupervoxel, ParentImage, first_place, next_place};
ghost use Rattle.record_rows.specs.Sorted.{id_at};
ghost use Rattle.node_reader.specs.Spreads.{AreNodes, id_leaves, spread, weight, weights};

use node_ids::NodeId;
use op_model::Ids;
use pcg_base::{NoMemory, Words};
use row_words::{Spot, fixed, id_of, kind_of, pointer};
use std::alloc::Global;

/// The supervoxels of a node, as they were when it was made, ascending.
///
/// # Errors
///
/// `NoMemory` where the list can't be had, or that of the nodes that are still to be opened.
pub fn leaves<W: Words>(alloc: Global, w: &mut W, node: Spot) -> Result<Ids, NoMemory>
    requires node { (d : Dataset) × (b : Base) × (log : List Entry) × (n : Node) × ParentImage d b log (W.words w.old) × HoldsNode d b log node n }
    ensures same { w.new ≡ w.old }
    ensures is { (d : Dataset) (b : Base) (log : List Entry) (n : Node) → ParentImage d b log (W.words w.old) → HoldsNode d b log node n → IfOk result (λ ids. ids ≡ n.leaves) }
{
    let mut list = Vec::new(alloc);
    let mut waiting = Vec::new(alloc);
    put_spot(&mut waiting, node)?;
    while let Some(spot) = waiting.pop() {
        open(w, &mut list, &mut waiting, spot)?;
    }
    list.sort_unstable();
    Ok(Ids { list })
}

/// Opens a node: puts the children that are supervoxels to the list, and those that are nodes to
/// those that wait.
fn open<W: Words>(
    w: &mut W,
    list: &mut Vec<NodeId>,
    waiting: &mut Vec<Spot>,
    node: Spot,
) -> Result<(), NoMemory>
    requires node { (d : Dataset) × (b : Base) × (log : List Entry) × (n : Node) × ParentImage d b log (W.words w.old) × HoldsNode d b log node n }
    ensures same { w.new ≡ w.old }
    ensures nodes { (d : Dataset) (b : Base) (log : List Entry) (n : Node) → ParentImage d b log (W.words w.old) → HoldsNode d b log node n → AreNodes d b log waiting.old.items → OnOk result (AreNodes d b log waiting.new.items) }
    ensures leaves { (d : Dataset) (b : Base) (log : List Entry) (n : Node) → ParentImage d b log (W.words w.old) → HoldsNode d b log node n → OnOk result (IsPermutation (n.leaves ++ spread (rows_of d b log) list.old.items waiting.old.items) (spread (rows_of d b log) list.new.items waiting.new.items)) }
    ensures fewer { OnOk result (weights (W.words w.old) waiting.new.items < weights (W.words w.old) (waiting.old.items ++ node ∷ [])) }
{
    let mut at = first_link(w, node);
    while let Some(link) = at {
        put_child(w, list, waiting, link)?;
        at = next_link(w, link);
    }
    Ok(())
}

/// Puts a link's child to the list if it is a supervoxel, else to the nodes that wait.
fn put_child<W: Words>(
    w: &mut W,
    list: &mut Vec<NodeId>,
    waiting: &mut Vec<Spot>,
    link: Spot,
) -> Result<(), NoMemory>
    requires link { (d : Dataset) × (b : Base) × (log : List Entry) × (l : Link) × ParentImage d b log (W.words w.old) × Holds d b log link (LinkRow l) }
    ensures same { w.new ≡ w.old }
    ensures nodes { (d : Dataset) (b : Base) (log : List Entry) (l : Link) → ParentImage d b log (W.words w.old) → Holds d b log link (LinkRow l) → AreNodes d b log waiting.old.items → OnOk result (AreNodes d b log waiting.new.items) }
    ensures leaves { (d : Dataset) (b : Base) (log : List Entry) (l : Link) → ParentImage d b log (W.words w.old) → Holds d b log link (LinkRow l) → OnOk result (IsPermutation (id_leaves (rows_of d b log) l.child ++ spread (rows_of d b log) list.old.items waiting.old.items) (spread (rows_of d b log) list.new.items waiting.new.items)) }
    ensures more { (d : Dataset) (b : Base) (log : List Entry) (l : Link) → ParentImage d b log (W.words w.old) → Holds d b log link (LinkRow l) → OnOk result (weights (W.words w.old) waiting.new.items ≤ weights (W.words w.old) waiting.old.items + weight (length (W.words w.old)) l.child) }
{
    let spot = child_place(w, link);
    if is_supervoxel(w, spot) {
        put_id(list, NodeId(id_of(w, spot)))
    } else {
        put_spot(waiting, spot)
    }
}

/// Puts an id behind the others of a list.
fn put_id(list: &mut Vec<NodeId>, id: NodeId) -> Result<(), NoMemory>
    ensures { OnOk result (list.new.items ≡ list.old.items ++ id ∷ []) }
{
    match list.push(id) {
        Ok(()) => Ok(()),
        Err(_) => Err(NoMemory),
    }
}

/// Puts a place behind the others of a list.
fn put_spot(list: &mut Vec<Spot>, spot: Spot) -> Result<(), NoMemory>
    ensures { OnOk result (list.new.items ≡ list.old.items ++ spot ∷ []) }
{
    match list.push(spot) {
        Ok(()) => Ok(()),
        Err(_) => Err(NoMemory),
    }
}

/// The first link of a node's children.
fn first_link<W: Words>(w: &mut W, node: Spot) -> Option<Spot>
    requires node { (d : Dataset) × (b : Base) × (log : List Entry) × (n : Node) × ParentImage d b log (W.words w.old) × HoldsNode d b log node n }
    ensures same { w.new ≡ w.old }
    ensures is { (d : Dataset) (b : Base) (log : List Entry) (n : Node) → ParentImage d b log (W.words w.old) → HoldsNode d b log node n → result ≡ first_place (child_of n.id) (rows_of d b log) }
{
    pointer(w, node, 4)
}

/// The next link of the children of a link's parent.
fn next_link<W: Words>(w: &mut W, link: Spot) -> Option<Spot>
    requires link { (d : Dataset) × (b : Base) × (log : List Entry) × (l : Link) × ParentImage d b log (W.words w.old) × Holds d b log link (LinkRow l) }
    ensures same { w.new ≡ w.old }
    ensures is { (d : Dataset) (b : Base) (log : List Entry) (l : Link) → ParentImage d b log (W.words w.old) → Holds d b log link (LinkRow l) → result ≡ next_place (child_of l.parent) (rows_of d b log) link }
{
    pointer(w, link, 5)
}

/// The record of a link's child.
fn child_place<W: Words>(w: &mut W, link: Spot) -> Spot
    requires link { (d : Dataset) × (b : Base) × (log : List Entry) × (l : Link) × ParentImage d b log (W.words w.old) × Holds d b log link (LinkRow l) }
    ensures same { w.new ≡ w.old }
    ensures is { (d : Dataset) (b : Base) (log : List Entry) (l : Link) → ParentImage d b log (W.words w.old) → Holds d b log link (LinkRow l) → result ≡ place_from (has_id l.child) 0 (rows_of d b log) }
    ensures at { (d : Dataset) (b : Base) (log : List Entry) (l : Link) → ParentImage d b log (W.words w.old) → Holds d b log link (LinkRow l) → HoldsId d b log result l.child }
{
    Spot(fixed(w, link, 2) as u32)
}

/// Whether the record of a supervoxel or a node is that of a supervoxel.
fn is_supervoxel<W: Words>(w: &mut W, spot: Spot) -> bool
    requires id { (d : Dataset) × (b : Base) × (log : List Entry) × (id : ℕ) × ParentImage d b log (W.words w.old) × HoldsId d b log spot id }
    ensures same { w.new ≡ w.old }
    ensures yes { (d : Dataset) (b : Base) (log : List Entry) (id : ℕ) → ParentImage d b log (W.words w.old) → HoldsId d b log spot id → result ≡ true → HoldsSupervoxel d b log spot id }
    ensures no { (d : Dataset) (b : Base) (log : List Entry) (id : ℕ) → ParentImage d b log (W.words w.old) → HoldsId d b log spot id → result ≡ false → (n : Node) × HoldsNode d b log spot n × (n.id ≡ id) }
{
    kind_of(w, spot) == 2
}
