//! What a node's record tells, and its children.

ghost use Rattle.std.specs.Prelude.{◌≡◌, ℕ, List, IfOk, OnOk, ◌++◌, ◌∷◌, []};
ghost use Rattle.op_model.specs.declared.base.Dataset.{Dataset};
ghost use Rattle.op_model.specs.declared.base.Base.{Base};
ghost use Rattle.op_model.specs.declared.entry.Entry.{Entry};
ghost use Rattle.op_model.specs.Valid.{IsAscending};
ghost use Rattle.op_model.specs.Lists.{head_or};
ghost use Rattle.record_rows.specs.Rows.{Node, Link, LinkRow, EntryRow};
ghost use Rattle.record_rows.specs.Chains.{child_of, retires};
ghost use Rattle.record_rows.specs.LogRows.{rows_of};
ghost use Rattle.record_rows.specs.Readings.{ParentImage, Holds, HoldsNode, first_place, next_place};
ghost use Rattle.record_rows.specs.Walks.{children_in, ended_below};

use node_ids::NodeId;
use op_model::Ids;
use pcg_base::{NoMemory, Words};
use row_words::{Spot, fixed, pointer};
use std::alloc::Global;

/// What a node's record tells beside its chains.
#[derive(Clone, Copy, PartialEq, Eq, Debug, Drop)]
pub struct NodeRow {
    /// The node.
    pub id: NodeId,
    /// The least supervoxel of the node.
    pub least: NodeId,
    /// The number of the entry that made it.
    pub made: u32,
}

/// What the record of the node at a place tells.
pub fn node<W: Words>(w: &mut W, spot: Spot) -> NodeRow
    requires node { (d : Dataset) × (b : Base) × (log : List Entry) × (n : Node) × ParentImage d b log (W.words w.old) × HoldsNode d b log spot n }
    ensures same { w.new ≡ w.old }
    ensures is { (d : Dataset) (b : Base) (log : List Entry) (n : Node) → ParentImage d b log (W.words w.old) → HoldsNode d b log spot n → (result.id ≡ n.id) × (result.least ≡ head_or 0 n.leaves) × (result.made ≡ n.made) }
{
    let id = NodeId(fixed(w, spot, 1));
    let least = NodeId(fixed(w, spot, 2));
    let made = fixed(w, spot, 3) as u32;
    NodeRow { id, least, made }
}

/// The number of the entry that retired the node at a place; `None` where no entry below the prefix
/// did.
pub fn ended<W: Words>(w: &mut W, spot: Spot, prefix: u32) -> Option<u32>
    requires node { (d : Dataset) × (b : Base) × (log : List Entry) × (n : Node) × ParentImage d b log (W.words w.old) × HoldsNode d b log spot n }
    ensures same { w.new ≡ w.old }
    ensures is { (d : Dataset) (b : Base) (log : List Entry) (n : Node) → ParentImage d b log (W.words w.old) → HoldsNode d b log spot n → result ≡ ended_below (rows_of d b log) n prefix }
{
    let Some(entry) = retiring(w, spot) else {
        return None;
    };
    let number = entry_number(w, entry);
    if number < prefix { Some(number) } else { None }
}

/// The children of the node at a place, ascending: supervoxels where the node's layer is 2, else
/// nodes one layer below.
///
/// # Errors
///
/// `NoMemory` where the list can't be had.
pub fn children<W: Words>(alloc: Global, w: &mut W, spot: Spot) -> Result<Ids, NoMemory>
    requires node { (d : Dataset) × (b : Base) × (log : List Entry) × (n : Node) × ParentImage d b log (W.words w.old) × HoldsNode d b log spot n }
    ensures same { w.new ≡ w.old }
    ensures children { (d : Dataset) (b : Base) (log : List Entry) (n : Node) → ParentImage d b log (W.words w.old) → HoldsNode d b log spot n → IfOk result (λ ids. ids ≡ children_in (rows_of d b log) n.id) }
    ensures ascending { (d : Dataset) (b : Base) (log : List Entry) (n : Node) → ParentImage d b log (W.words w.old) → HoldsNode d b log spot n → IfOk result IsAscending }
{
    let mut list = Vec::new(alloc);
    let mut at = first_child(w, spot);
    while let Some(link) = at {
        push(&mut list, child(w, link))?;
        at = next_child(w, link);
    }
    Ok(Ids { list })
}

// an id behind a list
fn push(ids: &mut Vec<NodeId>, id: NodeId) -> Result<(), NoMemory>
    ensures { OnOk result (ids.new.items ≡ ids.old.items ++ id ∷ []) }
{
    match ids.push(id) {
        Ok(()) => Ok(()),
        Err(_) => Err(NoMemory),
    }
}

// the first link of a node's children
pub fn first_child<W: Words>(w: &mut W, spot: Spot) -> Option<Spot>
    requires node { (d : Dataset) × (b : Base) × (log : List Entry) × (n : Node) × ParentImage d b log (W.words w.old) × HoldsNode d b log spot n }
    ensures same { w.new ≡ w.old }
    ensures is { (d : Dataset) (b : Base) (log : List Entry) (n : Node) → ParentImage d b log (W.words w.old) → HoldsNode d b log spot n → result ≡ first_place (child_of n.id) (rows_of d b log) }
{
    pointer(w, spot, 4)
}

// the next link of the children of a link's parent
fn next_child<W: Words>(w: &mut W, link: Spot) -> Option<Spot>
    requires link { (d : Dataset) × (b : Base) × (log : List Entry) × (l : Link) × ParentImage d b log (W.words w.old) × Holds d b log link (LinkRow l) }
    ensures same { w.new ≡ w.old }
    ensures is { (d : Dataset) (b : Base) (log : List Entry) (l : Link) → ParentImage d b log (W.words w.old) → Holds d b log link (LinkRow l) → result ≡ next_place (child_of l.parent) (rows_of d b log) link }
{
    pointer(w, link, 5)
}

// a link's child
fn child<W: Words>(w: &mut W, link: Spot) -> NodeId
    requires link { (d : Dataset) × (b : Base) × (log : List Entry) × (l : Link) × ParentImage d b log (W.words w.old) × Holds d b log link (LinkRow l) }
    ensures same { w.new ≡ w.old }
    ensures is { (d : Dataset) (b : Base) (log : List Entry) (l : Link) → ParentImage d b log (W.words w.old) → Holds d b log link (LinkRow l) → result ≡ l.child }
{
    NodeId(fixed(w, link, 1))
}

// the record of the first entry that retired a node
fn retiring<W: Words>(w: &mut W, spot: Spot) -> Option<Spot>
    requires node { (d : Dataset) × (b : Base) × (log : List Entry) × (n : Node) × ParentImage d b log (W.words w.old) × HoldsNode d b log spot n }
    ensures same { w.new ≡ w.old }
    ensures is { (d : Dataset) (b : Base) (log : List Entry) (n : Node) → ParentImage d b log (W.words w.old) → HoldsNode d b log spot n → result ≡ first_place (retires n) (rows_of d b log) }
{
    pointer(w, spot, 6)
}

// an entry's number
fn entry_number<W: Words>(w: &mut W, spot: Spot) -> u32
    requires entry { (d : Dataset) × (b : Base) × (log : List Entry) × (e : Entry) × ParentImage d b log (W.words w.old) × Holds d b log spot (EntryRow e) }
    ensures same { w.new ≡ w.old }
    ensures is { (d : Dataset) (b : Base) (log : List Entry) (e : Entry) → ParentImage d b log (W.words w.old) → Holds d b log spot (EntryRow e) → result ≡ e.number }
{
    fixed(w, spot, 3) as u32
}
