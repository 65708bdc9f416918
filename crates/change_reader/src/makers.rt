//! Which entry made a root, and which one retired it.

ghost use Rattle.std.specs.Prelude.{◌≡◌, ◌∷◌, [], ℕ, List, IfOk};
ghost use Rattle.op_model.specs.declared.base.Dataset.{Dataset};
ghost use Rattle.op_model.specs.declared.base.Base.{Base};
ghost use Rattle.op_model.specs.declared.entry.Entry.{Entry};
ghost use Rattle.op_model.specs.Operations.{put_id};
ghost use Rattle.record_rows.specs.Rows.{Node};
ghost use Rattle.record_rows.specs.Readings.{HoldsNode};
ghost use Rattle.change_reader.specs.Walks.{IsMadeBy, IsMadeRoot, Waits};

use crate::numbers::put_number;
use node_ids::NodeId;
use parent_rows::{ended, find, node};
use pcg_base::{NoMemory, Words};
use row_words::Spot;
use std::alloc::Global;

/// The record of a root.
pub fn record_of<W: Words>(w: &mut W, root: NodeId) -> Spot
    requires root { (d : Dataset) × (b : Base) × (log : List Entry) × (prefix : ℕ) × IsMadeRoot d b log (W.words w.old) root prefix }
    ensures same { w.new ≡ w.old }
    ensures is { (d : Dataset) (b : Base) (log : List Entry) (prefix : ℕ) → IsMadeRoot d b log (W.words w.old) root prefix → (n : Node) × HoldsNode d b log result n × (n.id ≡ root) }
{
    find(w, root).unwrap()
}

/// The number of the entry that made a root.
pub fn maker<W: Words>(w: &mut W, root: NodeId) -> u32
    requires root { (d : Dataset) × (b : Base) × (log : List Entry) × (prefix : ℕ) × IsMadeRoot d b log (W.words w.old) root prefix }
    ensures same { w.new ≡ w.old }
    ensures is { (d : Dataset) (b : Base) (log : List Entry) (prefix : ℕ) → IsMadeRoot d b log (W.words w.old) root prefix → IsMadeBy log root prefix result }
{
    let spot = record_of(w, root);
    node(w, spot).made
}

/// The entries below a prefix that made or retired a root, ascending.
///
/// # Errors
///
/// `NoMemory` where the list can't be had.
pub fn own_entries<W: Words>(
    alloc: Global,
    w: &mut W,
    root: NodeId,
    prefix: u32,
) -> Result<Vec<u32>, NoMemory>
    requires root { (d : Dataset) × (b : Base) × (log : List Entry) × IsMadeRoot d b log (W.words w.old) root prefix }
    ensures same { w.new ≡ w.old }
    ensures is { (d : Dataset) (b : Base) (log : List Entry) → IsMadeRoot d b log (W.words w.old) root prefix → IfOk result (λ v. Waits log prefix (root ∷ []) v.items) }
{
    let spot = record_of(w, root);
    let made = node(w, spot).made;
    match ended(w, spot, prefix) {
        Some(by) => both(alloc, made, by),
        None => one(alloc, made),
    }
}

/// A list of one entry.
fn one(alloc: Global, made: u32) -> Result<Vec<u32>, NoMemory>
    ensures { IfOk result (λ v. v.items ≡ made ∷ []) }
{
    let mut list = Vec::new(alloc);
    put_number(&mut list, made)?;
    Ok(list)
}

/// A list of one entry, with another one in its place.
fn both(alloc: Global, made: u32, by: u32) -> Result<Vec<u32>, NoMemory>
    ensures { IfOk result (λ v. v.items ≡ put_id by (made ∷ [])) }
{
    let mut list = one(alloc, made)?;
    put_number(&mut list, by)?;
    Ok(list)
}
