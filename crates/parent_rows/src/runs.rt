//! Runs: the nodes that one entry made in one chunk stand in a row, in the order of their ids, so
//! that the chain of a chunk need not be followed node by node.

ghost use Rattle.std.specs.Prelude.{◌≡◌, ℕ, ◌<◌, ◌≤◌, ◌-◌, List, true, IfSome};
ghost use Rattle.op_model.specs.declared.base.Dataset.{Dataset};
ghost use Rattle.op_model.specs.declared.base.Base.{Base};
ghost use Rattle.op_model.specs.declared.entry.Entry.{Entry};
ghost use Rattle.record_rows.specs.Rows.{Node, Row};
ghost use Rattle.record_rows.specs.Readings.{Holds, HoldsNode, ParentImage};
ghost use Rattle.node_ids.specs.Ids.{parts_of};

use crate::nodes::first_child;
use node_ids::{Layout, NodeId};
use pcg_base::Words;
use record_rows::layout_of;
use row_words::{Spot, fixed, id_of, kind_of};

/// The last node of a node's run whose id is at most this one, which the node's own must be. It is
/// found by steps that double, and then by halving, between the node and the first link of its
/// children.
pub fn leap<W: Words>(w: &mut W, first: Spot, id: u64) -> Spot
    requires node { (d : Dataset) × (b : Base) × (log : List Entry) × (n : Node) × ParentImage d b log (W.words w.old) × HoldsNode d b log first n × (n.id ≤ id) }
    ensures same { w.new ≡ w.old }
    ensures is { (d : Dataset) (b : Base) (log : List Entry) (n : Node) → ParentImage d b log (W.words w.old) → HoldsNode d b log first n → n.id ≤ id → (m : Node) × HoldsNode d b log result m × (m.chunk ≡ n.chunk) × (m.id ≤ id) × (first ≤ result) }
{
    let Some(end) = first_child(w, first) else {
        return first;
    };
    let ids = layout(w);
    let here = id_of(w, first);
    let chunk = chunk_by(ids, here);
    let mut low = first;
    let mut high = end;
    while let Some(middle) = middle_of(first, low, high) {
        if is_of(w, middle, ids, chunk, id) {
            low = middle;
        } else {
            high = middle;
        }
    }
    low
}

// a place between the lower and the higher one, if there is one: at first the next one, and then
// about twice as far from the first place each time, until half the way is less
fn middle_of(first: Spot, low: Spot, high: Spot) -> Option<Spot>
    ensures { IfSome result (λ m. (low < m) × (m < high)) }
{
    if low.0 < high.0 && high.0 - low.0 > 1 {
        let half = (high.0 - low.0) / 2;
        let step = low.0.saturating_sub(first.0).saturating_add(1);
        Some(Spot(low.0 + step.min(half)))
    } else {
        None
    }
}

/// Whether the record at a place is that of a node of this chunk, whose id is at most this one.
pub fn is_of<W: Words>(w: &mut W, spot: Spot, ids: Layout, chunk: u64, id: u64) -> bool
    requires record { (d : Dataset) × (b : Base) × (log : List Entry) × (row : Row) × ParentImage d b log (W.words w.old) × Holds d b log spot row }
    ensures same { w.new ≡ w.old }
    ensures is { (d : Dataset) (b : Base) (log : List Entry) (row : Row) → ParentImage d b log (W.words w.old) → Holds d b log spot row → ids ≡ d.layout → result ≡ true → (m : Node) × HoldsNode d b log spot m × (m.chunk ≡ chunk) × (m.id ≤ id) }
{
    if kind_of(w, spot) != 4 {
        return false;
    }
    let here = fixed(w, spot, 1);
    here <= id && chunk_by(ids, here) == chunk
}

// the id of the chunk that a node's id tells
fn chunk_by(ids: Layout, id: u64) -> u64
    ensures { result ≡ id - (parts_of ids id).segment }
{
    id - ids.unpack(NodeId(id)).segment
}

// the layout that the header states
pub fn layout<W: Words>(w: &mut W) -> Layout
    requires image { (d : Dataset) × (b : Base) × (log : List Entry) × ParentImage d b log (W.words w.old) }
    ensures same { w.new ≡ w.old }
    ensures is { (d : Dataset) (b : Base) (log : List Entry) → ParentImage d b log (W.words w.old) → result ≡ d.layout }
{
    let word = fixed(w, Spot(0), 0);
    layout_of(word)
}
