//! The nodes of a chunk, which stand in one chain and ascend along it.

ghost use Rattle.std.specs.Prelude.{◌≡◌, ℕ, ◌<◌, ◌≤◌, List, IfSome};
ghost use Rattle.op_model.specs.declared.base.Dataset.{Dataset};
ghost use Rattle.op_model.specs.declared.base.Base.{Base};
ghost use Rattle.op_model.specs.declared.entry.Entry.{Entry};
ghost use Rattle.record_rows.specs.Rows.{Node};
ghost use Rattle.record_rows.specs.Chains.{node_in};
ghost use Rattle.record_rows.specs.LogRows.{rows_of};
ghost use Rattle.record_rows.specs.Readings.{ParentImage, HoldsChunk, HoldsNode, first_place, next_place, last_place};

use crate::near::near_node;
use crate::runs::leap;
use pcg_base::Words;
use row_words::{Spot, pointer};

/// The place of a chunk's first node. Each chunk of a log has one.
pub fn first_node<W: Words>(w: &mut W, chunk: Spot) -> Option<Spot>
    requires chunk { (d : Dataset) × (b : Base) × (log : List Entry) × (c : ℕ) × ParentImage d b log (W.words w.old) × HoldsChunk d b log chunk c }
    ensures same { w.new ≡ w.old }
    ensures is { (d : Dataset) (b : Base) (log : List Entry) (c : ℕ) → ParentImage d b log (W.words w.old) → HoldsChunk d b log chunk c → result ≡ first_place (node_in c) (rows_of d b log) }
{
    pointer(w, chunk, 4)
}

/// The place of the next node of a node's chunk, which has a greater id; `None` behind the last one.
pub fn next_node<W: Words>(w: &mut W, node: Spot) -> Option<Spot>
    requires node { (d : Dataset) × (b : Base) × (log : List Entry) × (n : Node) × ParentImage d b log (W.words w.old) × HoldsNode d b log node n }
    ensures same { w.new ≡ w.old }
    ensures is { (d : Dataset) (b : Base) (log : List Entry) (n : Node) → ParentImage d b log (W.words w.old) → HoldsNode d b log node n → result ≡ next_place (node_in n.chunk) (rows_of d b log) node }
    ensures ascending { (d : Dataset) (b : Base) (log : List Entry) (n : Node) → ParentImage d b log (W.words w.old) → HoldsNode d b log node n → IfSome result (λ p. (m : Node) → HoldsNode d b log p m → n.id < m.id) }
{
    pointer(w, node, 7)
}

/// The place of a chunk's last node, which has the greatest id. In the top chunk it is found by
/// halving; in another one each run of nodes that one entry made takes one step.
pub fn last_node<W: Words>(w: &mut W, chunk: Spot) -> Option<Spot>
    requires chunk { (d : Dataset) × (b : Base) × (log : List Entry) × (c : ℕ) × ParentImage d b log (W.words w.old) × HoldsChunk d b log chunk c }
    ensures same { w.new ≡ w.old }
    ensures is { (d : Dataset) (b : Base) (log : List Entry) (c : ℕ) → ParentImage d b log (W.words w.old) → HoldsChunk d b log chunk c → result ≡ last_place (node_in c) (rows_of d b log) }
    ensures greatest { (d : Dataset) (b : Base) (log : List Entry) (c : ℕ) → ParentImage d b log (W.words w.old) → HoldsChunk d b log chunk c → IfSome result (λ p. (m n : Node) (q : ℕ) → HoldsNode d b log p n → HoldsNode d b log q m → m.chunk ≡ c → m.id ≤ n.id) }
{
    let mut found = None;
    let mut at = near_node(w, chunk, u64::MAX);
    while let Some(node) = at {
        let last = leap(w, node, u64::MAX);
        found = Some(last);
        at = next_node(w, last);
    }
    found
}
