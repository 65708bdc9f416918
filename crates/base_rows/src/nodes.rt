//! The records of nodes.

ghost use Rattle.std.specs.Prelude.{◌≡◌, ℕ, List, ◌≤◌, ◌<◌, ◌+◌, ◌-◌, ◌*◌, ◌^◌, ◌++◌, [], ◌∷◌, length, OnOk};
ghost use Rattle.op_model.specs.declared.base.Dataset.{Dataset};
ghost use Rattle.record_rows.specs.Rows.{Row, NodeRow, Node};
ghost use Rattle.record_rows.specs.Words.{words_of};
ghost use Rattle.base_rows.specs.declared.lists.BaseEdge.{BaseEdge};
ghost use Rattle.base_rows.specs.Lists.{AreNodes, IsNode, IsOnce};
ghost use Rattle.base_rows.specs.BaseRows.{edged_rows, noded_rows};
ghost use Rattle.base_rows.specs.States.{Noding};

use crate::lists::BaseNode;
use crate::tails::put_tails;
use node_ids::NodeId;
use pcg_base::{NoMemory, VecWords};
use row_append::{NewNode, Tail, push_node};
use std::alloc::Global;

// puts a node behind the others, with the places where the nodes of each chunk end
fn put_node(w: &mut VecWords, tails: &mut Vec<Tail>, node: &BaseNode)
    requires places { length w.old.words < 8 * 2 ^ 32 }
    requires room { 8 ≤ w.old.spare }
    requires state { (chunks : List ℕ) × (rows : List Row) × (n : Node) × Noding chunks rows w.old.words tails.old.items × IsNode chunks node.now n }
    ensures state { (chunks : List ℕ) (rows : List Row) (n : Node) → Noding chunks rows w.old.words tails.old.items → IsNode chunks node.now n
        → Noding chunks (rows ++ NodeRow n ∷ []) w.new.words tails.new.items }
    ensures length { length w.new.words ≡ length w.old.words + 8 }
    ensures room { w.new.spare ≡ w.old.spare - 8 }
{
    let chunk = node.chunk as usize;
    let new = NewNode {
        id: node.id,
        least: node.least,
        made: 0,
    };
    let spot = push_node(w, new, tails[chunk]);
    tails[chunk] = Tail { spot, word: 7 };
}

/// Puts the nodes behind the edges. `first` is the place of the first chunk's record.
///
/// # Errors
///
/// `NoMemory` where there is none for the ends of chains.
pub(crate) fn put_nodes(
    alloc: Global,
    w: &mut VecWords,
    first: u32,
    chunks: &[NodeId],
    nodes: &[BaseNode],
) -> Result<(), NoMemory>
    requires places { (first + length chunks.now < 2 ^ 32) × (length w.old.words + 8 * length nodes.now < 8 * 2 ^ 32) }
    requires room { 8 * length nodes.now ≤ w.old.spare }
    requires once { IsOnce chunks.now }
    requires edged { (d : Dataset) × (ids : List ℕ) × (edges : List BaseEdge) × (ns : List Node) × (first ≡ 1 + length ids)
        × (w.old.words ≡ words_of (edged_rows d ids chunks.now edges)) × AreNodes chunks.now nodes.now ns }
    ensures words { (d : Dataset) (ids : List ℕ) (edges : List BaseEdge) (ns : List Node) → first ≡ 1 + length ids
        → w.old.words ≡ words_of (edged_rows d ids chunks.now edges) → AreNodes chunks.now nodes.now ns → OnOk result (w.new.words ≡ words_of (noded_rows d ids chunks.now edges ns)) }
    ensures length { OnOk result (length w.new.words ≡ length w.old.words + 8 * length nodes.now) }
    ensures room { OnOk result (w.new.spare ≡ w.old.spare - 8 * length nodes.now) }
{
    let mut tails = Vec::new(alloc);
    put_tails(&mut tails, first, chunks.len() as u32, 4)?;
    for node in nodes {
        put_node(w, &mut tails, node);
    }
    Ok(())
}
