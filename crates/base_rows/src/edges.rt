//! The records of edges.

ghost use Rattle.std.specs.Prelude.{◌≡◌, ℕ, List, ◌≤◌, ◌<◌, ◌+◌, ◌-◌, ◌*◌, ◌^◌, ◌++◌, [], ◌∷◌, length, OnOk};
ghost use Rattle.std.specs.List.{All};
ghost use Rattle.op_model.specs.declared.base.Dataset.{Dataset};
ghost use Rattle.record_rows.specs.Rows.{Row, EdgeRow};
ghost use Rattle.record_rows.specs.Words.{words_of};
ghost use Rattle.base_rows.specs.Lists.{IsOnce, IsPlaced};
ghost use Rattle.base_rows.specs.BaseRows.{edged_rows, owner_rows};
ghost use Rattle.base_rows.specs.States.{Edging};

use crate::lists::BaseEdge;
use crate::tails::put_tails;
use node_ids::NodeId;
use pcg_base::{NoMemory, VecWords};
use row_append::{Tail, push_edge};
use std::alloc::Global;

// puts an edge behind the others, with the places where the edges of each supervoxel end
fn put_edge(w: &mut VecWords, tails: &mut Vec<Tail>, edge: &BaseEdge)
    requires places { length w.old.words < 8 * 2 ^ 32 }
    requires room { 8 ≤ w.old.spare }
    requires state { (ids : List ℕ) × (rows : List Row) × Edging ids rows w.old.words tails.old.items × IsPlaced ids edge.now }
    ensures state { (ids : List ℕ) (rows : List Row) → Edging ids rows w.old.words tails.old.items → IsPlaced ids edge.now
        → Edging ids (rows ++ EdgeRow 0 edge.now.edge ∷ []) w.new.words tails.new.items }
    ensures length { length w.new.words ≡ length w.old.words + 8 }
    ensures room { w.new.spare ≡ w.old.spare - 8 }
{
    let lesser = edge.lesser as usize;
    let greater = edge.greater as usize;
    let spot = push_edge(w, edge.edge, tails[lesser], tails[greater]);
    tails[lesser] = Tail { spot, word: 5 };
    tails[greater] = Tail { spot, word: 6 };
}

/// Puts the edges behind the chunks.
///
/// # Errors
///
/// `NoMemory` where there is none for the ends of chains.
pub(crate) fn put_edges(
    alloc: Global,
    w: &mut VecWords,
    ids: &[NodeId],
    edges: &[BaseEdge],
) -> Result<(), NoMemory>
    requires places { (1 + length ids.now < 2 ^ 32) × (length w.old.words + 8 * length edges.now < 8 * 2 ^ 32) }
    requires room { 8 * length edges.now ≤ w.old.spare }
    requires once { IsOnce ids.now }
    requires placed { All (IsPlaced ids.now) edges.now }
    requires owners { (d : Dataset) × (chunks : List ℕ) × (w.old.words ≡ words_of (owner_rows d ids.now chunks)) }
    ensures words { (d : Dataset) (chunks : List ℕ) → w.old.words ≡ words_of (owner_rows d ids.now chunks) → OnOk result (w.new.words ≡ words_of (edged_rows d ids.now chunks edges.now)) }
    ensures length { OnOk result (length w.new.words ≡ length w.old.words + 8 * length edges.now) }
    ensures room { OnOk result (w.new.spare ≡ w.old.spare - 8 * length edges.now) }
{
    let mut tails = Vec::new(alloc);
    put_tails(&mut tails, 1, ids.len() as u32, 4)?;
    for edge in edges {
        put_edge(w, &mut tails, edge);
    }
    Ok(())
}
