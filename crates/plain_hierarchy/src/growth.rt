//! The members that active pairs join to one of them.

ghost use Rattle.std.specs.Prelude.{◌≡◌, ℕ, true, ◌∷◌, List, [], Some, ◌&&◌, not, IsTrue, IfOk, IfSome, OnOk, ◌⊎◌};
ghost use Rattle.graph_model.specs.Lists.{has};
ghost use Rattle.graph_model.specs.Components.{component_of};
ghost use Rattle.op_model.specs.Edges.{joins, linked};
ghost use Rattle.plain_hierarchy.specs.Growth.{Grows, IsFresh};

use crate::lists::{keep, push};
use node_ids::NodeId;
use op_model::pairs::{has_id, pair_joins};
use op_model::{Edge, Pair};
use pcg_base::NoMemory;
use std::alloc::Global;

// the one end that a pair can join to this one
#[tactic(auto, unfolding(op_model::specs::Edges::joins))]
fn other_end(pair: Pair, from: NodeId) -> NodeId
    ensures { (w : ℕ) → joins pair from w ≡ true → w ≡ result }
{
    if pair.a == from { pair.b } else { pair.a }
}

// whether an active pair joins `from` to a member that isn't found yet
#[tactic(auto, unfolding(op_model::specs::Edges::linked))]
fn is_new(edge: Edge, members: &[NodeId], from: NodeId, end: NodeId, found: &[NodeId]) -> bool
    ensures { result ≡ (linked (edge ∷ []) from end && has members.now end && not (has found.now end)) }
{
    edge.active && pair_joins(edge.pair, from, end) && has_id(members, end) && !has_id(found, end)
}

// the member that an active pair joins to `from`, if it isn't found yet
fn new_end(edge: Edge, members: &[NodeId], from: NodeId, found: &[NodeId]) -> Option<NodeId>
    ensures fresh { IfSome result (IsFresh (linked (edge ∷ [])) members.now from found.now) }
    ensures others { (w : ℕ) → linked (edge ∷ []) from w ≡ true → has members.now w ≡ true → (has found.now w ≡ true) ⊎ (result ≡ Some w) }
{
    let end = other_end(edge.pair, from);
    if is_new(edge, members, from, end, found) {
        Some(end)
    } else {
        None
    }
}

// finds the member that an active pair joins to `from`
fn add_end(
    edge: Edge,
    members: &[NodeId],
    from: NodeId,
    found: &mut Vec<NodeId>,
) -> Result<(), NoMemory>
    ensures { OnOk result (Grows (linked (edge ∷ [])) members.now from found.old.items found.new.items) }
{
    match new_end(edge, members, from, found.as_slice()) {
        Some(end) => {
            push(found, end)?;
            Ok(())
        }
        None => Ok(()),
    }
}

// finds the members that active pairs join to `from`
fn add_linked(
    edges: &[Edge],
    members: &[NodeId],
    from: NodeId,
    found: &mut Vec<NodeId>,
) -> Result<(), NoMemory>
    ensures { OnOk result (Grows (linked edges.now) members.now from found.old.items found.new.items) }
{
    for edge in edges {
        add_end(*edge, members, from, found)?;
    }
    Ok(())
}

/// The members that walks of active pairs among the members join to `start`, which is one of them, in the members' order.
pub fn joined(
    alloc: Global,
    edges: &[Edge],
    members: &[NodeId],
    start: NodeId,
) -> Result<Vec<NodeId>, NoMemory>
    requires { IsTrue (has members.now start) }
    ensures { IfOk result (λ v. v.items ≡ component_of (linked edges.now) members.now start) }
{
    let mut found = Vec::new(alloc);
    push(&mut found, start)?;
    let mut next = 0;
    while next < found.len() {
        let from = found[next];
        add_linked(edges, members, from, &mut found)?;
        next += 1;
    }
    keep(alloc, members, found.as_slice())
}
