//! The active edges among supervoxels, as changed pairs leave them.

ghost use Rattle.std.specs.Prelude.{◌≡◌, ℕ, ◌<◌, ◌≤◌, ◌&&◌, ◌++◌, true, false, nat_lt, length, map, slice_index_or, IfOk, OnOk};
ghost use Rattle.op_model.specs.declared.entry.Changed.{Changed};
ghost use Rattle.op_model.specs.Cuts.{PairsAscend};
ghost use Rattle.op_model.specs.Edges.{pair_before, same_pair};
ghost use Rattle.part_laws.specs.Touched.{active_edge, changes, gained_edges, kept_edges};

use op_model::{Changed, Edge, Pair, Weight};
use pcg_base::NoMemory;
use std::alloc::Global;

// how many of the changed pairs, which ascend, come before this one
#[tactic(auto, unfolding(op_model::specs::Edges::pair_before))]
fn place_for(changed: &[Changed], pair: &Pair) -> usize
    requires { PairsAscend (map (λ c. c.pair) changed.now) }
    ensures low { (i : ℕ) (d : Changed) → i < result → i < length changed.now → pair_before (slice_index_or changed.now i d).pair pair.now ≡ true }
    ensures high { (i : ℕ) (d : Changed) → result ≤ i → i < length changed.now → pair_before (slice_index_or changed.now i d).pair pair.now ≡ false }
{
    let (a, b) = (pair.a, pair.b);
    changed.partition_point(|c| c.pair.a < a || c.pair.a == a && c.pair.b < b)
}

// whether the two are one pair
#[tactic(auto, unfolding(op_model::specs::Edges::same_pair))]
fn is_same(one: &Pair, other: &Pair) -> bool
    ensures { result ≡ same_pair one.now other.now }
{
    one.a == other.a && one.b == other.b
}

// whether the changed pair at a place is this one
fn stands_at(changed: &[Changed], at: usize, pair: &Pair) -> bool
    ensures { (d : Changed) → result ≡ (nat_lt at (length changed.now) && same_pair (slice_index_or changed.now at d).pair pair.now) }
{
    at < changed.len() && is_same(&changed[at].pair, pair)
}

// whether one of the changed pairs, which ascend, is this one
fn is_changed(changed: &[Changed], pair: &Pair) -> bool
    requires { PairsAscend (map (λ c. c.pair) changed.now) }
    ensures { result ≡ changes changed.now pair.now }
{
    let at = place_for(changed, pair);
    stands_at(changed, at, pair)
}

// an active edge of the pair
fn active_edge(affinity: u32, pair: Pair) -> Edge
    ensures { result ≡ active_edge affinity pair }
{
    Edge {
        pair,
        weight: Weight::Affinity(affinity),
        active: true,
    }
}

// of active edges those that the changed pairs leave as they are
#[tactic(auto, unfolding(part_laws::specs::Touched::kept_edges))]
pub(crate) fn kept_edges(
    alloc: Global,
    affinity: u32,
    changed: &[Changed],
    edges: &[Edge],
) -> Result<Vec<Edge>, NoMemory>
    requires { PairsAscend (map (λ c. c.pair) changed.now) }
    ensures { IfOk result (λ v. v.items ≡ kept_edges affinity changed.now edges.now) }
{
    let mut list = Vec::new(alloc);
    for edge in edges {
        if !is_changed(changed, &edge.pair) {
            let Ok(()) = list.push(active_edge(affinity, edge.pair)) else {
                return Err(NoMemory);
            };
        }
    }
    Ok(list)
}

// puts the pairs that become active behind other edges
#[tactic(auto, unfolding(part_laws::specs::Touched::gained_edges))]
pub(crate) fn put_gained(
    list: &mut Vec<Edge>,
    affinity: u32,
    changed: &[Changed],
) -> Result<(), NoMemory>
    ensures { OnOk result (list.new.items ≡ list.old.items ++ gained_edges affinity changed.now) }
{
    for change in changed {
        if change.active {
            let Ok(()) = list.push(active_edge(affinity, change.pair)) else {
                return Err(NoMemory);
            };
        }
    }
    Ok(())
}
