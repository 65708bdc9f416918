//! The order of pairs, and edges put into it.

ghost use Rattle.std.specs.Prelude.{◌≡◌, IsPermutation, IsSortedBy};
ghost use Rattle.op_model.specs.declared.base.Edge.{Edge};
ghost use Rattle.op_model.specs.Edges.{same_pair, pair_before};

use op_model::{Edge, EdgeList, Pair};

/// Whether one pair is before the other.
#[tactic(auto, unfolding(op_model::specs::Edges::pair_before))]
pub fn is_before(one: &Pair, other: &Pair) -> bool
    ensures { result ≡ pair_before one.now other.now }
{
    one.a < other.a || one.a == other.a && one.b < other.b
}

/// Whether the two are one pair.
#[tactic(auto, unfolding(op_model::specs::Edges::same_pair))]
pub fn is_same(one: &Pair, other: &Pair) -> bool
    ensures { result ≡ same_pair one.now other.now }
{
    one.a == other.a && one.b == other.b
}

/// The same edges by their pairs, in time n log n, and n for a list that ascends.
pub(crate) fn ascending(edges: Vec<Edge>) -> EdgeList
    ensures same { IsPermutation edges.items result }
    ensures sorted { IsSortedBy (λ (e : Edge) (f : Edge). pair_before e.pair f.pair) result }
{
    let mut list = edges;
    list.sort_unstable_by_key(|edge| (edge.pair.a.0, edge.pair.b.0));
    EdgeList { list }
}
