//! Lists put in order, each member once.

ghost use Rattle.std.specs.Prelude.{◌≡◌, ℕ};
ghost use Rattle.graph_model.specs.Lists.{has};
ghost use Rattle.op_model.specs.Valid.{IsAscending};

use node_ids::NodeId;
use row_words::Spot;

/// The ids of a list ascending, each once. No memory is taken; time is n log n.
pub fn ascending_ids(list: Vec<NodeId>) -> Vec<NodeId>
    ensures ascending { IsAscending result.items }
    ensures same { (v : ℕ) → has result.items v ≡ has list.items v }
{
    let mut list = list;
    list.sort_unstable();
    list.dedup();
    list
}

/// The places of a list ascending, each once. No memory is taken; time is n log n.
pub fn ascending_spots(list: Vec<Spot>) -> Vec<Spot>
    ensures ascending { IsAscending result.items }
    ensures same { (p : ℕ) → has result.items p ≡ has list.items p }
{
    let mut list = list;
    list.sort_unstable();
    list.dedup();
    list
}
