//! Ids in ascending order.

ghost use Rattle.std.specs.Prelude.{◌≡◌};
ghost use Rattle.op_model.specs.Operations.{ascending};

use node_ids::NodeId;

/// The same ids ascending, each once.
pub(crate) fn ascending_ids(ids: Vec<NodeId>) -> Vec<NodeId>
    ensures { result.items ≡ ascending ids.items }
{
    let mut list = ids;
    list.sort_unstable();
    list.dedup();
    list
}
