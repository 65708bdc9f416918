//! The lists of a base.

ghost use Rattle.std.specs.Prelude.{◌≡◌};

use node_ids::NodeId;
use op_model::{Base, Edge};

/// The supervoxels of a base.
pub fn ids_of(base: &Base) -> &[NodeId]
    ensures { result.now ≡ base.now.supervoxels }
{
    base.supervoxels.list.as_slice()
}

/// The edges of a base.
pub fn edges_of(base: &Base) -> &[Edge]
    ensures { result.now ≡ base.now.edges }
{
    base.edges.list.as_slice()
}
