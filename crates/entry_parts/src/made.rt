//! The nodes and links that an entry makes.

use node_ids::NodeId;
use row_words::Spot;

/// A node that an entry makes.
#[derive(Clone, Copy, PartialEq, Eq, Debug, Drop)]
pub struct MadeNode {
    /// The id: that of its chunk with its number in the chunk as segment.
    pub id: NodeId,
    /// The id of its chunk, with segment 0.
    pub chunk: NodeId,
    /// The least of its supervoxels.
    pub least: NodeId,
}

/// The link of a node that an entry makes to one of its children.
#[derive(Clone, Copy, PartialEq, Eq, Debug, Drop)]
pub struct MadeLink {
    /// The child: a supervoxel or a node one layer lower.
    pub child: NodeId,
    /// The node.
    pub parent: NodeId,
    /// The place of the child's record, or 0 where the entry makes the child too.
    pub child_at: Spot,
}
