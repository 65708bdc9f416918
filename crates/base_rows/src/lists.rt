//! The records of a base by their places.

use node_ids::NodeId;
use op_model::Edge;

/// An edge of a base, with its ends by their places in the list of supervoxels.
#[derive(Clone, Copy, PartialEq, Eq, Debug, Drop)]
pub struct BaseEdge {
    /// The edge, as the base has it.
    pub edge: Edge,
    /// The place of the lesser end.
    pub lesser: u32,
    /// The place of the greater end.
    pub greater: u32,
}

/// A node of the first entry.
#[derive(Clone, Copy, PartialEq, Eq, Debug, Drop)]
pub struct BaseNode {
    /// The node's id.
    pub id: NodeId,
    /// The least of its supervoxels.
    pub least: NodeId,
    /// The place of its chunk in the list of chunks.
    pub chunk: u32,
}

/// A child of a node of the first entry.
#[derive(Clone, Copy, PartialEq, Eq, Debug, Drop)]
pub struct BaseLink {
    /// The place of the child among the supervoxels and the nodes behind them.
    pub child: u32,
    /// The place of the parent among the nodes.
    pub parent: u32,
}

/// The records between those of the supervoxels and that of the first entry.
#[derive(Drop)]
pub struct BaseLists {
    /// The chunks, by their ids with segment 0.
    pub chunks: Vec<NodeId>,
    /// The edges.
    pub edges: Vec<BaseEdge>,
    /// The nodes.
    pub nodes: Vec<BaseNode>,
    /// The links.
    pub links: Vec<BaseLink>,
}
