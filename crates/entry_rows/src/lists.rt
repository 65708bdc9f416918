//! What one more entry changes, retires and makes, by places.

use crate::changes::EntryChange;
use crate::items::EntryItem;
use base_rows::{BaseEdge, BaseLink, BaseNode};
use node_ids::NodeId;
use row_append::Tail;
use row_words::Spot;

/// What the entry's own record tells.
#[derive(Clone, Copy, PartialEq, Eq, Debug, Drop)]
pub struct EntryHead {
    /// What made it: 1 for a merge, 2 for a split, 3 for an undo, 4 for a redo.
    pub kind: u8,
    /// The operation that an undo or redo names, else 0.
    pub names: u32,
    /// Its timestamp in milliseconds.
    pub at: u64,
    /// The client that asked it.
    pub client: u32,
    /// The client's line that asked it.
    pub line: u32,
    /// How many entries stand before it.
    pub number: u32,
    /// The place of the entry before it.
    pub before: Spot,
}

/// The records of one more entry, in the order in which they are to stand, and where those before
/// them end.
#[derive(Drop)]
pub struct EntryLists {
    /// What the entry's own record tells.
    pub head: EntryHead,
    /// The edges that it makes known, with their ends by places in some list of supervoxels.
    pub edges: Vec<BaseEdge>,
    /// Where the edges of each of those supervoxels end.
    pub edge_ends: Vec<Tail>,
    /// The nodes that it makes, with their chunks by places in some list of chunks.
    pub nodes: Vec<BaseNode>,
    /// Where the nodes of each of those chunks end.
    pub node_ends: Vec<Tail>,
    /// The children of those nodes that stand already: supervoxels and nodes.
    pub kept: Vec<NodeId>,
    /// The places of those children.
    pub kept_places: Vec<Spot>,
    /// Where the links of each of those children end.
    pub kept_ends: Vec<Tail>,
    /// The links: a child by its place among the children that stand and the new nodes behind them,
    /// a parent by its place among the new nodes.
    pub links: Vec<BaseLink>,
    /// The ids of the request.
    pub items: Vec<EntryItem>,
    /// The changes.
    pub changes: Vec<EntryChange>,
    /// The places of the nodes that it retires.
    pub retired: Vec<Spot>,
}
