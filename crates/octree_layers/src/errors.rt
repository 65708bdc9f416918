//! Why a base's octree isn't built.

use node_ids::NodeId;

/// Why a base's layers aren't built.
#[derive(Clone, Copy, Drop)]
pub enum LayersError {
    /// A chunk of the layer has more nodes than its ids have numbers. It is the first such chunk, by
    /// layers and then by ids.
    IdsSpent { layer: u8, chunk: NodeId },
    /// There was no memory for the work. It may come at any time.
    NoMemory,
}
