//! What input is wished for.

use chunk_geometry::Grid;
use node_ids::Layout;

/// What input is wished for.
#[derive(Clone, Copy, Debug)]
pub struct Wish {
    /// The layout of the ids.
    pub layout: Layout,
    /// The base chunks along each axis, at most 2 to the power of the layout's bits.
    pub grid: Grid,
    /// The number that all is made from.
    pub number: u64,
    /// How many supervoxels there are: 1 to 1,000,000, and no more than the grid has ids for.
    pub size: u32,
    /// How many clients there are: 1 to 64.
    pub clients: u32,
    /// How many lines each client's stream has: at most 100,000.
    pub requests: u32,
}
