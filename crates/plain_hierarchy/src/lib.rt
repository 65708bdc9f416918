//! The plain program of a base's hierarchy: it finds the node of a supervoxel by traversal of the active pairs inside a
//! chunk, layer by layer, straight from the base, with no stored rows.
//!
//! The promise: components, nodes, roots, paths, the first entry and the count of its records are those of the
//! operation model after the first entry alone. Each call takes time quadratic in the number of supervoxels or more: it
//! is the body that faster ones are compared with. An octree of components is from Dorkenwald et al. 2022.
//!
//! - `lists`: lists of ids.
//! - `chunks`: the supervoxels of chunks.
//! - `growth`: the search in breadth inside a chunk.
//! - `leaves`: the supervoxels of a node, and the least of them.
//! - `nodes`: the nodes of supervoxels, their roots and paths.
//! - `entry`: the entry of the ingest.
//! - `records`: how many records the base takes.
//! - `laws`: a small base begins a legal log.
#![tactic(auto)]

mod chunks;
mod entry;
mod growth;
mod laws;
mod leaves;
mod lists;
mod nodes;
mod records;

pub use entry::first_entry;
pub use laws::small_bases_are_legal;
pub use leaves::component;
pub use nodes::{node, path, root};
pub use records::record_count;
