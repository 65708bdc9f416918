//! The words of a base and its first entry, from the layers of its octree.
//!
//! The promise: [`build`] gives the words whose records are those of the base and its first entry; and
//! if they can't be had, it names the first chunk that has more nodes than ids, or else how many
//! records there are. From the layers [`base_links`] gives the links of all nodes to their children in
//! the order of their records, and [`records_of`] how many records there are; [`base_chunks`] and
//! [`base_nodes`] give the lists of which the base's first records are made.
//!
//! - `chunking`: the chunks of all layers, and the nodes with the places of their chunks.
//! - `linking`: the links of all nodes to their children.
//! - `counting`: how many records the base and its first entry take.
//! - `building`: the words of all records.
//! - `laws`: what stands below a node.
//! - `errors`: why there are no words.
#![tactic(auto)]

mod building;
mod chunking;
mod counting;
mod errors;
mod laws;
mod linking;

pub use building::{build, build_from};
pub use chunking::{base_chunks, base_nodes, chunk_count};
pub use counting::records_of;
pub use errors::BuildError;
pub use laws::children_lead;
pub use linking::base_links;
