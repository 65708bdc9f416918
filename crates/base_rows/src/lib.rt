//! The records of a base and its first entry, put one behind the other.
//!
//! The promise: [`base_words`] gives the words of the header, supervoxels, chunks, edges, nodes,
//! links and first entry of a base, in this order, from lists that tell each record by the spots
//! of others. It leaves room for all the records of the capacity, or answers that it is out of
//! memory.
//!
//! - `building`: all of them
//! - `edges`: the edges
//! - `links`: the links
//! - `lists`: the records by their places
//! - `nodes`: the nodes
//! - `owners`: the header, supervoxels and chunks
//! - `tails`: where chains end
#![tactic(auto)]

mod building;
mod edges;
mod links;
mod lists;
mod nodes;
mod owners;
mod tails;

pub use building::base_words;
pub use lists::{BaseEdge, BaseLink, BaseLists, BaseNode};
