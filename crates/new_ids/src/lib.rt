//! The ids of the nodes that an entry makes, and the pairs that it makes known: no record before the
//! entry has them.
//!
//! The promise: behind a legal log the new nodes of a legal entry have ids that differ, and none of
//! the log's supervoxels, nodes and links has one of them. No change of a new pair stands in the log.
//!
//! - `laws`: this, as the contract of a function that does nothing
#![tactic(auto)]

pub mod laws;
