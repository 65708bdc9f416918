//! Where the chains of a log's records end, read from its words.
//!
//! The promise: each call gives the one empty pointer along a chain, which the next record of the
//! chain is to fill: the last member's, or the owner's where there is none.
//!
//! - `ends`: the ends of the chains of supervoxels, nodes, chunks and edges
#![tactic(auto)]

mod ends;

pub use ends::{changes_end, edges_end, nodes_end, versions_end};
