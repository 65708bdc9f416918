//! Edges and their states, read from record rows.
//!
//! Each answer is that of the log whose image the words are: `Image` of record_rows says which
//! words are meant. No call changes what a contract sees of the words.
//!
//! The promise: over the image of a legal log, [`find_edge`] gives the record of a pair, or says
//! that there is none; [`state_at`] the state of an edge at a prefix; [`edges_of`] a supervoxel's
//! edges there with their states, ascending; [`last_edge`] and [`last_change`] the ends of both
//! chains.
//!
//! - `chains`: from one record of a chain to the next
//! - `fields`: what the words of an edge or a change tell
//! - `base_edges`: the record of a base's edge, by halving
//! - `finding`: the record of a pair, and the ends of chains
//! - `states`: the state of an edge at a prefix
//! - `ordering`: the order of pairs, and edges put into it
//! - `listing`: the edges of a supervoxel at a prefix
#![tactic(auto)]

mod base_edges;
mod chains;
mod fields;
mod finding;
mod listing;
mod ordering;
mod states;

pub use finding::{find_edge, last_change, last_edge};
pub use listing::edges_of;
pub use ordering::{is_before, is_same};
pub use states::state_at;
