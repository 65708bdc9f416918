//! The active edges of an object, from the records of memory: those among the leaves of a root, and
//! those that lead out of a node.
//!
//! Each answer is that of the log whose image the words are (`Image` of record_rows), at any prefix
//! of it, and has each edge once.
//!
//! The promise: [`edges_among`] gives the active edges both of whose ends are among given
//! supervoxels, ascending by pair, or how many there are where these are more than were allowed;
//! [`component`] those among the leaves of a node. For a root they are the part of the log that a
//! split of its leaves looks at ([`laws::parts_are_among`]). [`cross`] gives the active edges that lead
//! out of a node.
//!
//! - `among`: the active edges among supervoxels
//! - `crossing`: the active edges that lead out of a node
//! - `taking`: edges that are met one by one, of which a list keeps no more than were allowed
//! - `laws`: what holds of these edges, the contract of a function that does nothing
#![tactic(auto)]

mod among;
mod crossing;
pub mod laws;
mod taking;

pub use among::{AmongError, component, edges_among};
pub use crossing::cross;
