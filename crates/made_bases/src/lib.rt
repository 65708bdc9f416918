//! The base of input that is made from a number.
//!
//! The promise: the tables that are made for a wish spell a base, whose supervoxels and edges are
//! those that were made ([`laws::tables_are_read`]). [`made_base`] answers that base, or that it is
//! out of memory; [`base_and_streams`] answers the made request streams with it.
//!
//! - `reading`: the call;
//! - `laws`: laws of what the made tables spell, each the contract of a function that does nothing.
#![tactic(auto)]

pub mod laws;
mod reading;

pub use reading::{BaseAndStreams, base_and_streams, made_base};
