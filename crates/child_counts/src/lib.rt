//! How many children the nodes have that an entry makes in one layer.
//!
//! The promise: they are as many as places of least leaves of the layer below whose nodes' least leaves in
//! the layer are those of new nodes. So they can be counted before ids are given. The places are those of
//! a list that has the least leaf of each of the children; it may have no other leaf of them.
//!
//! - `laws`: this, as the contract of a function that does nothing
#![tactic(auto)]

pub mod laws;
