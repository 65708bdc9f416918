//! The records of nodes that no entry has retired.
//!
//! The promise: they are exactly those of the nodes of the whole log, one for each.
//!
//! - `laws`: this, as the contract of a function that does nothing
#![tactic(auto)]

pub mod laws;
