//! What a part of a base tells of the whole base.
//!
//! The promise: where no active pair of a log leads out of a part, the part by itself, as a base at its
//! first entry, has the nodes that the whole base has at the log.
//!
//! - `laws`: this, as the contract of a function that does nothing
#![tactic(auto)]

pub mod laws;
