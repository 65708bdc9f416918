//! Laws of the history of a root: which entries a walk back from it meets.
//!
//! The walk keeps a list of roots. It stands on the log alone: who reads a log's records may go from
//! one entry to the next that it visits, and meets no other.
//!
//! The promise: [`laws::changes_are_visited`] says that the walk visits just the entries that made
//! or retired an ancestor of its roots. [`laws::others_are_skipped`] and [`laws::added_are_made`]
//! say where it goes next.
//!
//! - `laws`: what holds of the walk, each the contract of a function that does nothing
#![tactic(auto)]

pub mod laws;
