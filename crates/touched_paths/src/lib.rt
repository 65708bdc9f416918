//! The nodes on the paths of the supervoxels whose pairs an entry changes: those that it retires.
//!
//! The promise: over words that stand for a log, [`old_paths`] gives the places of the nodes of all ends
//! of changed pairs in each layer, each once, and the roots among them.
//!
//! - `ordering`: lists put in order, each member once
//! - `climbing`: from the nodes of one layer to those of the next
//! - `paths`: all layers
#![tactic(auto)]

mod climbing;
mod ordering;
mod paths;

pub use climbing::end_ids;
pub use ordering::{ascending_ids, ascending_spots};
pub use paths::{OldPaths, old_paths};
