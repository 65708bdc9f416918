//! The nodes and links that an entry makes in all layers, where the entry only makes pairs active, over
//! the rows of the log before it.
//!
//! The promise: [`united_layers`] gives what `entry_layers` gives, and looks at no edge and at no more
//! leaves than the entry links anew. Such an entry unites nodes. So of each object that it touches the
//! retired nodes and their children tell all, each child by its least leaf.
//!
//! - `joints`: pairs of supervoxels that are of one node from some layer on
//! - `reading`: the joints of retired nodes with their children, and of changed pairs
//! - `listing`: the supervoxels of joints, and the joints by their places
//! - `guessing`: where the records of children may stand
//! - `layering`: the layers, one from the other
#![tactic(auto)]

mod guessing;
mod joints;
mod layering;
mod listing;
mod reading;

pub use layering::united_layers;
