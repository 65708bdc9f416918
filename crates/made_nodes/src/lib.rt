//! The nodes that an entry makes in one layer, over the rows of the log before it.
//!
//! The promise: [`layer_made`] gives the nodes of a layer that hold an end of a changed pair, in the
//! order of their records, with the next numbers of their chunks; the place of the least leaf of
//! each; and the first chunk of the layer that has given a number which its ids don't hold.
//!
//! The greatest number of a chunk is that of its last node, so no other entry is looked at. Each
//! chunk is looked up once.
//!
//! - `layers`: the new nodes of a layer
//! - `finding`: where the least leaves of nodes stand
//! - `numbering`: the nodes by their chunks, and their numbers
//! - `owning`: the nodes before they have numbers
//! - `greatest`: the greatest number of a chunk
#![tactic(auto)]

mod finding;
mod greatest;
mod layers;
mod numbering;
mod owning;

pub use greatest::used;
pub use layers::{MadeLayer, layer_made};
