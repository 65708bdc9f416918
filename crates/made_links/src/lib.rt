//! The links of the nodes that an entry makes in one layer to their children, over the rows of the
//! log before it.
//!
//! The promise: [`layer_links`] gives a link for each child of each new node, by the nodes in the
//! order of their records and then by the ids of the children. A child that the entry makes too is
//! told by the layer below; for another one the record that stands is found where the caller guesses
//! it, if the words tell that it is there, else by climbing from its least leaf.
//!
//! - `climbing`: the record of a child that stands
//! - `finding`: the children of the new nodes
//! - `links`: the links
//! - `ordering`: the children by their parents, and by their ids
//! - `ranking`: where nodes stand in their layer
#![tactic(auto)]

mod climbing;
mod finding;
mod links;
mod ordering;
mod ranking;

pub use links::layer_links;
