//! The records of one more entry by their places, from the nodes and links that it makes.
//!
//! The promise: behind the words of a log, [`draft_of_lists`] gives the draft of the entry. Each other
//! call gives one kind of the entry's records, with the places of what stands, and where the chains end
//! that they go on with.
//!
//! - `changes`: the changes, by the places of their pairs' edges
//! - `drafting`: the draft, from all kinds
//! - `edges`: the edges that it makes known, by the places of their ends
//! - `heads`: what the entry's own record tells
//! - `ids`: ids in ascending order
//! - `items`: the ids of a request, with their sides
//! - `links`: the links, by the places of their children and parents
//! - `nodes`: the nodes, by their chunks
#![tactic(auto)]

mod changes;
mod drafting;
mod edges;
mod heads;
mod ids;
mod items;
mod links;
mod nodes;

pub use changes::list_changes;
pub use drafting::draft_of_lists;
pub use edges::{EdgeLists, list_edges};
pub use heads::entry_head;
pub use items::{merge_items, split_items};
pub use links::{LinkLists, list_links};
pub use nodes::{NodeLists, list_nodes};
