//! The draft of one more entry, from lists of what it changes, retires and makes.
//!
//! The promise: [`draft_entry`] gives a draft with which the words of a log become those of the log
//! with the entry in front. The lists tell each record by the places of others, and where chains end
//! in the records that stand. The draft fills empty pointers of those, each once.
//!
//! - `changes`: the changes
//! - `drafting`: all records, one kind behind the other
//! - `edges`: the edges
//! - `items`: the ids of the request
//! - `laws`: what the lists of an entry behind a log tell
//! - `links`: the links
//! - `lists`: the records by their places
//! - `nodes`: the nodes
//! - `owners`: the children of new nodes
//! - `putting`: edges, nodes and links from the lists
#![tactic(auto)]

mod changes;
mod drafting;
mod edges;
mod items;
pub mod laws;
mod links;
mod lists;
mod nodes;
mod owners;
mod putting;

pub use changes::EntryChange;
pub use drafting::draft_entry;
pub use items::EntryItem;
pub use lists::{EntryHead, EntryLists};
