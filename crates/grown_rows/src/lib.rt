//! Records of a later entry on their way into the words: a draft that grows record by record.
//!
//! The promise: each `push` call puts one record behind the others, and makes the pointers that are
//! to lead to it do so. A pointer of a record that stood before is filled by a link of the draft,
//! one of a new record in its words. At every moment the words with the draft applied are exactly
//! those of the longer list of records. The draft of [`draft_of`] fills empty pointers, each once,
//! with places of its own records.
//!
//! - `drafting`: the draft at its begin and at its end
//! - `entries`: items, changes and the entry's own record
//! - `growing`: the words of new records, and the pointers of those before that lead to them
//! - `laws`: where chains end in records that stand already
//! - `pushing`: edges, nodes and links
#![tactic(auto)]

mod drafting;
mod entries;
mod growing;
pub mod laws;
mod pushing;

pub use drafting::{begin, draft_of};
pub use entries::{NewEntry, push_change, push_entry, push_item};
pub use growing::Growth;
pub use pushing::{push_edge, push_link, push_node};
