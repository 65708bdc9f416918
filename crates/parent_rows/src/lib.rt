//! Nodes and their parents, read from record rows: the record of an id, the nodes of a chunk, the
//! parents and children of a node, and which entry retired it.
//!
//! Each answer is that of the log that the words stand for. What the records of edges, changes and
//! items hold counts for nothing but for their kinds: `ParentImage` of record_rows says which words
//! are meant. No call changes what a contract sees of the words.
//!
//! The promise: [`find`] and [`chunk`] give the record of an id or a chunk, or say that there is
//! none; [`node`] what a node's record tells; [`children`] its children, ascending;
//! [`first_node`], [`next_node`] and [`last_node`] the nodes of a chunk, ascending; [`parent_at`]
//! the parent at a prefix; [`ended`] the entry that retired a node, if it is below a prefix;
//! [`last_version`] the newest link of a child. Each answer is that of every legal log of whose
//! nodes and parents the words tell.
//!
//! - `finding`: the records of supervoxels, chunks and nodes
//! - `nodes`: what a node's record tells, and its children
//! - `chunk_nodes`: the nodes of a chunk
//! - `near`: where a walk along a chunk's nodes may start
//! - `runs`: steps over the nodes that one entry made in one chunk
//! - `skips`: where a walk along a child's links may start
//! - `versions`: the parents of a supervoxel or a node, entry by entry
#![tactic(auto)]

mod chunk_nodes;
mod finding;
mod near;
mod nodes;
mod runs;
mod skips;
mod versions;

pub use chunk_nodes::{first_node, last_node, next_node};
pub use finding::{chunk, find};
pub use nodes::{NodeRow, children, ended, node};
pub use versions::{last_version, parent_at};
