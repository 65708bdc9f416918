//! The nodes of the octree from the records of memory, at any prefix of the operation log: roots,
//! paths, the node above a node, and the leaves of a node.
//!
//! Each answer is that of the log that the words stand for, and needs no more than the records of
//! supervoxels, chunks, nodes, links and entries tell (`ParentImage` of record_rows): what the
//! records of edges, changes and items hold counts for nothing but for their kinds, so no root is
//! computed anew from the edges. Roots and paths take no memory.
//!
//! The promise: [`root_at`] and [`path_at`] give the root and the path of a supervoxel at a prefix
//! as the definitions do; [`node_above`] one step of them, and [`top_of`] how many there are.
//! [`supervoxel_of`] gives the record of a supervoxel by its id, [`root_of`] its root, and
//! [`roots_of`] the roots of changed pairs' ends. [`leaves`] gives the leaves of a node as they were
//! when it was made. They are those that are joined at any prefix that has the node
//! ([`laws::leaves_are_joined`]), and for a root those that the definitions answer
//! ([`laws::leaves_are_told`]).
//!
//! - `nodes`: the nodes of a supervoxel at a prefix
//! - `node_leaves`: the supervoxels of a node
//! - `roots`: the roots of pairs that an entry changed
//! - `ordering`: ids put into ascending lists
//! - `laws`: what holds of the records' leaves, the contract of a function that does nothing
#![tactic(auto)]

pub mod laws;
mod node_leaves;
mod nodes;
mod ordering;
mod roots;

pub use node_leaves::leaves;
pub use nodes::{node_above, path_at, root_at, top_of};
pub use ordering::put;
pub use roots::{root_of, roots_of, supervoxel_of};
