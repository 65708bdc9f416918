//! A server of one thread over the words of a log in memory, and the nets of objects. Benches and
//! tests of plans stand on it.
//!
//! The promise: a [`Server`]'s words are always the image of a legal log of its dataset, with room
//! for all further records of the capacity. So its calls need nothing of their caller.
//!
//! - `servers`: the server
//! - `forms`: which crate answers an edit
//! - `edits`: the locks, the plan and the entry of an edit
//! - `objects`: the root of a supervoxel, with its leaves and its active edges, and replies to reads
//! - `nets`: the net of an object's active edges, and cuts and flows over it
//! - `datasets`: datasets of given bits, grid and capacity
#![tactic(auto)]

mod datasets;
mod edits;
mod forms;
pub mod nets;
mod objects;
mod servers;

pub use datasets::dataset;
pub use servers::Server;
