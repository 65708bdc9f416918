//! Input that is made from one number: the two tables of a base, and a request stream for each client.
//!
//! The promise: [`make_tables`] gives exactly the bytes that the generator's definition gives for a
//! wish, or answers that it is out of memory. Read as CSV, each table has the records that it was
//! made of, and no others ([`laws::tables_have_rows`]).
//!
//! What is made can also be had in pieces: the edges by [`make_edges`], and each record and line by
//! [`put_supervoxel`], [`put_edge`] and [`put_line`].
//!
//! - `wish`: what is wished for;
//! - `draws`: numbers drawn from a state;
//! - `edges`: supervoxels and edges;
//! - `texts`: tables and requests as texts;
//! - `streams`: request streams, and the call;
//! - `laws`: laws of what is made, each the contract of a function that does nothing.
#![tactic(auto)]

mod draws;
mod edges;
pub mod laws;
mod streams;
mod texts;
mod wish;

pub use edges::{MadeEdge, MadeEdges, make_edges};
pub use streams::{MadeInput, make_tables, put_line};
pub use texts::{put_edge, put_supervoxel};
pub use wish::Wish;
