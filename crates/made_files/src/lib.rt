//! Files of input that is made from one number: the two tables of a base, and a request stream for each
//! client.
//!
//! The promise: [`make_files`] writes the supervoxel table, the edge table and each client's request
//! stream in order, exactly as `made_input` defines them, record by record and line by line; no text is
//! held whole. After a fault the files before it are whole, and the one that failed holds a front of its
//! text.
//!
//! - `stops`: why files weren't made;
//! - `pieces`: texts that are written piece by piece;
//! - `tables`: the tables and streams, piece by piece;
//! - `files`: one file at a place;
//! - `making`: the call.
#![tactic(auto)]

mod files;
mod making;
mod pieces;
mod stops;
mod tables;

pub use making::make_files;
pub use stops::{MadeFile, MakeStop};
