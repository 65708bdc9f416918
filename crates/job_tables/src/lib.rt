//! What a rehearsal reads before its clients' files: two tables and a schedule, and the words of the
//! base that the tables spell.
//!
//! The promise: the first step that fails decides. Bad tables, a bad schedule and a base whose
//! records can't be had are answered exactly where the bytes at the place say so, unless a read
//! failed or memory ran out before.
//!
//! - `texts`: the texts of a job are read
//! - `bases`: what texts make
//! - `tables`: the call
#![tactic(auto)]

mod bases;
mod tables;
mod texts;

pub use bases::{dataset_with, words_of};
pub use tables::{JobBase, read_input};
