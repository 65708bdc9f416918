//! Two tables become the supervoxels and edges that a log begins with.
//!
//! [`read_base`] reads any two texts as CSV tables. It answers the base that they spell, or names the
//! first record with a cause, and its first cause, those of the supervoxel table before those of the edge
//! table. Each record is read once; beside the base, memory is taken for the names of its supervoxels, for
//! the pairs of its edges and for one record.
//!
//! The promise: any two texts spell one base, or have one first record with a cause, never both
//! ([`laws::two_texts_mean_one_thing`]), and [`read_base`] answers exactly that, or that it is
//! out of memory. Each text has its records and no others ([`laws::every_text_has_records`]).
//! What two texts spell is a base ([`laws::bases_are_valid`]), with no more supervoxels and edges
//! than the texts have bytes ([`laws::rows_are_few`]). The record that is named is the first
//! ([`laws::faults_are_first`]).
//!
//! - `base`: the call.
//! - `errors`: what may be wrong with a table.
//! - `records`: the records of a text, one after the other.
//! - `supervoxels`, `edges`: what the records of the two tables mean.
//! - `sorting`: ids and edges in order.
//! - `laws`: the laws, each the contract of a function that does nothing.
#![tactic(auto)]

mod base;
mod edges;
mod errors;
pub mod laws;
mod records;
mod sorting;
mod supervoxels;

pub use base::read_base;
pub use errors::{Cause, Table, TableError};
