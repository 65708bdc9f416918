//! The plain program of a log's records: straight from the base and from the pairs that each entry
//! changes it computes every record with its eight words, as FORMATS has them.
//!
//! The promise: it never panics. Nothing else is promised: it is the program that the words of
//! hierarchy_build and hierarchy_edit are compared with, and it shares no code with them. It finds each
//! node by traversal of the active pairs inside its chunk, and each pointer by a look at all records.
//! So an entry takes time quadratic in the number of records.
//!
//! - `rows`: records with their pointers
//! - `kinds`: the records of each kind
//! - `members`: the supervoxels of chunks, and which of them active pairs join
//! - `history`: a log, entry by entry
#![tactic(auto)]

mod history;
mod kinds;
mod members;
mod rows;

pub use history::History;
pub use kinds::Asker;
pub use rows::{Chain, Row, Rows, Subject};
