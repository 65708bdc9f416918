//! The operation log, printed from its records.
//!
//! The promise: [`write_log`] writes one line for each entry, the oldest first, in one pass over the
//! records, and tells how many entries, records and live roots the log has.
//!
//! - `writing`: the lines of a log
#![tactic(auto)]

mod writing;

pub use writing::{LogCounts, LogError, write_log};
