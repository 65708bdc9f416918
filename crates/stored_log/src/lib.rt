//! The records of one log in memory, as the core reads and appends to them.
//!
//! The promise: a [`StoredLog`] is the core's `Rows` over the words of a log. Each read, lock mask
//! and plan is what the definitions say at that log, and each draft is that of the entry that the
//! plan makes. A commit takes no memory and can't fail: with the draft the words are those of the
//! log with the entry. [`start`] puts a core over the words of a base's first entry.
//!
//! - `logs`: the words of a log, with a draft that waits
//! - `serving`: what the core asks of them
//! - `reading`: requests, and replies to reads
//! - `planning`: the locks and the plan of an edit
//! - `drafting`: a draft that waits, and the words with it
//! - `starting`: a core over these words
#![tactic(auto)]

mod drafting;
mod logs;
mod planning;
mod reading;
mod serving;
mod starting;

pub use logs::StoredLog;
pub use starting::start;
