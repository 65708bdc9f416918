//! Tests of rows and locks that threads share. Each ends by itself, and comes to the same whatever the
//! threads do first.
//!
//! - `publishing`: three passes look while a fourth one publishes. The log begins with one entry, and
//!   gets a second one. Each look sees the words of one of the two logs, and never fewer entries than
//!   the look before. A thousand such tables are made, one after the other. Each is closed, and gives
//!   the words of the second log.
//! - `locking`: eight passes lock masks that overlap, a thousand times each. They pin, take turns and
//!   look. A lock that two passes held at once would show in a word beside the table.
//! - `samples`: the words of the first log, and the draft of the second entry, written by hand
//! - `ending`: the passes are gathered, and the rows are closed
//!
//! There is no call yet that makes records of an entry, so the tests have this one entry.
#![tactic(auto)]

#[cfg(test)]
mod ending;
#[cfg(test)]
mod locking;
#[cfg(test)]
mod publishing;
#[cfg(test)]
mod samples;
