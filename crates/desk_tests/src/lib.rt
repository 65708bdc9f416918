//! Tests of edits and reads over rows that threads share, through the desk. Each ends by itself, and
//! comes to the same whatever the threads do first.
//!
//! - `reading`: three passes read while a fourth one does a thousand edits. Each reply is that of one
//!   whole log, and names no fewer entries than the one before.
//! - `editing`: eight passes merge the same pair. One of them does, and all others are refused.
//! - `rows`: the rows of a base of four supervoxels
#![tactic(auto)]

#[cfg(test)]
mod editing;
#[cfg(test)]
mod reading;
#[cfg(test)]
mod rows;
