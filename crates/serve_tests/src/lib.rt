//! Tests of what the server meets of the outside, and of the program's call over it. Sessions of
//! clients that edit stand in `edit_tests`. Nothing here is proved but the tests.
//!
//! - `outside_tests`: streams, places, times, gates and words in memory, each at its happy path and
//!   at calls that fail
//! - `reply_tests`: one stream of requests with a line for each reply, word by word, over a small
//!   log and over a base of one supervoxel; tables of other forms; streams that break off
//! - `form_tests`: lines that aren't UTF-8, too deep, or have a field of another form
//! - `stop_tests`: the fault lines of wrong words, of tables, of bases that are too large, and of
//!   files that don't open
//! - `device_tests`: each single call of a device fails in turn, over devices that take a byte a
//!   call and over ones that take all at once
//! - `session_tests`: the lines of a client's stream, given one by one from reads of several sizes,
//!   and a stream that breaks off
//! - `make_tests`: files that are made from a number, and one that fails
//! - `trial_tests`: input that is made and answered in memory, and too few records for it
//! - `samples`, `calls`: two tables, requests, and what a call makes of them
//! - `shut_place`: a place that opens nothing for writing
#![tactic(auto)]

#[cfg(test)]
mod calls;
#[cfg(test)]
mod device_tests;
#[cfg(test)]
mod form_tests;
#[cfg(test)]
mod make_tests;
#[cfg(test)]
mod outside_tests;
#[cfg(test)]
mod reply_tests;
#[cfg(test)]
mod samples;
#[cfg(test)]
mod session_tests;
#[cfg(test)]
mod shut_place;
#[cfg(test)]
mod stop_tests;
#[cfg(test)]
mod trial_tests;
