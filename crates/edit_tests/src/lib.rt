//! Tests of sessions of clients that edit, byte by byte over files in memory. Nothing here is
//! proved but the tests.
//!
//! - `worked_tests`: one to three clients: merges, splits, undos and redos, refusals, a schedule, a
//!   reply that isn't written, and long lines
//! - `pair_tests`, `split_tests`: merges of several pairs, and splits of small paths
//! - `limit_tests`: ids and records that run out
//! - `device_tests`: a client's reads, a reply and the output that fail
//! - `fault_tests`: two clients that edit, while each single read, write and flush of a file fails
//!   in turn; and two calls of which the first step that failed decides
//! - `schedule_tests`: schedules that are used up, or go on behind their clients' lines, and the
//!   most clients
//! - `broken_calls`: the texts of these two clients, and what a call comes to where one fails
//! - `sessions`: tables, requests, the calls that fail, and what a call comes to
#![tactic(auto)]

#[cfg(test)]
mod broken_calls;
#[cfg(test)]
mod device_tests;
#[cfg(test)]
mod fault_tests;
#[cfg(test)]
mod limit_tests;
#[cfg(test)]
mod pair_tests;
#[cfg(test)]
mod schedule_tests;
#[cfg(test)]
mod sessions;
#[cfg(test)]
mod split_tests;
#[cfg(test)]
mod worked_tests;
