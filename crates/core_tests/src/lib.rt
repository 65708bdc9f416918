//! Tests of the core by its own calls: `start`, `step` and `finish` over the records of a log in
//! memory, with an outlet that collects what is put. Texts have exact bytes.
//!
//! - `worked_tests`: worked rows of one client, and two and three clients under a schedule, step by
//!   step
//! - `refusal_tests`: refusals, behind which the log, its records, the locks and the turn are as
//!   before
//! - `playing`: the steps of a session, and what they came to
//! - `cores`: a session's core before its first step
//! - `outlets`: an outlet that collects
//! - `texts`: requests and replies with names for ids
#![tactic(auto)]

#[cfg(test)]
mod cores;
#[cfg(test)]
mod outlets;
#[cfg(test)]
mod playing;
#[cfg(test)]
mod refusal_tests;
#[cfg(test)]
mod texts;
#[cfg(test)]
mod worked_tests;
