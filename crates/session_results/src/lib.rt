//! The sessions of many clients, played by the core over one log, and what each came to.
//!
//! The promise: [`play_sessions`] plays a schedule over the lines of all clients. One legal log
//! stands behind all replies, each client's replies are a transcript of its lines, and the faults
//! and the counts are those of the sessions.
//!
//! - `starting`: a core before its first step
//! - `playing`: it is played and taken apart
//! - `counting`: the faults of sessions, and how many replies were written
#![tactic(auto)]

mod counting;
mod playing;
mod starting;

pub use playing::{SessionsDone, SessionsEnd, play_sessions};
