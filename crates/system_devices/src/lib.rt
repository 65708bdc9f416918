//! What the system gives the program: the folder that it runs in as a place, files and the standard
//! output as sources and sinks, the clock, and the words of the command line.
//!
//! The promise: each adapter counts each error that it answers, at the name where it came, and
//! answers none that it didn't count. This crate is the edge that is trusted: that an opened file,
//! the standard output and the clock do what the system says. No clause speaks of the bytes of real
//! files.
//!
//! - `streams`: files and the standard output, as sources and sinks
//! - `folder`, `seen`: the folder as a place, and what it keeps beside each name
//! - `system_clock`: the time
//! - `command_line`: the words
#![tactic(auto)]

mod command_line;
mod folder;
mod seen;
mod streams;
mod system_clock;

pub use command_line::words;
pub use folder::Folder;
pub use streams::{Incoming, Outgoing};
pub use system_clock::SystemClock;
