//! What a person is told at a terminal of a call that went wrong: one plain sentence for each fault, with
//! the name of its file. Standard output has the fault line that programs read.
//!
//! The promise: [`LastLine`] is a sink that shows just what the one shows that it hands all on to. [`tell`]
//! ends, takes no memory, and fails only if a count of its sink's faults rose. What the sentences say is
//! promised nowhere.
//!
//! - `last_line`: the sink that keeps the last line of what it hands on;
//! - `reading`: the fields of that line;
//! - `texts`: what sentences say;
//! - `faults`: the sentence of each fault;
//! - `telling`: the call.
#![tactic(auto)]

mod faults;
mod last_line;
mod reading;
mod telling;
mod texts;

pub use last_line::LastLine;
pub use telling::tell;
