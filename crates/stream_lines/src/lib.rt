//! All lines of a client's stream, read before its session begins.
//!
//! The promise: [`read_lines`] gives each line of a stream once and in order, as its session gives
//! them, and how the stream ended. A line of more than 65,536 bytes is kept as its length alone.
//! [`read_source`] does so for a source by itself, and gives it back.
//!
//! - `reading`: the lines of a stream
//! - `taking`: its next line
#![tactic(auto)]

mod reading;
mod taking;

pub use reading::{SourceRead, StreamLines, read_lines, read_source};
pub use taking::NoAnswers;
