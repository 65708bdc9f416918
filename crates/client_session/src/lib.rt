//! A client's session: the lines of its request stream, each given once and in order, and where its
//! replies go.
//!
//! The promise: [`Session::next_line`] answers the next line of the stream, how long it is if it has
//! more than 65,536 bytes, or why no line comes any more. It goes by the definition of lines,
//! whatever pieces the source gives, and takes no memory. All that it answered before the stream
//! ended or broke off is all lines of that stream ([`lines_are_given`]).
//!
//! - `session`: sessions;
//! - `buffer`: the bytes that were taken of a stream and not yet given;
//! - `feeds`: line feeds in bytes;
//! - `found`: what a search for the next line finds;
//! - `laws`: laws of the lines that are given, each the contract of a function that does nothing.
#![tactic(auto)]

mod buffer;
mod feeds;
mod found;
mod laws;
mod session;

pub use laws::{ended_lines_are_lines, lines_are_given};
pub use session::{LineRead, Session, SessionParts, Tally};
