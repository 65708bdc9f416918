//! The texts of replies and of log lines: compact JSON, one line each, written to a sink exactly
//! and without memory. And the requests of lines, read exactly: what a line asks, or the first
//! cause for which it is no request, is a function of the value that `serde_json` reads from it.
//!
//! The promise: each reply and log line is written as its text, exactly, or a front of it if the
//! sink failed. [`split_line`] cuts lines at line feeds. [`read_line`] answers what a line asks,
//! or the first cause for which it is no request, exactly, or that it is out of memory.
//!
//! - `replies`, `refused`: the replies;
//! - `entries`: the lines of the operation log;
//! - `lines`: the lines of a stream;
//! - `items`, `lists`: ids, pairs and carries, and lists of them;
//! - `reading`, `fields`: the request of a line, and its fields;
//! - `page`: the page on which a text waits for its sink.
#![tactic(auto)]

mod entries;
mod fields;
mod items;
mod lines;
mod lists;
mod page;
mod reading;
mod refused;
mod replies;

pub use entries::write_entry;
pub use lines::split_line;
pub use lists::{Written, put_list};
pub use page::Page;
pub use reading::read_line;
pub use replies::write_reply;
