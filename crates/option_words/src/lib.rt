//! The words of a command line: options with a value each, and stems. `clap` reads them.
//!
//! A word `--name=value` gives an option its value, and a word `--name` takes the next word as it.
//! `--` ends the options, and every other word is a stem. Options and stems may stand in any order.
//! No option stands twice. No value and no stem is empty or begins with a hyphen.
//!
//! The promise: [`read_line`] answers what words say by this grammar, whatever options a command
//! has, and `BadWords` exactly if they aren't of it. The grammar is a definition of our own. By
//! [`laws::lines_are_claps`] it says of all words what `clap`'s own definition says.
//!
//! - `line`: the call, and what it finds;
//! - `options`: the options of a command;
//! - `laws`: laws of the grammar, each the contract of a function that does nothing.
#![tactic(auto)]

pub mod laws;
mod line;
mod options;

pub use line::{Found, WordsError, read_line};
pub use options::OptionRule;
