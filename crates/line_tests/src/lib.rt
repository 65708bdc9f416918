//! Tests of ids, chunks, pairs and lists, lines, tables and the command line. They show what no contract says: each
//! public call once at concrete types, the texts of replies, entries and lines as they are printed, each cause for which
//! a line, a table or a command line is refused, and sinks that fail.
//!
//! What is wanted was worked out by hand, is a row of the worked sessions, or was made by a second program.
//!
//! - `ids`: ids, their parts and their digits
//! - `chunks`: grids, layers and levels
//! - `pairs`: pairs, ids and edges in lists
//! - `replies`: the texts of replies and of log entries, and sinks that fail
//! - `lines`: the requests of lines, and the answers to lines that are none
//! - `tables`: the base that two tables spell, and each cause in its place
//! - `words`: the words of the command line
//! - `options`: command lines of options and stems
//! - `inputs`: tables and request streams that are made from a number
#![tactic(auto)]

#[cfg(test)]
mod chunks;
#[cfg(test)]
mod ids;
#[cfg(test)]
mod inputs;
#[cfg(test)]
mod lines;
#[cfg(test)]
mod options;
#[cfg(test)]
mod pairs;
#[cfg(test)]
mod replies;
#[cfg(test)]
mod tables;
#[cfg(test)]
mod words;
