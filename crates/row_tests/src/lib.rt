//! Tests of rows, of reads from them, and of the rows that are built of a base.
//!
//! Each read call is asked once of the words of one log, in which a merge is undone and done again
//! with another one in between: `find`, `chunk`, `supervoxel`, `node`, `ended`, `children`, `leaves`,
//! `first_node`, `next_node`, `last_node` and `last_version` of a node, a chunk or a supervoxel,
//! `find_edge`, `last_edge`, `last_change`, `changed` and `next_change` of an edge or a change,
//! `length`, `head`, `entry_spot`, `next_entry`, `asked`, `first_change`, `all_changed`, `last_about`,
//! `last_about_by_changes`, `prefix_at` and `entry` of entries and times, and whole replies of `answer`; `parent_at`, `root_at`, `path_at`,
//! `state_at` and `edges_of` at each prefix. What is wanted was worked out by a plain program that
//! replays the log. The contracts promise the same of every log; these show the calls at work. Parents
//! are asked for again with each record as the hint, of their child or of all links: a wrong hint
//! changes no answer.
//!
//! The words of small logs stand in `specs/Samples`, written by hand from the table of records.
//! `worked_words` shows that the definitions give them. A base that is read from its tables is built
//! into the hand-written words, and with room for a record too few it isn't.
//!
//! Then 260 bases are drawn, the same in each run: 1 to 14 supervoxels, up to 27 edges of glue,
//! active or not, in grids from one chunk to four along each axis, with coordinates of 8 and 16 bits
//! and layouts of both versions. What plain_hierarchy finds by traversal of the base alone is what is
//! wanted of hierarchy_build's words and timestamp_reader's replies from them: how many records there
//! are, the entry of the ingest, roots, paths and leaves, and each refusal. Then each word of each
//! record of an edge is written to 0, and all replies are asked for again: they are owed from the
//! nodes and their links alone. A failure names the base and the first subject that differs.
//!
//! - `samples`, `names`: words of three logs, and names of numbers that stand in them
//! - `calls`, `entry_calls`: each call, where what it requires is there
//! - `checks`: whether calls answer what is wanted, at each prefix and of lists
//! - `word_tests`, `read_tests`, `reply_tests`: the tests of the samples
//! - `edit_calls`, `edit_tests`: the locks and the plans of merges, undos and redos
//! - `datasets`, `tables`: what is drawn
//! - `wanted`: what the plain program finds
//! - `reads`, `replies`: one read, and whether its reply is what is wanted
//! - `base_checks`: all reads of a subject
//! - `emptying`: words without their records of edges
//! - `base_tests`: the bases, one after the other, and a hand-written one
#![tactic(auto)]

#[cfg(test)]
mod base_checks;
#[cfg(test)]
mod base_tests;
#[cfg(test)]
mod calls;
#[cfg(test)]
mod checks;
#[cfg(test)]
mod datasets;
#[cfg(test)]
mod edit_calls;
#[cfg(test)]
mod edit_tests;
#[cfg(test)]
mod emptying;
#[cfg(test)]
mod entry_calls;
#[cfg(test)]
mod names;
#[cfg(test)]
mod read_tests;
#[cfg(test)]
mod reads;
#[cfg(test)]
mod replies;
#[cfg(test)]
mod reply_tests;
#[cfg(test)]
mod samples;
#[cfg(test)]
mod tables;
#[cfg(test)]
mod wanted;
#[cfg(test)]
mod word_tests;
