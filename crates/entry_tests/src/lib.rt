//! Tests of `remake` and `commit` of hierarchy_edit at the level of calls.
//!
//! The worked edits: each plan, the roots that its entry retires and makes, how many records there
//! are behind it, and each refusal of the store, the ids and the clock were worked out by hand from
//! the definition. The words of two logs were written by hand.
//!
//! Then 160 histories are drawn, the same in each run. A base has 1 to 20 supervoxels in a grid of
//! one to four chunks along an axis. Coordinates have 8 or 16 bits, and layouts both versions. Up
//! to six edits follow: merges, splits, undos and redos. In 40 more histories a merge has up to 64
//! pairs.
//!
//! After the ingest and after each `commit` every word is compared with that of plain_history,
//! which computes it from the base and the changed pairs alone. So are the number, the timestamp
//! and the roots that are told. The tests also ask that enough edits of each kind were accepted.
//!
//! - `names`, `samples`: names of numbers, and words that were written by hand
//! - `bases`, `datasets`, `tables`: written bases, and drawn ones
//! - `calls`: the calls of an edit, where what they require is there
//! - `edits`: edits of tables, and drawn ones
//! - `steps`: one edit, and whether its entry is that of the plain program
//! - `sessions`: tables of edits, and whether each comes to what is wanted
//! - `worked_tests`, `drawn_tests`: the tests
#![tactic(auto)]

#[cfg(test)]
mod bases;
#[cfg(test)]
mod calls;
#[cfg(test)]
mod datasets;
#[cfg(test)]
mod drawn_tests;
#[cfg(test)]
mod edits;
#[cfg(test)]
mod names;
#[cfg(test)]
mod samples;
#[cfg(test)]
mod sessions;
#[cfg(test)]
mod steps;
#[cfg(test)]
mod tables;
#[cfg(test)]
mod worked_tests;
