//! Tests of the plans of edits, at the level of calls: what no clause shows of the locks and the plan
//! of an edit, of the changes of a root and of the active edges of an object.
//!
//! - `samples`: the worked bases, and edits as the tests write them
//! - `checks`: whether an edit is planned, refused or put as is wanted
//! - `split_tests`: worked splits; each flow is judged by `check_cut`
//! - `refusal_tests`: edits that are refused, and a component that is too large
//! - `turn_tests`: worked merges, undos and redos, the changes of roots, and ids that are spent
//! - `plain_members`, `plain_logs`, `plain_edits`, `plain_cuts`, `plain_changes`: a plain program that
//!   computes the definitions: components by relabelling, least cuts by all sets of supervoxels
//! - `drawing`: drawn bases and edits
//! - `history_tests`: the calls on drawn histories beside the plain program. Each history's bases and
//!   edits are the same in each run
#![tactic(auto)]

#[cfg(test)]
mod checks;
#[cfg(test)]
mod drawing;
#[cfg(test)]
mod history_tests;
#[cfg(test)]
mod plain_changes;
#[cfg(test)]
mod plain_cuts;
#[cfg(test)]
mod plain_edits;
#[cfg(test)]
mod plain_logs;
#[cfg(test)]
mod plain_members;
#[cfg(test)]
mod refusal_tests;
#[cfg(test)]
mod samples;
#[cfg(test)]
mod split_tests;
#[cfg(test)]
mod turn_tests;
