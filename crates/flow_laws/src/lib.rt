//! A flow for each least cut, and so an allowed choice for each step of a session.
//!
//! The machine of sessions wants a flow beside the cut of each split. The laws here say that there
//! always is one, so that what is proved of runs speaks of each schedule.
//!
//! The promise: [`laws::flows_exist`] says that some flow is worth what the least cut weighs, if
//! any set separates (Ford and Fulkerson 1956). [`laws::edits_are_shown`] says it of the splits of
//! a legal log. By [`laws::choices_exist`] each step of a run has an allowed choice, and by
//! [`laws::plays_exist`] each schedule has a play to its end.
//!
//! The proof augments a flow of nothing by one unit, along a walk of its residual net, until no
//! walk there leads from a source to a sink.
//!
//! - `laws`: what holds, each the contract of a function that does nothing
#![tactic(auto)]

pub mod laws;
