//! A trial: input that is made from a number, and answered at once in memory.
//!
//! The promise: [`run_trial`] prints the summary of the play of the empty schedule over the base and
//! the request streams that are made, in which each line of each client has its reply, or one fault
//! line that says why the play didn't begin. It opens no file. `specs/Trials.antt` has the whole.
//!
//! - `trial`: the call, step by step
//! - `starting`: the base's words and the streams' lines
//! - `texts`: the lines of a text in memory
//! - `playing`: the sessions are played and counted
//! - `printing`: the summary
#![tactic(auto)]

mod playing;
mod printing;
mod starting;
mod texts;
mod trial;

pub use trial::run_trial;
