//! A rehearsal: request streams of many clients, answered on one thread by a schedule.
//!
//! The promise: one legal serial history stands behind all replies and what is printed, and it is
//! that of the play of the schedule. Else the status and the one fault line say what stopped the
//! call: the first step that failed decides. `specs/Outcomes.antt` has the whole.
//!
//! - `rehearsal`: the call, step by step
//! - `clients`: the clients' files are opened, their sessions played, and the files kept back
//! - `printing`: the log and the summary
#![tactic(auto)]

mod clients;
mod printing;
mod rehearsal;

pub use printing::{stopped, summary_of};
pub use rehearsal::run_rehearse;
