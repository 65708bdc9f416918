//! The program's calls: `run` does the job that the words of the command line spell, and answers a
//! status whose cause its contract names.
//!
//! The promise: if `run` answers 0, one legal serial log stands behind all that was answered and
//! printed, each line of each client has its reply, and roots are components. Else its status and its
//! one fault line say what stopped it, and the first step that failed decides. Statuses 1, 3, 6 and 7
//! are exact but for faults and memory; 2 and 4 come only if a count of faults rose; 5 may come at
//! any time. No file but the clients' answers changes, of `make` none but those that it makes, and of
//! `trial` none.
//! `docs/CLAIMS.md` has each clause.
//!
//! - `calls`: the top call
//! - `making`: the mode that makes tables and requests from a number
//!
//! The mode that answers requests stands in `rehearsal`, and that of trials in `trials`.
#![tactic(auto)]

mod calls;
mod making;

pub use call_lines::Status;
pub use calls::run;
pub use making::run_make;
pub use pcg_words::{Job, MakeJob, Name, Names, RehearseJob, TrialJob, WordsError, read_words};
pub use rehearsal::run_rehearse;
pub use trials::run_trial;
