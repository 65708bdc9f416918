//! The pure machine that decides what a server of many clients may do: looks at the log, locks on
//! roots, pins, plans, one turn for publishing, checks, commits and replies, in any order of steps.
//!
//! A state has the operation log, 64 locks, the turn, and each client's lines, phase and replies.
//! A step is the one next event of one client. What the machine doesn't decide is a choice: the
//! clock's answer, want of memory, a failed write, and which flow is shown with a split. The
//! definitions stand in `specs/` and are best read in this order: `Machine` (states, events, runs),
//! `Play` (a schedule, and what is left to do), `Invariant` (what holds after each run), `Laws`.
//! `Worked` evaluates whole runs.
//!
//! The promise, by the laws, for every dataset, base, legal first log and allowed choices. The log
//! stays legal and the replies of each client are a transcript of its lines over it
//! ([`laws::runs_keep_log`], [`laws::replies_are_transcripts`]). Each lock and the turn have one
//! holder ([`laws::runs_keep_locks`]). An edit begins again only where an entry retired a root that
//! it touched ([`laws::again_is_forced`]). Some client may always go on until all have ended, and
//! each step leaves less to do ([`laws::none_is_stuck`], [`laws::work_falls`]).
//!
//! - `laws`: the laws, each the contract of a function that does nothing
#![tactic(auto)]

pub mod laws;
