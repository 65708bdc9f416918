//! The server's core on one thread: clients whose steps a schedule mixes in any order, over one
//! operation log.
//!
//! Each step is an event of `session_machine`, whose laws hold of every run: the log is legal,
//! replies are as they may be, and no state is stuck. What a core is in is said by `CoreIs` in
//! `specs/Places.antt`, what a step does by `StepIs` in `specs/CoreSteps.antt`, whole runs by
//! `specs/Runs.antt` and `specs/Plays.antt`.
//!
//! The promise: [`Core::step`] is the machine's event of that client, or says that it may not go on
//! and changes nothing. [`Core::finish`] always returns, with all clients ended. After
//! [`Core::play`] the log is legal, and each client's replies are a transcript of all its lines.
//!
//! - `cores`: the core, and steps, runs and the end of all clients; `starting`: its start;
//!   `playing`: whole runs
//! - `stepping`: one step of one client; `ways`: which clients may go on
#![tactic(auto)]

mod cores;
mod playing;
mod starting;
mod stepping;
mod ways;

pub use cores::Core;
pub use starting::ClientLines;
pub use stepping::Step;
pub use ways::Way;
