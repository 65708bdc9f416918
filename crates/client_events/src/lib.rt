//! One event of one client of a server of many: it takes a line and looks at the log, takes and
//! gives back locks, pins, plans, takes the turn, drafts and publishes an entry, or has a reply
//! written.
//!
//! The promise: [`act`] is the event that `session_machine` has for the client, for choices that
//! are allowed (`specs/Acts.antt`). The records of the log are behind [`Rows`], and replies go to
//! an [`Outlet`]; what is owed of both stands at their methods. Of `Known` in `specs/Steps.antt`
//! the caller knows some case, and the event keeps every one. No ghost data stand in the state: the
//! client's phase determines the machine's (`phase_of` in `specs/Phases.antt`).
//!
//! - `acting`, `events`: one event of one client
//! - `looking`, `planning`, `publishing`, `releasing`, `replying`: the events
//! - `phases`, `lines`, `clients`: where clients are, their lines, and what they hold
//! - `locks`: the table of locks, and sets of lock numbers as masks
//! - `rows`: the calls that an event makes of the records of the log
//! - `outlet`: where replies go
#![tactic(auto)]

mod acting;
mod clients;
mod events;
mod lines;
mod locks;
mod looking;
mod outlet;
mod phases;
mod planning;
mod publishing;
mod releasing;
mod replying;
mod rows;

pub use acting::act;
pub use clients::{Client, Table};
pub use events::{Act, Stepped};
pub use lines::LineText;
pub use outlet::Outlet;
pub use phases::{After, Looked, Phase};
pub use rows::{Remade, Rows, Stamp};
