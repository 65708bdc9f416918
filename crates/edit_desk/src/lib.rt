//! Reads and edits of one client of many, over the record rows that all of them share.
//!
//! The promise, of a pass that holds nothing when the call begins, and holds nothing when it ends:
//! - [`SharedDesk::read`] makes exactly one look, waits for nobody, and answers at the log that it sees.
//! - [`SharedDesk::edit`] publishes exactly one entry behind all that the pass had seen, which is the
//!   edit's, and its reply tells of it; or it publishes none, and its reply is the edit's refusal at the
//!   log that it saw last, or `NoMemory`. A plan that was made at a pin still holds in the turn, since
//!   the locks of all roots that the edit touches are pinned.
//!
//! `specs/Desk.antt` has both in full. All memory of an edit is taken before its first record is stored.
//!
//! - `desk`: both calls
//! - `pinning`: the locks of an edit are taken and pinned, and it is seen whether they are the right ones
//! - `turning`: the part of an edit in its turn
//! - `publishing`: its entry is drafted and published
//! - `replies`: what is replied
#![tactic(auto)]

mod desk;
mod pinning;
mod publishing;
mod replies;
mod turning;

pub use desk::SharedDesk;
