//! Where one client of many reads and edits.
//!
//! The promise of a [`Desk`], by what contracts see that it knows (`specs/Desks.antt`): the log that
//! its client has seen only grows; a read is answered at all of it; an edit publishes one entry and
//! its reply tells of it, or none and its reply says why. [`Seat`] is one over shared rows: a pass of
//! them, at their desk.
//!
//! - `desk`: what a desk is
//! - `seat`: a pass of shared rows
#![tactic(auto)]

mod desk;
mod seat;

pub use desk::Desk;
pub use seat::Seat;
