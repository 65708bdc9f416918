//! Schedules: which client of a rehearsal steps next.
//!
//! A schedule is a text of clients' numbers, counted from 1, with blanks round them and at least one
//! between two. A blank is a space, a tab, a line feed or a carriage return.
//!
//! The promise: [`read_schedule`] gives the numbers in order, or tells the first word that is no
//! client's number.
//!
//! - `reading`: the numbers of a schedule
//! - `words`: the words of a text
#![tactic(auto)]

mod reading;
mod words;

pub use reading::{ScheduleError, read_schedule};
