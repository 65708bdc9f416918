//! The operation log, read from record rows: how many entries there are, what each one is, and
//! which were there at a time.
//!
//! `length`, `head`, `last_about`, `prefix_at` and `next_entry` answer from the records of nodes,
//! links and entries: what the records of edges, changes and items hold counts for nothing but for
//! their kinds (`ParentImage` of record_rows). The other calls need the whole image. No call
//! changes what a contract sees of the words. An entry is found by halving places, so a call by an
//! entry's number takes a logarithm of the records; [`next_entry`] leads through the log in one
//! pass. Calls whose names end with `_at` take the place of an entry's record.
//!
//! The promise: from the records of nodes, links and entries, [`length`] says how many entries
//! there are, [`head`] what an entry's record tells, [`last_about`] which entry is the last one
//! about an operation, and [`prefix_at`] which prefix a time means, or why it means none. Over the
//! whole image, [`asked`] gives what was asked, in request order, and [`changed`] and
//! [`all_changed`] the changed pairs, ascending; [`last_about_by_changes`] gives what
//! [`last_about`] does, along the changes of one pair.
//!
//! - `heads`: how many entries there are, and what one's record tells
//! - `times`: which entries were there at a time
//! - `asking`: what made an entry
//! - `changing`: which pairs an entry changed
//! - `records`: the record of one entry, and the way to the entry before
//! - `marks`: the ids of an entry's request
//! - `seeking`: the record of an entry, found by halving places
//! - `turning`: the last entry about an operation, along the changes of its first pair
#![tactic(auto)]

mod asking;
mod changing;
mod heads;
mod marks;
mod records;
mod seeking;
mod times;
mod turning;

pub use asking::{asked, asked_at};
pub use changing::{
    all_changed, all_changed_at, changed, changer, first_change, later_change, next_change,
};
pub use heads::{entry_spot, head, last_about, length, next_entry};
pub use records::{Head, head_at, number};
pub use times::{TimeRefusal, prefix_at};
pub use turning::last_about_by_changes;
