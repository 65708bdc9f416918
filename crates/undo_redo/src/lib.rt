//! Undo and redo: which locks one needs, and what it would change.
//!
//! The words must be the image of a legal log (`Image` of record_rows). No call changes what a
//! contract sees of them, and none walks over the log: the last entry about an operation, and the
//! last change of each of its pairs, are found along the changes of these pairs.
//!
//! The promise: [`locks`] gives the locks of the roots that an undo or redo touches, as bits of a
//! mask, or the first refusal of its operation, and takes no memory. [`plan`] gives the pairs that
//! it changes, ascending and with their new states, or the same refusal, or `NoMemory`. Room, ids
//! and time are not looked at. By `root_masks::laws::answers_last` both answers last while no root
//! of one of these locks is retired.
//!
//! - `planning`: the locks and the plan of an undo or redo
//! - `refusing`: what one is refused for, before room, ids and time count
//! - `overtaking`: pairs that aren't in the state that an entry gave them
//! - `pair_changes`: the last change of a pair
#![tactic(auto)]

mod overtaking;
mod pair_changes;
mod planning;
mod refusing;

pub use planning::{locks, plan};
