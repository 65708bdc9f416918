//! Merges: which locks one needs, and what it would change.
//!
//! The words must tell of the nodes and parents of a legal log (`ParentImage` of record_rows). No
//! call changes what a contract sees of them.
//!
//! The promise: [`locks`] gives the locks of the roots that a merge touches, as bits of a mask, or
//! the first refusal of its ids, its pairs or their roots, and takes no memory. [`plan`] gives the
//! pairs that it changes, ascending and each once, or the same refusal, or `NoMemory`. Room, ids
//! and time are not looked at. By `root_masks::laws::answers_last` both answers last while no root
//! of one of these locks is retired.
//!
//! - `planning`: the locks and the plan of a merge
//! - `refusing`: what a merge is refused for, before room, ids and time count
//! - `naming`: the pairs that a merge names, each once
#![tactic(auto)]

mod naming;
mod planning;
mod refusing;

pub use planning::{locks, plan};
