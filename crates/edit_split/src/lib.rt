//! Splits: which locks one needs, and what it would change.
//!
//! The promise: [`locks`] gives the locks of the root that a split touches, as bits of a mask, or
//! its first refusal for ids, marks or roots, and takes no memory. [`plan`] gives the pairs of the
//! least cut with the least source side, their weight and a flow that shows it, or the first
//! refusal but for room, ids and time. `specs/Plans.antt` of root_masks says what locks and plans
//! are; the definitions are those of op_model.
//!
//! - `planning`: the locks and the plan of a split
//! - `refusing`: what a split is refused for, before its component is looked at
//! - `cutting`: the component of a split's marks, and its least cut
#![tactic(auto)]

mod cutting;
mod planning;
mod refusing;

pub use planning::{locks, plan};
