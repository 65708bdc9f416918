//! What the words of a log answer to any request: a read, or the locks and the plan of an edit.
//!
//! The promise: each call answers what the crate of the request's form answers, over the words of a
//! log. A reply to a read is exact but for memory. The locks are those of the roots that an edit
//! touches, or its first refusal; its plan is legal, or it is told why there is none.
//! `root_masks::laws` says that both last.
//!
//! - `reads`: the replies to reads
//! - `edits`: the locks and the plans of edits
#![tactic(auto)]

mod edits;
mod reads;

pub use edits::{locks, plan};
pub use reads::answer;
