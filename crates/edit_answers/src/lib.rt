//! Laws: what is answered of the locks and the plan of an edit is what the core asks of its records.
//!
//! The core asks for lists of lock numbers, and for the parts of a plan; the crates of edits answer
//! in the words of `specs/Plans.antt` of root_masks. An implementation of the core's trait `Rows`
//! cites [`laws::locks_answer`] and [`laws::plans_answer`] where it calls them.
#![tactic(auto)]

pub mod laws;
