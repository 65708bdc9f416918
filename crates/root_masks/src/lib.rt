//! What edits ask of supervoxels: whether the base has them, what their roots are at the whole log,
//! and which locks these roots have.
//!
//! No call takes memory, and none changes what a contract sees of the words. The words must tell of
//! the nodes and parents of a legal log (`ParentImage` of record_rows).
//!
//! The promise: [`is_known`] and [`root_now`] tell what the definitions do. [`with_ends`] adds just
//! the locks of two roots to a mask. `specs/Plans.antt` says what the locks and the plan of an edit
//! are, for the crates above. By [`laws::answers_last`] such an answer stays right at a later log,
//! as long as no root of one of these locks is retired.
//!
//! - `roots`: supervoxels and their roots
//! - `masks`: the locks of roots, as bits of a mask
//! - `laws`: what holds of locks and plans, each the contract of a function that does nothing
#![tactic(auto)]

pub mod laws;
mod masks;
mod roots;

pub use masks::{lock_number, with_ends, with_lock, with_root};
pub use roots::{is_known, root_now};
