//! The part of a base that an entry touches, read from record rows.
//!
//! The promise: over words that stand for a log, [`touched_part`] gives the supervoxels of the roots that
//! an entry retires, with the active pairs between them after the entry: a part of the base that no active
//! pair leads out of.
//!
//! - `leaves`: the supervoxels of roots
//! - `ends`: the places of the ends of changed pairs
//! - `edging`: the edges that changed pairs keep, and those that they gain
//! - `touched`: the part
#![tactic(auto)]

mod edging;
mod ends;
mod leaves;
mod touched;

pub use ends::end_places;
pub use leaves::leaves_of;
pub use touched::{TouchedPart, touched_part};
