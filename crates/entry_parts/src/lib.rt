//! The part of a base that an entry touches, and the nodes and links that the entry makes in it.
//!
//! A part is a list of supervoxels that holds, with each, all that is joined to it. So the nodes of its
//! supervoxels are found with no look at the rest of the base.
//!
//! - `made`: the nodes and links that an entry makes
#![tactic(auto)]

mod made;

pub use made::{MadeLink, MadeNode};
