//! The least leaves of each layer of a part of a base, as the whole base has them at a log.
//!
//! The promise: over a part that no active pair of the log leads out of, with just the pairs between its
//! supervoxels that are active there, [`next_firsts`] gives the least leaf of each supervoxel's node in a
//! layer from those of the layer below. Nothing is looked at but the part.
//!
//! - `rising`: the edges of a part by their levels, and from one layer to the next
#![tactic(auto)]

mod rising;

pub use rising::{edges_by_level, first_firsts, next_firsts};
