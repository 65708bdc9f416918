//! Work over slices by lanes: eight items in one step, by `std::simd`.
//!
//! The promise: each call answers what its plain definition says of the list, for every length. No
//! call takes memory. That lanes are used, and what they bring, is no part of it.
//!
//! - `sums`: the sum of affinities.
//!
//! Levels of pairs of chunks, and cells in a box, come with the layers that need them.
#![tactic(auto)]

mod sums;

pub use sums::sum_affinities;
