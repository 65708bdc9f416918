//! Why a base's records aren't built.

/// Why the records of a base aren't built.
#[derive(Clone, Copy, PartialEq, Eq, Debug, Drop)]
pub enum BuildError {
    /// A chunk has more nodes than its ids have numbers. It is the first such chunk by layer, x, y and
    /// z, which count chunks of its layer.
    IdsSpent { layer: u8, x: u32, y: u32, z: u32 },
    /// The base and its first entry need more records than the dataset's capacity, which is `given`.
    TooSmall { need: u64, given: u32 },
    /// There was no memory for the work, or the base has 2^32 supervoxels or more, whose places need
    /// more than 32 bits. It may come at any time.
    NoMemory,
}
