//! Why files weren't made.

/// A file that is made.
#[derive(Clone, Copy, Debug, PartialEq, Eq)]
pub enum MadeFile {
    /// The supervoxel table.
    Supervoxels,
    /// The edge table.
    Edges,
    /// The request stream of a client, who are counted from 1.
    Requests { client: u32 },
}

/// Why files weren't made.
#[derive(Clone, Copy, Debug, PartialEq, Eq)]
pub enum MakeStop {
    /// This file couldn't be opened, or a write to it failed. A count of faults rose.
    Failed { file: MadeFile },
    /// Memory ran out.
    NoMemory,
}
