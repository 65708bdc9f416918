//! What a client is answered.

use crate::entry::{Kind, Shown};
use crate::lists::{Ids, PathIds, Summaries};
use crate::request::LineError;
use node_ids::NodeId;

/// An entry as a list of changes shows it.
#[derive(Clone, Copy, PartialEq, Eq, Debug, Drop)]
pub struct Summary {
    /// The entry's number; the ingest has 0.
    pub op: u32,
    /// The entry's timestamp, in milliseconds.
    pub at: u64,
    /// What the entry is.
    pub kind: Kind,
}

/// Why a request is refused. Where several causes hold, `refused` in `specs/Refusals.antt` gives
/// the first in the order of the variants that its kind of request has.
#[derive(Clone, Copy, PartialEq, Eq, Debug, Drop)]
pub enum Refusal {
    /// A read's time is below the timestamp of the first entry, which is `first` (milliseconds).
    TooEarly { first: u64 },
    /// A read's time is above the last timestamp, which is `latest` (milliseconds).
    Unpublished { latest: u64 },
    /// An id in a supervoxel's place isn't in the base: the first in request order, pair by pair
    /// and `a` before `b`, sources before sinks.
    NoSuchSupervoxel { id: NodeId },
    /// An id in a root's place hasn't the top layer, its one chunk and a segment of at least 1.
    NotARoot { id: NodeId },
    /// No entry up to the read's time made this root.
    NoSuchRoot { id: NodeId },
    /// An undo or redo names an entry that the log hasn't.
    NoSuchOp { op: u64 },
    /// A merge names no pairs.
    NoPairs,
    /// A merge names `count` pairs, which is over 64; repeats are counted.
    TooManyPairs { count: u64 },
    /// A split has no sources, or no sinks.
    NoMarks,
    /// A split has `count` sources, or else sinks, which is over 64; repeats are counted.
    TooManyMarks { count: u64 },
    /// A source is a sink too; the first such source.
    BothSides { id: NodeId },
    /// An undo or redo names an entry that is no merge and no split.
    NotAnEdit { op: u64 },
    /// An undo names a merge or split whose last undo or redo is an undo.
    NotInForce { op: u64 },
    /// A redo names a merge or split that has no undo, or whose last undo or redo is a redo.
    InForce { op: u64 },
    /// A pair of the operation isn't in the state that the last entry about the operation left,
    /// which is the operation itself or the last undo or redo of it. Of the least such pair, `by`
    /// is the number of the last entry that changed it.
    Overtaken { by: u32 },
    /// The ends of a pair of a merge lie in one root; the first such pair's root.
    SameRoot { root: NodeId },
    /// The marks of a split lie in several roots: that of the first mark, and the first other.
    DifferentRoots { first: NodeId, other: NodeId },
    /// The component of a split's marks has `edges` active pairs, which is over 500,000.
    TooLarge { edges: u64 },
    /// A walk of glue joins a source to a sink: the first such source, then its first such sink.
    Glued { source: NodeId, sink: NodeId },
    /// The entry would need `need` records, and only `spare` are left.
    StoreFull { need: u64, spare: u64 },
    /// A chunk would need a number that is over the greatest segment of its layer: the first chunk
    /// by layer, x, y, z. The coordinates are the chunk's, in chunks of that layer.
    IdsSpent { layer: u8, x: u32, y: u32, z: u32 },
    /// The last timestamp is 2^62 - 1 milliseconds, so that no later one is left.
    ClockEnd { last: u64 },
    /// There was no memory for the work. It may come at any time.
    NoMemory,
}

/// The answer to a line. `seen` is the length of the log at which it is true.
#[derive(Drop)]
pub enum Reply {
    /// The root of a supervoxel.
    Root {
        root: NodeId,
        seen: u32,
    },
    /// The nodes of a supervoxel, from layer 2 to its root.
    Path {
        nodes: PathIds,
        seen: u32,
    },
    /// The supervoxels of a root, ascending.
    Leaves {
        leaves: Ids,
        seen: u32,
    },
    /// The entries that made or retired the root or one that became part of it, ascending.
    Changes {
        ops: Summaries,
        seen: u32,
    },
    /// The edit is the log's entry `op`, with timestamp `at` in milliseconds; it retired and made
    /// these roots, each ascending. A split shows its cut and a flow; no other edit does.
    Edited {
        op: u32,
        at: u64,
        retired: Ids,
        made: Ids,
        shown: Option<Shown>,
        seen: u32,
    },
    /// The request is refused, never for want of memory. An edit changed nothing.
    Refused {
        refusal: Refusal,
        seen: u32,
    },
    /// The line is no request, never for want of memory.
    BadLine {
        error: LineError,
    },
    /// There was no memory to answer. An edit changed nothing.
    NoMemory,
}
