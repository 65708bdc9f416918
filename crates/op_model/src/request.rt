//! What a client may ask by a line, and why a line asks nothing.

use crate::lists::{AskedPairs, Ids};
use node_ids::NodeId;

/// A pair as a merge names it, its ends in the order asked.
#[derive(Clone, Copy, PartialEq, Eq, Debug, Drop)]
pub struct AskedPair {
    /// The end named first, in the place of a supervoxel.
    pub a: NodeId,
    /// The end named second, in the place of a supervoxel.
    pub b: NodeId,
}

/// A request that changes nothing. With a time `at`, in milliseconds, it is asked of the entries
/// whose timestamp is at most that; without one, of the whole log.
#[derive(Clone, Copy, Drop)]
pub enum Read {
    /// The root of a supervoxel.
    Root { sv: NodeId, at: Option<u64> },
    /// The nodes of a supervoxel, from layer 2 to its root.
    Path { sv: NodeId, at: Option<u64> },
    /// The supervoxels of a root, also of a retired one.
    Leaves { root: NodeId, at: Option<u64> },
    /// The entries that made or retired the root or one that became part of it.
    Changes { root: NodeId, at: Option<u64> },
}

/// A request that appends an entry.
#[derive(Drop)]
pub enum Edit {
    /// Makes pairs active: 1 to 64 of them, repeats counted. Each one's ends lie in different
    /// roots. A pair that is no edge yet becomes one, with the dataset's merge affinity.
    Merge { pairs: AskedPairs },
    /// Makes the pairs of the least cut between sources and sinks inactive. On each side stand 1
    /// to 64 marks, repeats counted, all of them in one root.
    Split { sources: Ids, sinks: Ids },
    /// Gives each pair that the merge or split with this number changed the opposite state.
    Undo { op: u64 },
    /// Gives each pair that the merge or split with this number changed the state that it gave.
    Redo { op: u64 },
}

/// What a line asks.
#[derive(Drop)]
pub enum Request {
    /// A request that changes nothing.
    Read(Read),
    /// A request that appends an entry.
    Edit(Edit),
}

/// A field of a request line, printed as its name in lower case.
#[derive(Clone, Copy, PartialEq, Eq, Debug, Drop)]
pub enum FieldName {
    /// Which request it is.
    Do,
    /// A supervoxel's id.
    Sv,
    /// A time in milliseconds.
    At,
    /// A root's id.
    Root,
    /// The first end of a merge of one pair.
    A,
    /// The second end of a merge of one pair.
    B,
    /// The sources of a split.
    Sources,
    /// The sinks of a split.
    Sinks,
    /// The number of an entry.
    Op,
    /// The pairs of a merge.
    Pairs,
    /// The low corner of a box of chunks.
    Low,
    /// The high corner of a box of chunks.
    High,
}

/// Why a line is no request. The first cause counts: its length, its JSON, its field `do`, the
/// request's name, and then the request's own fields, in their order.
#[derive(Clone, Copy, PartialEq, Eq, Debug, Drop)]
pub enum LineError {
    /// The line has `bytes` bytes without its line feed, which is over 65,536.
    LineTooLong { bytes: u64 },
    /// No JSON value can be read from the line.
    NotJson,
    /// The value isn't an object.
    NotObject,
    /// The field isn't there, and may not be left out.
    MissingField { name: FieldName },
    /// The field is there and isn't of its form.
    BadField { name: FieldName },
    /// There is no request of this name.
    NoSuchCommand,
    /// There was no memory to read the line. It may come at any time.
    NoMemory,
}
