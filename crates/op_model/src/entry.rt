//! The entries of the operation log, and what an edit would make of one.

use crate::base::Pair;
use crate::lists::{Carries, ChangedPairs, Ids, Pairs};
use crate::request::Edit;
use node_ids::NodeId;

/// A pair and the state that an entry gave it.
#[derive(Clone, Copy, PartialEq, Eq, Debug, Drop)]
pub struct Changed {
    /// The two supervoxels.
    pub pair: Pair,
    /// The state from this entry on.
    pub active: bool,
}

/// What an entry is.
#[derive(Clone, Copy, PartialEq, Eq, Debug, Drop)]
pub enum Kind {
    /// The first entry of a log, which made the roots of the base.
    Ingest,
    /// It made pairs active.
    Merge,
    /// It made the pairs of a least cut inactive.
    Split,
    /// It gave the pairs of an earlier merge or split the opposite states.
    Undo,
    /// It gave the pairs of an earlier merge or split that entry's states again.
    Redo,
}

/// What a flow carries along a pair.
#[derive(Clone, Copy, PartialEq, Eq, Debug, Drop)]
pub struct Carry {
    /// The supervoxel that it leaves.
    pub from: NodeId,
    /// The supervoxel that it enters.
    pub to: NodeId,
    /// How much, in units of affinity: at least 1, and at most the pair's affinity.
    pub amount: u64,
}

/// What made an entry.
#[derive(Drop)]
pub enum Asked {
    /// The base: only the first entry has this.
    Ingest,
    /// The edit of a client.
    Edit(Edit),
}

/// One entry of the operation log.
#[derive(Drop)]
pub struct Entry {
    /// How many entries stand before it.
    pub number: u32,
    /// The client that asked it, counted from 1; 0 for the ingest.
    pub client: u32,
    /// The client's line that asked it, counted from 1; 0 for the ingest.
    pub line: u32,
    /// Its timestamp in milliseconds, greater than those before it and below 2^62.
    pub at: u64,
    /// What made it.
    pub asked: Asked,
    /// The pairs that it changed with their new states, ascending by pair.
    pub changed: ChangedPairs,
    /// The roots that it retired, ascending: those of the changed pairs' ends before it.
    pub retired: Ids,
    /// The roots that it made, ascending: those of the changed pairs' ends after it, or all roots
    /// of the base.
    pub made: Ids,
}

/// The cut of a split, and a flow of the same value, which shows that no set of pairs that
/// separates the marks weighs less (max-flow min-cut: Ford and Fulkerson 1956).
#[derive(Drop)]
pub struct Shown {
    /// The pairs that the split cut, ascending.
    pub cut: Pairs,
    /// The sum of their affinities.
    pub total: u64,
    /// At most one carry for each pair, ascending by pair.
    pub flow: Carries,
}

/// An edit on its way to an entry: what it would change, whatever room, ids and time are left.
#[derive(Drop)]
pub struct Plan {
    /// What was asked.
    pub edit: Edit,
    /// The pairs that it changes with their new states, ascending by pair.
    pub changed: ChangedPairs,
    /// A split's cut and flow; nothing for another edit.
    pub shown: Option<Shown>,
}
