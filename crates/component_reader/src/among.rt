//! The active edges among supervoxels, at a prefix.

ghost use Rattle.std.specs.Prelude.{◌≡◌, ◌<◌, ◌≤◌, ◌+◌, ◌^◌, ◌++◌, ℕ, List, length, take, slice_index_or, OnOk, MatchResult};
ghost use Rattle.std.specs.List.{filter};
ghost use Rattle.op_model.specs.declared.base.Dataset.{Dataset};
ghost use Rattle.op_model.specs.declared.base.Base.{Base};
ghost use Rattle.op_model.specs.declared.base.Edge.{Edge};
ghost use Rattle.op_model.specs.declared.entry.Entry.{Entry};
ghost use Rattle.graph_model.specs.Lists.{has};
ghost use Rattle.op_model.specs.Labels.{edges};
ghost use Rattle.op_model.specs.Transcript.{log_at};
ghost use Rattle.op_model.specs.Valid.{IsAscending};
ghost use Rattle.record_rows.specs.Rows.{Node};
ghost use Rattle.record_rows.specs.Readings.{HoldsNode, Image};
ghost use Rattle.node_reader.specs.Readable.{AreKnown};
ghost use Rattle.component_reader.specs.Among.{IsLarge, active_among};
ghost use Rattle.component_reader.specs.Taking.{AreMet, starts};

use crate::taking::{Met, meet_own};
use edge_rows::edges_of;
use node_ids::NodeId;
use node_reader::{leaves, supervoxel_of};
use op_model::EdgeList;
use pcg_base::{NoMemory, Words};
use row_words::Spot;
use std::alloc::Global;

/// Why the edges among supervoxels aren't given.
#[derive(Clone, Copy, PartialEq, Eq, Debug, Drop)]
pub enum AmongError {
    /// There are more than were allowed.
    TooMany {
        /// How many there are.
        edges: u64,
    },
    /// There is no memory for them.
    NoMemory,
}

/// The active edges both of whose ends are among these supervoxels of the base, as the entries below
/// the prefix left them, ascending by pair. The list must be ascending, and the prefix is a number of
/// entries, at least 1. It takes time n log n in the supervoxels and their edges.
///
/// # Errors
///
/// `TooMany` exactly where there are more than `most`; no more than `most` are kept meanwhile.
/// `NoMemory` where the lists can't be had.
pub fn edges_among<W: Words>(
    alloc: Global,
    w: &mut W,
    leaves: &[NodeId],
    prefix: u32,
    most: usize,
) -> Result<EdgeList, AmongError>
    requires image { (d : Dataset) × (b : Base) × (log : List Entry) × Image d b log (W.words w.old) × AreKnown b leaves.now }
    requires ascending { IsAscending leaves.now }
    requires prefix { 1 ≤ prefix }
    ensures same { w.new ≡ w.old }
    ensures is { (d : Dataset) (b : Base) (log : List Entry) → Image d b log (W.words w.old) → AreKnown b leaves.now → MatchResult result (λ es. (es ≡ active_among (edges d b (log_at d b log prefix)) leaves.now) × (length es ≤ most)) (IsLarge (length (active_among (edges d b (log_at d b log prefix)) leaves.now)) most) }
{
    let mut met = Met {
        list: Vec::new(alloc),
        count: 0,
    };
    for place in 0..leaves.len() {
        let Ok(()) = meet_leaf(alloc, w, &mut met, leaves, place, prefix, most) else {
            return Err(AmongError::NoMemory);
        };
    }
    within(met, most)
}

/// Meets the active edges from the supervoxel at this place of an ascending list, as their lesser
/// end, to one of the list.
fn meet_leaf<W: Words>(
    alloc: Global,
    w: &mut W,
    met: &mut Met,
    leaves: &[NodeId],
    place: usize,
    prefix: u32,
    most: usize,
) -> Result<(), NoMemory>
    requires image { (d : Dataset) × (b : Base) × (log : List Entry) × Image d b log (W.words w.old) × AreKnown b leaves.now × (met.old.count ≤ length (edges d b (log_at d b log prefix))) }
    requires ascending { IsAscending leaves.now }
    requires prefix { 1 ≤ prefix }
    requires place { place < length leaves.now }
    ensures same { w.new ≡ w.old }
    ensures met { (d : Dataset) (b : Base) (log : List Entry) (before : List Edge) → Image d b log (W.words w.old) → AreKnown b leaves.now → AreMet most before met.old → OnOk result (AreMet most (before ++ filter (starts leaves.now (slice_index_or leaves.now place 0)) (edges d b (log_at d b log prefix))) met.new) }
{
    let sv = leaves[place];
    let spot = supervoxel_of(w, sv);
    let own = edges_of(alloc, w, spot, prefix)?;
    meet_own(met, leaves, sv, own.list.as_slice(), most)?;
    Ok(())
}

/// The edges that were met, or how many they are where these are more than were allowed.
fn within(met: Met, most: usize) -> Result<EdgeList, AmongError>
    ensures { (edges : List Edge) → AreMet most edges met → MatchResult result (λ es. (es ≡ edges) × (length es ≤ most)) (IsLarge (length edges) most) }
{
    if met.count > most as u64 {
        return Err(AmongError::TooMany { edges: met.count });
    }
    Ok(EdgeList { list: met.list })
}

/// The active edges among the leaves of a node, as the entries below the prefix left them, ascending
/// by pair. The prefix is a number of entries, at least 1.
///
/// # Errors
///
/// `TooMany` exactly where there are more than `most`; no more than `most` are kept meanwhile.
/// `NoMemory` where the lists can't be had.
pub fn component<W: Words>(
    alloc: Global,
    w: &mut W,
    node: Spot,
    prefix: u32,
    most: usize,
) -> Result<EdgeList, AmongError>
    requires node { (d : Dataset) × (b : Base) × (log : List Entry) × (n : Node) × Image d b log (W.words w.old) × HoldsNode d b log node n }
    requires prefix { 1 ≤ prefix }
    ensures same { w.new ≡ w.old }
    ensures is { (d : Dataset) (b : Base) (log : List Entry) (n : Node) → Image d b log (W.words w.old) → HoldsNode d b log node n → MatchResult result (λ es. (es ≡ active_among (edges d b (log_at d b log prefix)) n.leaves) × (length es ≤ most)) (IsLarge (length (active_among (edges d b (log_at d b log prefix)) n.leaves)) most) }
{
    let Ok(leaves) = leaves(alloc, w, node) else {
        return Err(AmongError::NoMemory);
    };
    edges_among(alloc, w, leaves.list.as_slice(), prefix, most)
}
