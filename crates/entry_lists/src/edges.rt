//! The edges that an entry makes known, by the places of their ends.

ghost use Rattle.std.specs.Prelude.{◌≡◌, ◌∷◌, ◌++◌, ◌<◌, ◌≤◌, ◌^◌, not, [], List, length, map, IsTrue, IfOk, OnOk};
ghost use Rattle.std.specs.List.{All, flat_map, list_any};
ghost use Rattle.graph_model.specs.Lists.{has};
ghost use Rattle.op_model.specs.declared.base.Dataset.{Dataset};
ghost use Rattle.op_model.specs.declared.base.Base.{Base};
ghost use Rattle.op_model.specs.declared.entry.Entry.{Entry};
ghost use Rattle.op_model.specs.Edges.{same_pair};
ghost use Rattle.op_model.specs.Labels.{edges};
ghost use Rattle.op_model.specs.Valid.{IsAscending};
ghost use Rattle.record_rows.specs.LogRows.{new_edges, rows_of, unknown};
ghost use Rattle.record_rows.specs.Readings.{Image};
ghost use Rattle.row_append.specs.Ends.{EdgesOf};
ghost use Rattle.base_rows.specs.States.{AreTails};
ghost use Rattle.entry_rows.specs.States.{ArePointers};
ghost use Rattle.entry_lists.specs.Parts.{AreEdgesPlaced, HoldsEnds, IsBehind, base_edge, ends_of};

use crate::ids::ascending_ids;
use base_rows::BaseEdge;
use chain_ends::edges_end;
use edge_rows::find_edge;
use node_ids::NodeId;
use octree_layers::place_of;
use op_model::{Changed, Edge, Pair, Weight};
use pcg_base::{NoMemory, Words};
use row_append::Tail;
use std::alloc::Global;

/// Edges with their ends by places in a list of supervoxels.
#[derive(Drop)]
pub struct EdgeLists {
    /// The edges.
    pub edges: Vec<BaseEdge>,
    /// Where the edges of each of those supervoxels end.
    pub ends: Vec<Tail>,
}

// whether no edge joins the pair of a change
fn is_unknown<W: Words>(w: &mut W, change: &Changed) -> bool
    requires image { (d : Dataset) × (b : Base) × (log : List Entry) × Image d b log (W.words w.old) }
    ensures same { w.new ≡ w.old }
    ensures is { (d : Dataset) (b : Base) (log : List Entry) → Image d b log (W.words w.old) → result ≡ not (list_any (λ f. same_pair f.pair change.now.pair) (edges d b log)) }
{
    let Some(_edge) = find_edge(w, change.pair) else {
        return true;
    };
    false
}

// puts the pair of a change behind others, if no edge joins it
fn put_unknown<W: Words>(w: &mut W, list: &mut Vec<Pair>, change: &Changed) -> Result<(), NoMemory>
    requires image { (d : Dataset) × (b : Base) × (log : List Entry) × Image d b log (W.words w.old) }
    ensures same { w.new ≡ w.old }
    ensures put { (d : Dataset) (b : Base) (log : List Entry) → Image d b log (W.words w.old) → OnOk result (list.new.items ≡ list.old.items ++ map (λ c. c.pair) (unknown d b log (change.now ∷ []))) }
{
    if !is_unknown(w, change) {
        return Ok(());
    }
    let Ok(()) = list.push(change.pair) else {
        return Err(NoMemory);
    };
    Ok(())
}

// the pairs of changes that no edge joins
fn unknown_pairs<W: Words>(
    alloc: Global,
    w: &mut W,
    changed: &[Changed],
) -> Result<Vec<Pair>, NoMemory>
    requires image { (d : Dataset) × (b : Base) × (log : List Entry) × Image d b log (W.words w.old) }
    ensures same { w.new ≡ w.old }
    ensures are { (d : Dataset) (b : Base) (log : List Entry) → Image d b log (W.words w.old) → IfOk result (λ v. v.items ≡ map (λ c. c.pair) (unknown d b log changed.now)) }
    ensures few { IfOk result (λ v. length v.items ≤ length changed.now) }
{
    let mut list = Vec::new(alloc);
    for change in changed {
        put_unknown(w, &mut list, change)?;
    }
    Ok(list)
}

// puts the ends of a pair behind other ids
#[tactic(auto, unfolding(crate::specs::Parts::ends_of))]
fn put_ends(list: &mut Vec<NodeId>, pair: &Pair) -> Result<(), NoMemory>
    ensures { OnOk result (list.new.items ≡ list.old.items ++ ends_of pair.now) }
{
    let Ok(()) = list.push(pair.a) else {
        return Err(NoMemory);
    };
    let Ok(()) = list.push(pair.b) else {
        return Err(NoMemory);
    };
    Ok(())
}

// the ends of pairs
fn pair_ends(alloc: Global, pairs: &[Pair]) -> Result<Vec<NodeId>, NoMemory>
    ensures { IfOk result (λ v. v.items ≡ flat_map ends_of pairs.now) }
{
    let mut list = Vec::new(alloc);
    for pair in pairs {
        put_ends(&mut list, pair)?;
    }
    Ok(list)
}

// where the edges of each supervoxel end
fn edge_ends<W: Words>(alloc: Global, w: &mut W, ids: &[NodeId]) -> Result<Vec<Tail>, NoMemory>
    requires supervoxels { (d : Dataset) × (b : Base) × (log : List Entry) × Image d b log (W.words w.old) × All (λ v. IsTrue (has b.supervoxels v)) ids.now }
    ensures same { w.new ≡ w.old }
    ensures ends { (d : Dataset) (b : Base) (log : List Entry) → Image d b log (W.words w.old) → All (λ v. IsTrue (has b.supervoxels v)) ids.now → IfOk result (λ v. AreTails EdgesOf ids.now (rows_of d b log) v.items) }
    ensures pointers { IfOk result (λ v. ArePointers v.items) }
{
    let mut list = Vec::new(alloc);
    for id in ids {
        let tail = edges_end(w, *id);
        let Ok(()) = list.push(tail) else {
            return Err(NoMemory);
        };
    }
    Ok(list)
}

// the inactive edge of a pair, with the places of its ends
#[tactic(auto, unfolding(crate::specs::Parts::base_edge))]
fn edge_at(affinity: u32, ids: &[NodeId], pair: &Pair) -> BaseEdge
    requires ascending { IsAscending ids.now }
    requires size { length ids.now < 2 ^ 32 }
    requires known { HoldsEnds ids.now pair.now }
    ensures { result ≡ base_edge affinity ids.now pair.now }
{
    BaseEdge {
        edge: Edge {
            pair: *pair,
            weight: Weight::Affinity(affinity),
            active: false,
        },
        lesser: place_of(ids, pair.a),
        greater: place_of(ids, pair.b),
    }
}

// the inactive edges of pairs, with the places of their ends
fn edges_at(
    alloc: Global,
    affinity: u32,
    ids: &[NodeId],
    pairs: &[Pair],
) -> Result<Vec<BaseEdge>, NoMemory>
    requires ascending { IsAscending ids.now }
    requires size { length ids.now < 2 ^ 32 }
    requires known { All (HoldsEnds ids.now) pairs.now }
    ensures { IfOk result (λ v. v.items ≡ map (base_edge affinity ids.now) pairs.now) }
{
    let mut list = Vec::new(alloc);
    for pair in pairs {
        let placed = edge_at(affinity, ids, pair);
        let Ok(()) = list.push(placed) else {
            return Err(NoMemory);
        };
    }
    Ok(list)
}

/// The edges that an entry makes known behind a log, by the places of their ends, and where the
/// edges of each of those supervoxels end. The affinity is that of the dataset's merges.
///
/// # Errors
///
/// `NoMemory` where there is none for the lists.
pub fn list_edges<W: Words>(
    alloc: Global,
    w: &mut W,
    affinity: u32,
    changed: &[Changed],
) -> Result<EdgeLists, NoMemory>
    requires few { length changed.now ≤ 16777216 }
    requires entry { (d : Dataset) × (b : Base) × (log : List Entry) × (e : Entry) × IsBehind d b log e (W.words w.old) × (e.changed ≡ changed.now) }
    ensures same { w.new ≡ w.old }
    ensures listed { (d : Dataset) (b : Base) (log : List Entry) (e : Entry) → IsBehind d b log e (W.words w.old) → e.changed ≡ changed.now → affinity ≡ d.merge_affinity
        → IfOk result (λ r. AreEdgesPlaced (rows_of d b log) r.edges.items r.ends.items (new_edges d b log e)) }
{
    let pairs = unknown_pairs(alloc, w, changed)?;
    let all = pair_ends(alloc, &pairs)?;
    let ids = ascending_ids(all);
    let ends = edge_ends(alloc, w, &ids)?;
    let edges = edges_at(alloc, affinity, &ids, &pairs)?;
    Ok(EdgeLists { edges, ends })
}
