//! The roots of the ingest: the nodes of the top layer's one chunk that the first entry made.

ghost use Rattle.std.specs.Prelude.{◌≡◌, ℕ, [], ◌∷◌, ◌++◌, List, Some, OnOk, IfOk, IfSome};
ghost use Rattle.std.specs.List.{filter_map};
ghost use Rattle.op_model.specs.declared.base.Dataset.{Dataset};
ghost use Rattle.op_model.specs.declared.base.Base.{Base};
ghost use Rattle.op_model.specs.declared.entry.Entry.{Entry};
ghost use Rattle.op_model.specs.Chunks.{top};
ghost use Rattle.node_ids.specs.Ids.{id_of};
ghost use Rattle.record_rows.specs.Rows.{Node};
ghost use Rattle.record_rows.specs.LogRows.{rows_of};
ghost use Rattle.record_rows.specs.Readings.{HoldsChunk, HoldsNode, ParentImage};
ghost use Rattle.record_rows.specs.Walks.{first_in};
ghost use Rattle.timestamp_reader.specs.Places.{FirstNodeAt, NodeAt, first_from};

use node_ids::{NodeId, Parts};
use node_reader::top_of;
use op_model::Ids;
use parent_rows::{chunk, first_node, next_node, node};
use pcg_base::{NoMemory, Words};
use record_rows::layout_of;
use row_words::{Spot, fixed};
use std::alloc::Global;

/// The roots that the first entry made, ascending.
pub fn first_roots<W: Words>(alloc: Global, w: &mut W) -> Result<Ids, NoMemory>
    requires image { (d : Dataset) × (b : Base) × (log : List Entry) × ParentImage d b log (W.words w.old) }
    ensures same { w.new ≡ w.old }
    ensures is { (d : Dataset) (b : Base) (newer : List Entry) (e : Entry) → ParentImage d b (newer ++ e ∷ []) (W.words w.old) → IfOk result (λ ids. ids ≡ e.made) }
{
    let top = top_chunk(w);
    match chunk(w, top) {
        Some(spot) => collected(alloc, w, spot),
        None => Ok(Ids {
            list: Vec::new(alloc),
        }),
    }
}

/// The id of the top layer's one chunk.
fn top_chunk<W: Words>(w: &mut W) -> NodeId
    requires image { (d : Dataset) × (b : Base) × (log : List Entry) × ParentImage d b log (W.words w.old) }
    ensures same { w.new ≡ w.old }
    ensures is { (d : Dataset) (b : Base) (log : List Entry) → ParentImage d b log (W.words w.old) → result ≡ id_of d.layout (record { layer = top d; x = 0; y = 0; z = 0; segment = 0 }) }
{
    let layer = top_of(w);
    let word = fixed(w, Spot(0), 0);
    let parts = Parts {
        layer,
        x: 0,
        y: 0,
        z: 0,
        segment: 0,
    };
    layout_of(word).pack(parts).unwrap()
}

/// The nodes of a chunk that the first entry made, in the order of their records.
fn collected<W: Words>(alloc: Global, w: &mut W, chunk: Spot) -> Result<Ids, NoMemory>
    requires chunk { (d : Dataset) × (b : Base) × (log : List Entry) × (c : ℕ) × ParentImage d b log (W.words w.old) × HoldsChunk d b log chunk c }
    ensures same { w.new ≡ w.old }
    ensures is { (d : Dataset) (b : Base) (log : List Entry) (c : ℕ) → ParentImage d b log (W.words w.old) → HoldsChunk d b log chunk c → IfOk result (λ ids. ids ≡ filter_map (first_in c) (rows_of d b log)) }
{
    let mut list = Vec::new(alloc);
    let first = first_node(w, chunk);
    let mut at = if_first(w, first);
    while let Some(spot) = at {
        add(w, &mut list, spot)?;
        let next = next_node(w, spot);
        at = if_first(w, next);
    }
    Ok(Ids { list })
}

/// Puts the id of a node to those of others.
fn add<W: Words>(w: &mut W, list: &mut Vec<NodeId>, spot: Spot) -> Result<(), NoMemory>
    requires node { (d : Dataset) × (b : Base) × (log : List Entry) × (n : Node) × ParentImage d b log (W.words w.old) × HoldsNode d b log spot n }
    ensures same { w.new ≡ w.old }
    ensures is { (d : Dataset) (b : Base) (log : List Entry) (n : Node) → ParentImage d b log (W.words w.old) → HoldsNode d b log spot n → OnOk result (list.new.items ≡ list.old.items ++ n.id ∷ []) }
{
    match list.push(node(w, spot).id) {
        Ok(()) => Ok(()),
        Err(_) => Err(NoMemory),
    }
}

/// The same place, if the first entry made the node there: behind another one of its chunk there
/// is none that the first entry made.
fn if_first<W: Words>(w: &mut W, at: Option<Spot>) -> Option<Spot>
    requires node { (d : Dataset) × (b : Base) × (log : List Entry) × (c : ℕ) × ParentImage d b log (W.words w.old) × NodeAt d b log c at }
    ensures same { w.new ≡ w.old }
    ensures at { (d : Dataset) (b : Base) (log : List Entry) (c : ℕ) → ParentImage d b log (W.words w.old) → NodeAt d b log c at → FirstNodeAt d b log c result }
    ensures same_place { IfSome result (λ p. at ≡ Some p) }
    ensures rest { (d : Dataset) (b : Base) (log : List Entry) (c : ℕ) → ParentImage d b log (W.words w.old) → NodeAt d b log c at → first_from d b log c result ≡ first_from d b log c at }
{
    let Some(spot) = at else {
        return None;
    };
    if node(w, spot).made == 0 { at } else { None }
}
