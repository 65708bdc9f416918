//! The children of the new nodes.

ghost use Rattle.std.specs.Prelude.{◌≡◌, ◌≤◌, ◌<◌, ◌+◌, ◌++◌, ℕ, List, length, map, IfOk, OnOk};
ghost use Rattle.std.specs.List.{All, filter, range_with_len};
ghost use Rattle.op_model.specs.declared.base.Dataset.{Dataset};
ghost use Rattle.op_model.specs.declared.base.Base.{Base};
ghost use Rattle.op_model.specs.declared.entry.Entry.{Entry};
ghost use Rattle.op_model.specs.Chunks.{top};
ghost use Rattle.layer_laws.specs.Building.{at};
ghost use Rattle.made_links.specs.Children.{AreBelow, IsChild, child_at_place, has_parent};
ghost use Rattle.made_links.specs.Ranks.{AreRanks};

use crate::climbing::record_below;
use entry_parts::MadeNode;
use made_nodes::MadeLayer;
use node_ids::NodeId;
use pcg_base::{NoMemory, Words};
use row_words::{Spot, id_of};
use std::alloc::Global;

/// A child of a new node.
#[derive(Clone, Copy, Drop)]
pub struct Child {
    /// The child: a supervoxel or a node one layer lower.
    pub id: NodeId,
    /// The place of its record, or 0 where the entry makes it too.
    pub spot: Spot,
    /// The place of its least leaf.
    pub least: usize,
    /// Which of the new nodes its parent is, counted from 1.
    pub parent: usize,
}

// the guess for a place, or 0 where there is none
fn guess_at(guesses: &[Spot], place: usize) -> Spot {
    if place < guesses.len() {
        guesses[place]
    } else {
        Spot(0)
    }
}

// the child whose least leaf stands at a place
fn found_child<W: Words>(
    w: &mut W,
    prefix: u32,
    layer: u8,
    ids: &[NodeId],
    below_firsts: &[u32],
    below: &MadeLayer,
    below_ranks: &[usize],
    guesses: &[Spot],
    place: usize,
    parent: usize,
) -> Child
    requires place { (place < length ids.now) × (at below_firsts.now place ≡ place) }
    requires below { (d : Dataset) × (b : Base) × (log : List Entry) × (e : Entry) × AreBelow d b log e (W.words w.old) prefix ids.now layer below_firsts.now below.now × (2 ≤ layer) × (layer ≤ top d) }
    requires ranks { AreRanks (length ids.now) below.now.leasts.items below_ranks.now }
    ensures same { w.new ≡ w.old }
    ensures least { result.least ≡ place }
    ensures parent { result.parent ≡ parent }
    ensures is { (d : Dataset) (b : Base) (log : List Entry) (e : Entry) → AreBelow d b log e (W.words w.old) prefix ids.now layer below_firsts.now below.now → layer ≤ top d → IsChild d b log e layer ids.now below.now result }
{
    let rank = below_ranks[place];
    if rank != 0 {
        let node = below.nodes[rank - 1];
        return Child {
            id: node.id,
            spot: Spot(0),
            least: place,
            parent,
        };
    }
    let guess = guess_at(guesses, place);
    let spot = record_below(w, prefix, layer, ids[place], guess);
    Child {
        id: NodeId(id_of(w, spot)),
        spot,
        least: place,
        parent,
    }
}

// puts the child whose least leaf stands at a place behind a list, if there is one with a new parent
fn put_child<W: Words>(
    list: &mut Vec<Child>,
    w: &mut W,
    prefix: u32,
    layer: u8,
    ids: &[NodeId],
    below_firsts: &[u32],
    below: &MadeLayer,
    below_ranks: &[usize],
    firsts: &[u32],
    ranks: &[usize],
    guesses: &[Spot],
    place: usize,
) -> Result<(), NoMemory>
    requires place { place < length ids.now }
    requires counts { (length firsts.now ≡ length ids.now) × (length ranks.now ≡ length ids.now) × (at firsts.now place < length ids.now) }
    requires below { (d : Dataset) × (b : Base) × (log : List Entry) × (e : Entry) × AreBelow d b log e (W.words w.old) prefix ids.now layer below_firsts.now below.now × (2 ≤ layer) × (layer ≤ top d) }
    requires ranks { AreRanks (length ids.now) below.now.leasts.items below_ranks.now }
    ensures same { w.new ≡ w.old }
    ensures leasts { OnOk result (map (λ c. c.least) list.new.items ≡ map (λ c. c.least) list.old.items ++ child_at_place below_firsts.now firsts.now ranks.now place) }
    ensures parents { OnOk result (All (λ c. c.parent ≡ at ranks.now (at firsts.now c.least)) list.old.items → All (λ c. c.parent ≡ at ranks.now (at firsts.now c.least)) list.new.items) }
    ensures are { OnOk result ((d : Dataset) (b : Base) (log : List Entry) (e : Entry) → AreBelow d b log e (W.words w.old) prefix ids.now layer below_firsts.now below.now → layer ≤ top d → All (IsChild d b log e layer ids.now below.now) list.old.items → All (IsChild d b log e layer ids.now below.now) list.new.items) }
{
    let parent = ranks[firsts[place] as usize];
    if below_firsts[place] as usize != place {
        return Ok(());
    }
    if parent == 0 {
        return Ok(());
    }
    let child = found_child(
        w,
        prefix,
        layer,
        ids,
        below_firsts,
        below,
        below_ranks,
        guesses,
        place,
        parent,
    );
    match list.push(child) {
        Ok(()) => Ok(()),
        Err(_) => Err(NoMemory),
    }
}

/// The children of the new nodes of a layer, by the places of their least leaves. The ranks of the
/// places tell, from 1 on, which of the new nodes below and of the layer have their least leaves
/// there. The guesses tell for places where the record of a child that stands may be.
///
/// # Errors
///
/// `NoMemory` where there is none for the list.
pub fn children<W: Words>(
    alloc: Global,
    w: &mut W,
    prefix: u32,
    layer: u8,
    ids: &[NodeId],
    below_firsts: &[u32],
    below: &MadeLayer,
    below_ranks: &[usize],
    firsts: &[u32],
    ranks: &[usize],
    guesses: &[Spot],
) -> Result<Vec<Child>, NoMemory>
    requires counts { (length firsts.now ≡ length ids.now) × (length ranks.now ≡ length ids.now) × All (λ p. p < length ids.now) firsts.now }
    requires below { (d : Dataset) × (b : Base) × (log : List Entry) × (e : Entry) × AreBelow d b log e (W.words w.old) prefix ids.now layer below_firsts.now below.now × (2 ≤ layer) × (layer ≤ top d) }
    requires ranks { AreRanks (length ids.now) below.now.leasts.items below_ranks.now }
    ensures same { w.new ≡ w.old }
    ensures leasts { IfOk result (λ v. map (λ c. c.least) v.items ≡ filter (has_parent below_firsts.now firsts.now ranks.now) (range_with_len 0 (length ids.now))) }
    ensures parents { IfOk result (λ v. All (λ c. c.parent ≡ at ranks.now (at firsts.now c.least)) v.items) }
    ensures are { IfOk result (λ v. (d : Dataset) (b : Base) (log : List Entry) (e : Entry) → AreBelow d b log e (W.words w.old) prefix ids.now layer below_firsts.now below.now → layer ≤ top d → All (IsChild d b log e layer ids.now below.now) v.items) }
{
    let mut list = Vec::new(alloc);
    for place in 0..ids.len() {
        put_child(
            &mut list,
            w,
            prefix,
            layer,
            ids,
            below_firsts,
            below,
            below_ranks,
            firsts,
            ranks,
            guesses,
            place,
        )?;
    }
    Ok(list)
}
