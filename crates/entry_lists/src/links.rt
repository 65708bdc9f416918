//! The links of an entry, by the places of their children and parents.

ghost use Rattle.std.specs.Prelude.{◌≡◌, ◌∷◌, ◌++◌, ◌+◌, ◌<◌, ◌≤◌, ◌^◌, ℕ, List, length, map, replicate, IsTrue, IfOk, OnOk};
ghost use Rattle.std.specs.List.{All};
ghost use Rattle.graph_model.specs.Lists.{has};
ghost use Rattle.op_model.specs.declared.base.Dataset.{Dataset};
ghost use Rattle.op_model.specs.declared.base.Base.{Base};
ghost use Rattle.op_model.specs.declared.entry.Entry.{Entry};
ghost use Rattle.op_model.specs.Operations.{ascending};
ghost use Rattle.op_model.specs.Valid.{IsAscending};
ghost use Rattle.record_rows.specs.LogRows.{new_links, new_nodes, rows_of};
ghost use Rattle.record_rows.specs.Readings.{ParentImage};
ghost use Rattle.row_append.specs.Ends.{VersionsOf};
ghost use Rattle.base_rows.specs.States.{AreTails};
ghost use Rattle.entry_parts.specs.Made.{AreLinks, AreMade};
ghost use Rattle.entry_rows.specs.States.{ArePointers};
ghost use Rattle.entry_lists.specs.Links.{AreHeld, AreLinksPlaced, IsBetween, IsToldBy, base_link, kept_ids, kept_of, put_place};
ghost use Rattle.entry_lists.specs.Parts.{IsBehind};

use crate::ids::ascending_ids;
use base_rows::BaseLink;
use chain_ends::versions_end;
use entry_parts::{MadeLink, MadeNode};
use node_ids::NodeId;
use octree_layers::place_of;
use pcg_base::{NoMemory, Words};
use row_append::Tail;
use row_words::Spot;
use std::alloc::Global;

/// Links by places: a child among those that stand and the new nodes behind them, a parent among
/// the new nodes.
#[derive(Drop)]
pub struct LinkLists {
    /// The children that stand already.
    pub kept: Vec<NodeId>,
    /// The places of their records.
    pub kept_places: Vec<Spot>,
    /// Where the links of each of them end.
    pub kept_ends: Vec<Tail>,
    /// The links.
    pub links: Vec<BaseLink>,
}

// puts the child of a link behind others, if it stands already
#[tactic(auto, unfolding(crate::specs::Links::kept_of))]
fn put_kept(list: &mut Vec<NodeId>, link: &MadeLink) -> Result<(), NoMemory>
    ensures { OnOk result (list.new.items ≡ list.old.items ++ kept_of link.now) }
{
    if link.child_at.0 == 0 {
        return Ok(());
    }
    let Ok(()) = list.push(link.child) else {
        return Err(NoMemory);
    };
    Ok(())
}

// the children of links that stand already
fn kept_children(alloc: Global, links: &[MadeLink]) -> Result<Vec<NodeId>, NoMemory>
    ensures { IfOk result (λ v. v.items ≡ kept_ids links.now) }
{
    let mut list = Vec::new(alloc);
    for link in links {
        put_kept(&mut list, link)?;
    }
    Ok(list)
}

// the ids of nodes
fn node_ids_of(alloc: Global, nodes: &[MadeNode]) -> Result<Vec<NodeId>, NoMemory>
    ensures { IfOk result (λ v. v.items ≡ map (λ n. n.id) nodes.now) }
{
    let mut list = Vec::new(alloc);
    for node in nodes {
        let Ok(()) = list.push(node.id) else {
            return Err(NoMemory);
        };
    }
    Ok(list)
}

// a list of so many zeros
fn zeros(alloc: Global, count: usize) -> Result<Vec<Spot>, NoMemory>
    ensures { IfOk result (λ v. v.items ≡ replicate count 0) }
{
    let Ok(list) = (vec![in alloc; Spot(0); count]) else {
        return Err(NoMemory);
    };
    Ok(list)
}

// puts the place of a link's child at the child's place among those that stand, if it is one
#[tactic(auto, unfolding(crate::specs::Links::put_place))]
fn put_place(kept: &[NodeId], list: &mut Vec<Spot>, link: &MadeLink)
    requires ascending { IsAscending kept.now }
    requires size { length kept.now < 2 ^ 32 }
    requires known { 0 < link.now.child_at → IsTrue (has kept.now link.now.child) }
    requires count { length list.old.items ≡ length kept.now }
    ensures { list.new.items ≡ put_place kept.now list.old.items link.now }
{
    if link.child_at.0 == 0 {
        return;
    }
    let place = place_of(kept, link.child) as usize;
    list[place] = link.child_at;
}

// the places of the children that stand already, by the links to them
fn places_of(alloc: Global, kept: &[NodeId], links: &[MadeLink]) -> Result<Vec<Spot>, NoMemory>
    requires kept { kept.now ≡ ascending (kept_ids links.now) }
    requires size { length kept.now < 2 ^ 32 }
    ensures told { (f : ℕ → ℕ) → All (IsToldBy f) links.now → IfOk result (λ v. v.items ≡ map f kept.now) }
{
    let mut list = zeros(alloc, kept.len())?;
    for link in links {
        put_place(kept, &mut list, link);
    }
    Ok(list)
}

// where the links of the children at each place end
fn link_ends<W: Words>(alloc: Global, w: &mut W, places: &[Spot]) -> Result<Vec<Tail>, NoMemory>
    requires held { (d : Dataset) × (b : Base) × (log : List Entry) × (ids : List ℕ) × ParentImage d b log (W.words w.old) × AreHeld d b log ids places.now }
    ensures same { w.new ≡ w.old }
    ensures ends { (d : Dataset) (b : Base) (log : List Entry) (ids : List ℕ) → ParentImage d b log (W.words w.old) → AreHeld d b log ids places.now → IfOk result (λ v. AreTails VersionsOf ids (rows_of d b log) v.items) }
    ensures pointers { IfOk result (λ v. ArePointers v.items) }
{
    let mut list = Vec::new(alloc);
    for place in places {
        let tail = versions_end(w, *place);
        let Ok(()) = list.push(tail) else {
            return Err(NoMemory);
        };
    }
    Ok(list)
}

// the place of a link's child among those that stand and the new nodes behind them
#[tactic(auto, unfolding(crate::specs::Links::base_link))]
fn child_place(kept: &[NodeId], new: &[NodeId], link: &MadeLink) -> u32
    requires kept_ascending { IsAscending kept.now }
    requires new_ascending { IsAscending new.now }
    requires size { length kept.now + length new.now < 2 ^ 32 }
    requires between { IsBetween kept.now new.now link.now }
    ensures is { result ≡ (base_link kept.now new.now link.now).child }
{
    if link.child_at.0 == 0 {
        kept.len() as u32 + place_of(new, link.child)
    } else {
        place_of(kept, link.child)
    }
}

// the link with the places of its child and its parent
#[tactic(auto, unfolding(crate::specs::Links::base_link))]
fn link_at(kept: &[NodeId], new: &[NodeId], link: &MadeLink) -> BaseLink
    requires kept_ascending { IsAscending kept.now }
    requires new_ascending { IsAscending new.now }
    requires size { length kept.now + length new.now < 2 ^ 32 }
    requires between { IsBetween kept.now new.now link.now }
    ensures is { result ≡ base_link kept.now new.now link.now }
{
    BaseLink {
        child: child_place(kept, new, link),
        parent: place_of(new, link.parent),
    }
}

// the links with the places of their children and parents
fn links_at(
    alloc: Global,
    kept: &[NodeId],
    new: &[NodeId],
    links: &[MadeLink],
) -> Result<Vec<BaseLink>, NoMemory>
    requires kept_ascending { IsAscending kept.now }
    requires new_ascending { IsAscending new.now }
    requires size { length kept.now + length new.now < 2 ^ 32 }
    requires between { All (IsBetween kept.now new.now) links.now }
    ensures { IfOk result (λ v. v.items ≡ map (base_link kept.now new.now) links.now) }
{
    let mut list = Vec::new(alloc);
    for link in links {
        let placed = link_at(kept, new, link);
        let Ok(()) = list.push(placed) else {
            return Err(NoMemory);
        };
    }
    Ok(list)
}

/// The links of an entry behind a log, by the places of their children and parents, with the
/// children that stand already and where the links of each of those end in the log's records.
///
/// # Errors
///
/// `NoMemory` where there is none for the lists.
pub fn list_links<W: Words>(
    alloc: Global,
    w: &mut W,
    nodes: &[MadeNode],
    links: &[MadeLink],
) -> Result<LinkLists, NoMemory>
    requires few { length links.now + length nodes.now < 2 ^ 32 }
    requires entry { (d : Dataset) × (b : Base) × (log : List Entry) × (e : Entry) × IsBehind d b log e (W.words w.old) × AreMade d b log e nodes.now × AreLinks d b log e nodes.now links.now }
    ensures same { w.new ≡ w.old }
    ensures listed { (d : Dataset) (b : Base) (log : List Entry) (e : Entry) → IsBehind d b log e (W.words w.old) → AreMade d b log e nodes.now → AreLinks d b log e nodes.now links.now
        → IfOk result (λ r. AreLinksPlaced e.number (rows_of d b log) r.kept.items r.kept_places.items r.kept_ends.items r.links.items (new_nodes d b (e ∷ log) e.number) (new_links d b (e ∷ log) e.number)) }
{
    let all = kept_children(alloc, links)?;
    let kept = ascending_ids(all);
    let kept_places = places_of(alloc, &kept, links)?;
    let kept_ends = link_ends(alloc, w, &kept_places)?;
    let new = node_ids_of(alloc, nodes)?;
    let placed = links_at(alloc, &kept, &new, links)?;
    Ok(LinkLists {
        kept,
        kept_places,
        kept_ends,
        links: placed,
    })
}
