//! The records of links.

ghost use Rattle.std.specs.Prelude.{◌≡◌, ℕ, List, ◌≤◌, ◌<◌, ◌+◌, ◌-◌, ◌*◌, ◌^◌, ◌++◌, [], ◌∷◌, length, map, OnOk};
ghost use Rattle.std.specs.List.{All};
ghost use Rattle.op_model.specs.declared.base.Dataset.{Dataset};
ghost use Rattle.record_rows.specs.Rows.{Row, LinkRow, Node};
ghost use Rattle.record_rows.specs.Words.{words_of};
ghost use Rattle.base_rows.specs.declared.lists.BaseEdge.{BaseEdge};
ghost use Rattle.base_rows.specs.Lists.{AreNodes, at, IsOnce, IsWithin, link_of};
ghost use Rattle.base_rows.specs.BaseRows.{linked_rows, noded_rows};
ghost use Rattle.base_rows.specs.States.{IsNewLink, Linking, owner_place};

use crate::lists::{BaseLink, BaseNode};
use crate::tails::put_tails;
use node_ids::NodeId;
use pcg_base::{NoMemory, VecWords};
use row_append::{NewLink, Tail, push_link};
use row_words::Spot;
use std::alloc::Global;

// a supervoxel or a node, by its place among them
fn owner_at(ids: &[NodeId], nodes: &[BaseNode], place: u32) -> NodeId
    requires within { place < length ids.now + length nodes.now }
    ensures { result ≡ at (ids.now ++ map (λ n. n.id) nodes.now) place }
{
    let place = place as usize;
    if place < ids.len() {
        ids[place]
    } else {
        nodes[place - ids.len()].id
    }
}

// the place of its record; that of the first node is given
fn owner_place(supervoxels: u32, first: u32, place: u32) -> u32
    requires places { (supervoxels < 2 ^ 32 - 1) × (first + (place - supervoxels) < 2 ^ 32) }
    ensures { result ≡ owner_place supervoxels first place }
{
    if place < supervoxels {
        1 + place
    } else {
        first + (place - supervoxels)
    }
}

// a link with the records of its child and its parent
fn new_link(ids: &[NodeId], first: u32, nodes: &[BaseNode], link: BaseLink) -> NewLink
    requires places { (length ids.now < 2 ^ 32 - 1) × (first + length nodes.now < 2 ^ 32) }
    requires within { IsWithin (ids.now ++ map (λ n. n.id) nodes.now) (map (λ n. n.id) nodes.now) link }
    ensures { IsNewLink ids.now (map (λ n. n.id) nodes.now) first link result }
{
    NewLink {
        child: owner_at(ids, nodes, link.child),
        child_at: Spot(owner_place(ids.len() as u32, first, link.child)),
        parent_at: Spot(first + link.parent),
        entry: 0,
    }
}

// puts a link behind the others, with the places where the children of each node end, and the links
// of each supervoxel and node
fn put_link(
    w: &mut VecWords,
    children: &mut Vec<Tail>,
    versions: &mut Vec<Tail>,
    link: BaseLink,
    new: NewLink,
)
    requires places { length w.old.words < 8 * 2 ^ 32 }
    requires room { 8 ≤ w.old.spare }
    requires state { (ids : List ℕ) × (nodes : List ℕ) × (first : ℕ) × (rows : List Row) × Linking ids nodes first rows w.old.words children.old.items versions.old.items
        × IsWithin (ids ++ nodes) nodes link × IsNewLink ids nodes first link new }
    ensures state { (ids : List ℕ) (nodes : List ℕ) (first : ℕ) (rows : List Row) → Linking ids nodes first rows w.old.words children.old.items versions.old.items
        → IsWithin (ids ++ nodes) nodes link → IsNewLink ids nodes first link new
        → Linking ids nodes first (rows ++ LinkRow (link_of (ids ++ nodes) nodes link) ∷ []) w.new.words children.new.items versions.new.items }
    ensures length { length w.new.words ≡ length w.old.words + 8 }
    ensures room { w.new.spare ≡ w.old.spare - 8 }
{
    let parent = link.parent as usize;
    let child = link.child as usize;
    let spot = push_link(w, new, children[parent], versions[child]);
    children[parent] = Tail { spot, word: 5 };
    versions[child] = Tail { spot, word: 6 };
}

/// Puts the links behind the nodes. `first` is the place of the first node's record.
///
/// # Errors
///
/// `NoMemory` where there is none for the ends of chains.
pub(crate) fn put_links(
    alloc: Global,
    w: &mut VecWords,
    ids: &[NodeId],
    first: u32,
    nodes: &[BaseNode],
    links: &[BaseLink],
) -> Result<(), NoMemory>
    requires places { (length ids.now < first) × (first + length nodes.now < 2 ^ 32) × (length w.old.words + 8 * length links.now < 8 * 2 ^ 32) }
    requires room { 8 * length links.now ≤ w.old.spare }
    requires once { IsOnce (ids.now ++ map (λ n. n.id) nodes.now) }
    requires within { All (IsWithin (ids.now ++ map (λ n. n.id) nodes.now) (map (λ n. n.id) nodes.now)) links.now }
    requires noded { (d : Dataset) × (chunks : List ℕ) × (edges : List BaseEdge) × (ns : List Node) × (first ≡ length (noded_rows d ids.now chunks edges []))
        × (w.old.words ≡ words_of (noded_rows d ids.now chunks edges ns)) × AreNodes chunks nodes.now ns }
    ensures words { (d : Dataset) (chunks : List ℕ) (edges : List BaseEdge) (ns : List Node) → first ≡ length (noded_rows d ids.now chunks edges [])
        → w.old.words ≡ words_of (noded_rows d ids.now chunks edges ns) → AreNodes chunks nodes.now ns → OnOk result (w.new.words ≡ words_of (linked_rows d ids.now chunks edges ns links.now)) }
    ensures length { OnOk result (length w.new.words ≡ length w.old.words + 8 * length links.now) }
    ensures room { OnOk result (w.new.spare ≡ w.old.spare - 8 * length links.now) }
{
    let mut children = Vec::new(alloc);
    put_tails(&mut children, first, nodes.len() as u32, 4)?;
    let mut versions = Vec::new(alloc);
    put_tails(&mut versions, 1, ids.len() as u32, 5)?;
    put_tails(&mut versions, first, nodes.len() as u32, 5)?;
    for link in links {
        let new = new_link(ids, first, nodes, *link);
        put_link(w, &mut children, &mut versions, *link, new);
    }
    Ok(())
}
