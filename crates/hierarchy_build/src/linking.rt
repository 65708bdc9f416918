//! The links of all nodes to their children, by places.

ghost use Rattle.std.specs.Prelude.{◌≡◌, ◌<◌, ◌≤◌, ◌+◌, ◌++◌, ◌^◌, ℕ, length, map, replicate, slice_index_or, IfOk, OnOk};
ghost use Rattle.std.specs.List.{All};
ghost use Rattle.op_model.specs.declared.base.Dataset.{Dataset};
ghost use Rattle.record_rows.specs.LogRows.{new_links};
ghost use Rattle.base_rows.specs.Lists.{IsWithin, link_of};
ghost use Rattle.op_model.specs.Ingest.{ingested};
ghost use Rattle.octree_layers.specs.Layers.{all_nodes};
ghost use Rattle.hierarchy_build.specs.Links.{AreBuilt, AreByParent, AreLayerLinks, AreRanks, child_links};

use base_rows::BaseLink;
use octree_layers::Made;
use octree_layers::layers::{Layer, places};
use octree_layers::lists::ids_of;
use op_model::Base;
use pcg_base::NoMemory;
use std::alloc::Global;

// a list of so many zeros
fn zeros(alloc: Global, count: u32) -> Result<Vec<u32>, NoMemory>
    ensures { IfOk result (λ v. v.items ≡ replicate count 0) }
{
    let Ok(list) = (vec![in alloc; 0; count as usize]) else {
        return Err(NoMemory);
    };
    Ok(list)
}

// for the place of each node's least leaf the node's place in its layer
fn ranks(alloc: Global, count: u32, made: &[Made]) -> Result<Vec<u32>, NoMemory>
    requires least { All (λ m. m.least < count) made.now }
    requires size { length made.now < 2 ^ 32 }
    ensures { IfOk result (λ v. AreRanks count (map (λ m. m.least) made.now) v.items) }
{
    let mut list = zeros(alloc, count)?;
    for rank in 0..made.len() as u32 {
        let node = made[rank as usize];
        list[node.least as usize] = rank;
    }
    Ok(list)
}

// the least leaves of nodes
fn leasts(alloc: Global, made: &[Made]) -> Result<Vec<u32>, NoMemory>
    ensures { IfOk result (λ v. v.items ≡ map (λ m. m.least) made.now) }
{
    let mut list = Vec::new(alloc);
    for node in made {
        let Ok(()) = list.push(node.least) else {
            return Err(NoMemory);
        };
    }
    Ok(list)
}

// the children of a layer in their order with their parents
fn children(
    alloc: Global,
    first_child: u32,
    first_parent: u32,
    leads: &[u32],
    firsts: &[u32],
    ranks: &[u32],
) -> Result<Vec<BaseLink>, NoMemory>
    requires leads { All (λ p. p < length firsts.now) leads.now }
    requires firsts { All (λ p. p < length ranks.now) firsts.now }
    requires ranks { All (λ r. first_parent + r < 2 ^ 32) ranks.now }
    requires size { first_child + length leads.now < 2 ^ 32 }
    ensures { IfOk result (λ v. v.items ≡ child_links first_child first_parent leads.now firsts.now ranks.now) }
{
    let mut list = Vec::new(alloc);
    for place in 0..leads.len() as u32 {
        let first = firsts[leads[place as usize] as usize];
        let link = BaseLink {
            child: first_child + place,
            parent: first_parent + ranks[first as usize],
        };
        let Ok(()) = list.push(link) else {
            return Err(NoMemory);
        };
    }
    Ok(list)
}

// the same links by parents, those of one parent as they stood
fn by_parent(links: Vec<BaseLink>) -> Result<Vec<BaseLink>, NoMemory>
    ensures { IfOk result (λ v. AreByParent links.items v.items) }
{
    let mut list = links;
    let Ok(()) = list.sort_by_key(|link| link.parent) else {
        return Err(NoMemory);
    };
    Ok(list)
}

// the links of a layer's nodes: the children are told by their least leaves, and the first of them
// and the first node stand at these places
fn layer_links(
    alloc: Global,
    first_child: u32,
    first_parent: u32,
    leads: &[u32],
    layer: &Layer,
) -> Result<Vec<BaseLink>, NoMemory>
    requires leads { All (λ p. p < length layer.now.firsts.items) leads.now }
    requires firsts { All (λ p. p < length layer.now.firsts.items) layer.now.firsts.items }
    requires made { All (λ m. m.least < length layer.now.firsts.items) layer.now.made.items }
    requires places { length layer.now.firsts.items < 2 ^ 32 }
    requires children { first_child + length leads.now < 2 ^ 32 }
    requires parents { first_parent + length layer.now.made.items < 2 ^ 32 }
    ensures { IfOk result (λ v. AreLayerLinks first_child first_parent leads.now layer.now v.items) }
{
    let ranks = ranks(alloc, layer.firsts.len() as u32, &layer.made)?;
    let list = children(
        alloc,
        first_child,
        first_parent,
        leads,
        &layer.firsts,
        &ranks,
    )?;
    by_parent(list)
}

// puts links behind others
fn append(list: &mut Vec<BaseLink>, more: &[BaseLink]) -> Result<(), NoMemory>
    ensures { OnOk result (list.new.items ≡ list.old.items ++ more.now) }
{
    match list.extend_from_slice(more) {
        Ok(()) => Ok(()),
        Err(_) => Err(NoMemory),
    }
}

/// The links of all nodes to their children, by the nodes and then by the children: first those of
/// layer 2, whose children are supervoxels. A child is told by its place among the supervoxels and
/// the nodes of all layers behind them, a parent by its place among the nodes.
///
/// Supervoxels and nodes are fewer than 2^32 together. Time is n log n in the children of each layer.
///
/// # Errors
///
/// `NoMemory` where there is none for the list.
pub fn base_links(alloc: Global, base: &Base, layers: &[Layer]) -> Result<Vec<BaseLink>, NoMemory>
    requires built { (d : Dataset) × AreBuilt d base.now layers.now }
    requires few { length base.now.supervoxels + length (all_nodes base.now layers.now) < 2 ^ 32 }
    ensures links { IfOk result (λ v. (d : Dataset) (now : ℕ) → AreBuilt d base.now layers.now → map (link_of (base.now.supervoxels ++ map (λ n. n.id) (all_nodes base.now layers.now)) (map (λ n. n.id) (all_nodes base.now layers.now))) v.items ≡ new_links d base.now (ingested d base.now now) 0) }
    ensures within { IfOk result (λ v. All (IsWithin (base.now.supervoxels ++ map (λ n. n.id) (all_nodes base.now layers.now)) (map (λ n. n.id) (all_nodes base.now layers.now))) v.items) }
{
    let count = ids_of(base).len() as u32;
    let mut links = Vec::new(alloc);
    let mut leads = places(alloc, count)?;
    let mut first_child = 0;
    let mut first_parent = 0;
    for layer in layers {
        let more = layer_links(alloc, first_child, first_parent, &leads, layer)?;
        append(&mut links, &more)?;
        leads = leasts(alloc, &layer.made)?;
        first_child = count + first_parent;
        first_parent += layer.made.len() as u32;
    }
    Ok(links)
}
