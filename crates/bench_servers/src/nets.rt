//! The net of an object's active edges, and cuts and flows over it.

ghost use Rattle.std.specs.Prelude.{◌≡◌, ◌<◌, true};
ghost use Rattle.graph_model.specs.Lists.{has};
ghost use Rattle.std.specs.List.{All, list_any};
ghost use Rattle.bench_servers.specs.Nets.{IsAsked};

use flow_net::{Flow, Link, Net, check_cut, is_net};
use min_cut::{CutError, LeastCut, least_cut};
use node_ids::NodeId;
use op_model::pairs::pair_between;
use op_model::{Carry, Edge, Pair, Shown, Weight};
use pcg_base::NoMemory;
use std::alloc::{AllocError, Global};

/// The place of an id in an ascending list.
fn place_of(leaves: &[NodeId], id: NodeId) -> Option<u32> {
    match leaves.binary_search(&id) {
        Ok(place) => u32::try_from(place).ok(),
        Err(_) => None,
    }
}

/// An edge as a link between the places of its ends.
fn link_of(leaves: &[NodeId], edge: &Edge) -> Option<Link> {
    let room = match edge.weight {
        Weight::Affinity(affinity) => Some(affinity),
        Weight::Glue => None,
    };
    Some(Link {
        a: place_of(leaves, edge.pair.a)?,
        b: place_of(leaves, edge.pair.b)?,
        room,
    })
}

/// The net of edges among an ascending list of supervoxels: a vertex for each supervoxel, and a link
/// for each edge. `None` where an end isn't in the list, or a pair stands twice.
///
/// # Errors
///
/// `AllocError` where the links can't be had.
pub fn net_of(alloc: Global, leaves: &[NodeId], part: &[Edge]) -> Result<Option<Net>, AllocError> {
    let mut links = Vec::new(alloc);
    for edge in part {
        let Some(link) = link_of(leaves, edge) else {
            return Ok(None);
        };
        links.push(link)?;
    }
    let Ok(size) = u32::try_from(leaves.len()) else {
        return Ok(None);
    };
    if !is_net(size, links.as_slice()) {
        return Ok(None);
    }
    Ok(Some(Net::new(size, links)))
}

/// The places of marks in an ascending list of supervoxels. `None` where one isn't in it.
///
/// # Errors
///
/// `AllocError` where the list can't be had.
pub fn places_of(
    alloc: Global,
    leaves: &[NodeId],
    marks: &[NodeId],
) -> Result<Option<Vec<u32>>, AllocError> {
    let mut places = Vec::new(alloc);
    for mark in marks {
        let Some(place) = place_of(leaves, *mark) else {
            return Ok(None);
        };
        places.push(place)?;
    }
    Ok(Some(places))
}

fn has_place(places: &[u32], place: u32) -> bool
    ensures { result ≡ has places.now place }
{
    places.iter().any(|x| *x == place)
}

fn share_one(sources: &[u32], sinks: &[u32]) -> bool
    ensures { result ≡ list_any (λ s. has sinks.now s) sources.now }
{
    sources.iter().any(|source| has_place(sinks, *source))
}

fn are_below(places: &[u32], size: u32) -> bool
    ensures { result ≡ true → All (λ s. s < size) places.now }
{
    places.iter().all(|s| *s < size)
}

// whether a least cut of the net may be asked between these marks
fn is_asked(net: &Net, sources: &[u32], sinks: &[u32]) -> bool
    ensures { result ≡ true → IsAsked net.now sources.now sinks.now }
{
    let size = net.size();
    if net.links().len() > 500000 || sources.is_empty() || sinks.is_empty() {
        return false;
    }
    if !are_below(sources, size) || !are_below(sinks, size) || share_one(sources, sinks) {
        return false;
    }
    true
}

/// The least cut of a net between vertices. `None` where none may be asked: there are over 500,000
/// links, or the marks are no vertices, or stand on both sides, or there are none.
///
/// # Errors
///
/// As [`least_cut`].
pub fn cut_of(
    alloc: Global,
    net: &Net,
    sources: &[u32],
    sinks: &[u32],
) -> Result<Option<LeastCut>, CutError> {
    if !is_asked(net, sources, sinks) {
        return Ok(None);
    }
    let least = least_cut(alloc, net, sources, sinks)?;
    Ok(Some(least))
}

/// Whether `check_cut` accepts these links as a cut of the net with these amounts as its flow, and
/// `least_cut` finds the same links.
///
/// # Errors
///
/// `NoMemory` where the work has none.
fn is_accepted(
    alloc: Global,
    net: &Net,
    sources: &[u32],
    sinks: &[u32],
    links: &[u32],
    amounts: Vec<i64>,
) -> Result<bool, NoMemory> {
    if !is_asked(net, sources, sinks) || amounts.len() != net.links().len() {
        return Ok(false);
    }
    let Ok(least) = least_cut(alloc, net, sources, sinks) else {
        return Ok(false);
    };
    if least.cut.links.as_slice() != links {
        return Ok(false);
    }
    let Ok(mut seen) = vec![in alloc; false; net.size() as usize] else {
        return Err(NoMemory);
    };
    let flow = Flow { amounts };
    let checked = check_cut(net, sources, sinks, &least.cut, &flow, seen.as_mut_slice());
    Ok(checked.is_ok())
}

/// The numbers of the edges with these pairs, which stand in the edges' order. `None` where a pair
/// has no edge, or they stand in another order.
fn links_of(alloc: Global, part: &[Edge], pairs: &[Pair]) -> Result<Option<Vec<u32>>, AllocError> {
    let mut links = Vec::new(alloc);
    let mut next: usize = 0;
    let mut number: u32 = 0;
    for edge in part {
        if pairs.get(next) == Some(&edge.pair) {
            links.push(number)?;
            next = next.wrapping_add(1);
        }
        number = number.wrapping_add(1);
    }
    if next != pairs.len() {
        return Ok(None);
    }
    Ok(Some(links))
}

/// What a carry moves along an edge from its lesser end to its greater, if it is one along this edge.
fn amount_along(edge: &Edge, carry: Option<&Carry>) -> Option<i64> {
    let carry = carry?;
    if pair_between(carry.from, carry.to) != edge.pair || carry.amount == 0 {
        return None;
    }
    let amount = i64::try_from(carry.amount).ok()?;
    if carry.from == edge.pair.a {
        Some(amount)
    } else {
        Some(amount.wrapping_neg())
    }
}

/// The amount of each edge by carries, which stand in the edges' order. `None` where a carry is along
/// no edge, or they stand in another order, or one is of nothing.
fn amounts_of(
    alloc: Global,
    part: &[Edge],
    flow: &[Carry],
) -> Result<Option<Vec<i64>>, AllocError> {
    let mut amounts = Vec::new(alloc);
    let mut next: usize = 0;
    for edge in part {
        match amount_along(edge, flow.get(next)) {
            Some(amount) => {
                amounts.push(amount)?;
                next = next.wrapping_add(1);
            }
            None => amounts.push(0)?,
        }
    }
    if next != flow.len() {
        return Ok(None);
    }
    Ok(Some(amounts))
}

/// The sum of the affinities of edges with these numbers.
fn weight_of(part: &[Edge], links: &[u32]) -> u64 {
    let mut sum: u64 = 0;
    for link in links {
        if let Some(edge) = part.get(*link as usize) {
            if let Weight::Affinity(affinity) = edge.weight {
                sum = sum.wrapping_add(affinity as u64);
            }
        }
    }
    sum
}

/// Whether what a split shows is the least cut of an object's active edges between its marks, with its
/// weight and a flow that `check_cut` accepts. The object's supervoxels are `leaves`, ascending, and
/// its active edges `part`, ascending by pair.
///
/// # Errors
///
/// `NoMemory` where the work has none.
pub fn is_shown(
    alloc: Global,
    leaves: &[NodeId],
    part: &[Edge],
    sources: &[NodeId],
    sinks: &[NodeId],
    shown: &Shown,
) -> Result<bool, NoMemory> {
    let Ok(Some(net)) = net_of(alloc, leaves, part) else {
        return Ok(false);
    };
    let Ok(Some(from)) = places_of(alloc, leaves, sources) else {
        return Ok(false);
    };
    let Ok(Some(to)) = places_of(alloc, leaves, sinks) else {
        return Ok(false);
    };
    let Ok(Some(links)) = links_of(alloc, part, shown.cut.list.as_slice()) else {
        return Ok(false);
    };
    let Ok(Some(amounts)) = amounts_of(alloc, part, shown.flow.list.as_slice()) else {
        return Ok(false);
    };
    if weight_of(part, links.as_slice()) != shown.total {
        return Ok(false);
    }
    is_accepted(
        alloc,
        &net,
        from.as_slice(),
        to.as_slice(),
        links.as_slice(),
        amounts,
    )
}
