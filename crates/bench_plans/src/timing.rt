//! The plan of a split, and its parts.

use bench_servers::Server;
use bench_servers::nets::{cut_of, net_of, places_of};
use flow_net::Net;
use node_ids::NodeId;
use op_model::{Edge, Edit, Ids};
use std::alloc::Global;
use std::rt::Clock;
use std::time::Instant;

/// How long the plan of a split takes, and its parts, in microseconds.
#[derive(Clone, Copy, Drop)]
pub struct Split {
    /// How many active edges the object has.
    pub edges: usize,
    /// Finding them.
    pub component: u128,
    /// Making their net.
    pub net: u128,
    /// Cutting it.
    pub cut: u128,
    /// The whole plan.
    pub plan: u128,
    /// What the cut weighs.
    pub weight: u64,
}

fn one_of(alloc: Global, sv: NodeId) -> Option<Ids> {
    let mut list = Vec::new(alloc);
    list.push(sv).ok()?;
    Some(Ids { list })
}

/// The net of edges with the places of two supervoxels, and how long its making takes.
fn time_net<R: Clock>(
    rt: &R,
    alloc: Global,
    leaves: &[NodeId],
    part: &[Edge],
    from: NodeId,
    to: NodeId,
) -> Option<(Net, Vec<u32>, Vec<u32>, u128)> {
    let start = Instant::now(rt).ok()?;
    let net = net_of(alloc, leaves, part).ok()??;
    let sources = places_of(alloc, leaves, &[from]).ok()??;
    let sinks = places_of(alloc, leaves, &[to]).ok()??;
    let time = start.elapsed(rt).ok()?;
    Some((net, sources, sinks, time.as_micros()))
}

/// What a net's least cut weighs, and how long it takes.
fn time_cut<R: Clock>(
    rt: &R,
    alloc: Global,
    net: &Net,
    sources: &[u32],
    sinks: &[u32],
) -> Option<(u64, u128)> {
    let start = Instant::now(rt).ok()?;
    let least = cut_of(alloc, net, sources, sinks).ok()??;
    let time = start.elapsed(rt).ok()?;
    Some((least.total, time.as_micros()))
}

/// How long the plan of a split between two supervoxels takes.
fn time_plan<R: Clock>(
    rt: &R,
    alloc: Global,
    server: &mut Server,
    from: NodeId,
    to: NodeId,
) -> Option<u128> {
    let edit = Edit::Split {
        sources: one_of(alloc, from)?,
        sinks: one_of(alloc, to)?,
    };
    let start = Instant::now(rt).ok()?;
    let plan = server.plan(alloc, edit).ok()?;
    let time = start.elapsed(rt).ok()?;
    drop(plan);
    Some(time.as_micros())
}

/// Times the plan of a split between two supervoxels of an object, and its parts.
pub fn time_split<R: Clock>(
    rt: &R,
    alloc: Global,
    server: &mut Server,
    from: NodeId,
    to: NodeId,
) -> Option<Split> {
    let leaves = server.leaves(alloc, from).ok()?;
    let start = Instant::now(rt).ok()?;
    let part = server.component(alloc, from, u32::MAX, 500000).ok()?;
    let component = start.elapsed(rt).ok()?;
    let ids = leaves.list.as_slice();
    let (net, sources, sinks, making) = time_net(rt, alloc, ids, part.list.as_slice(), from, to)?;
    let (weight, cut) = time_cut(rt, alloc, &net, sources.as_slice(), sinks.as_slice())?;
    let plan = time_plan(rt, alloc, server, from, to)?;
    Some(Split {
        edges: part.list.len(),
        component: component.as_micros(),
        net: making,
        cut,
        plan,
        weight,
    })
}
