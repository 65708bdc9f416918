//! The check of a cut and the flow that shows it. Nothing here takes memory.

ghost use Rattle.std.specs.Prelude.{◌≡◌, ℕ, ◌<◌, ◌≤◌, length, map, pos, IsOk, ◌↔◌, true, false};
ghost use Rattle.flow_net.specs.Net.{IsAscending, wire_of};
ghost use Rattle.flow_net.specs.declared.CutFault.TheVariants.{OverRoom, Unbalanced};
ghost use Rattle.graph_model.specs.Flows.{amount, into, out_of};
ghost use Rattle.graph_model.specs.Lists.{has};
ghost use Rattle.std.specs.List.{All};
ghost use Rattle.flow_net.specs.Verdict.{first_fault, sums_fault, result_of, Accepts};

use crate::balance::{first_unbalanced, into_vertex, out_of_vertex};
use crate::carries::{first_over, value_of};
use crate::cuts::{first_glue, weight_of_cut};
use crate::joined::first_joined;
use crate::{Cut, CutFault, Flow, Link, Net};

// the fault of an amount over its room
fn over_room(amounts: &[i64], link: u32) -> CutFault
    requires { link < length amounts.now }
    ensures { result ≡ OverRoom link (amount amounts.now link) }
{
    CutFault::OverRoom {
        link,
        amount: amounts[link as usize],
    }
}

// the fault of a vertex that isn't balanced
fn unbalanced(links: &[Link], amounts: &[i64], vertex: u32) -> CutFault
    requires few { length links.now ≤ 500000 }
    requires amounts { length amounts.now ≡ length links.now }
    ensures { result ≡ Unbalanced vertex (pos (into (map wire_of links.now) amounts.now vertex)) (pos (out_of (map wire_of links.now) amounts.now vertex)) }
{
    CutFault::Unbalanced {
        vertex,
        into: into_vertex(links, amounts, vertex) as i128,
        out: out_of_vertex(links, amounts, vertex) as i128,
    }
}

// the fault of a value that isn't the cut's weight, or Ok
fn sums_verdict(
    links: &[Link],
    sources: &[u32],
    chosen: &[u32],
    amounts: &[i64],
) -> Result<(), CutFault>
    requires few { length links.now ≤ 500000 }
    requires ascending { IsAscending chosen.now }
    requires below { All (λ k. k < length links.now) chosen.now }
    requires amounts { length amounts.now ≡ length links.now }
    ensures { result ≡ result_of (sums_fault (map wire_of links.now) sources.now chosen.now amounts.now) }
{
    let value = value_of(links, amounts, sources);
    let weight = weight_of_cut(links, chosen);
    if value == weight as i128 {
        Ok(())
    } else {
        Err(CutFault::Unequal { value, weight })
    }
}

// the first fault, or Ok
fn verdict(
    net: &Net,
    sources: &[u32],
    sinks: &[u32],
    chosen: &[u32],
    amounts: &[i64],
    seen: &mut [bool],
) -> Result<(), CutFault>
    requires few { length net.now.links ≤ 500000 }
    requires sources { All (λ s. s < net.now.size) sources.now }
    requires sinks { All (λ t. t < net.now.size) sinks.now }
    requires ascending { IsAscending chosen.now }
    requires below { All (λ k. k < length net.now.links) chosen.now }
    requires amounts { length amounts.now ≡ length net.now.links }
    requires room { length seen.old ≡ net.now.size }
    ensures { result ≡ result_of (first_fault net.now sources.now sinks.now chosen.now amounts.now) }
{
    let links = net.links();
    if let Some(link) = first_glue(links, chosen) {
        return Err(CutFault::CutsGlue { link });
    }
    if let Some(link) = first_over(links, amounts) {
        return Err(over_room(amounts, link));
    }
    if let Some(vertex) = first_unbalanced(net.size(), links, amounts, sources, sinks) {
        return Err(unbalanced(links, amounts, vertex));
    }
    if let Some((source, sink)) = first_joined(links, chosen, sources, sinks, seen) {
        return Err(CutFault::Open { source, sink });
    }
    sums_verdict(links, sources, chosen, amounts)
}

/// Checks a cut by itself: Ok exactly where it separates the sources from the sinks, and the flow
/// keeps the rooms, balances at each vertex without a mark, and carries the cut's weight. Then the cut
/// is of least weight. Else the first fault, in the order of [`CutFault`].
///
/// The net has at most 500,000 links. Marks are vertices of it, none on both sides; one that is named
/// twice counts once. The cut's links are numbers of links, ascending. The flow has an amount for each
/// link. `seen` has a place for each vertex; what it holds at the call counts for nothing.
///
/// It takes no memory, so it passes the links often: once for each 2,048 vertices, and to and fro
/// until no vertex is newly reached from the sources.
pub fn check_cut(
    net: &Net,
    sources: &[u32],
    sinks: &[u32],
    cut: &Cut,
    flow: &Flow,
    seen: &mut [bool],
) -> Result<(), CutFault>
    requires few { length net.now.links ≤ 500000 }
    requires sources { All (λ s. s < net.now.size) sources.now }
    requires sinks { All (λ t. t < net.now.size) sinks.now }
    requires sides { (v : ℕ) → has sources.now v ≡ true → has sinks.now v ≡ false }
    requires ascending { IsAscending cut.now.links.items }
    requires below { All (λ k. k < length net.now.links) cut.now.links.items }
    requires amounts { length flow.now.amounts.items ≡ length net.now.links }
    requires room { length seen.old ≡ net.now.size }
    ensures accepts { IsOk result ↔ Accepts net.now sources.now sinks.now cut.now.links.items flow.now.amounts.items }
    ensures verdict { result ≡ result_of (first_fault net.now sources.now sinks.now cut.now.links.items flow.now.amounts.items) }
{
    verdict(
        net,
        sources,
        sinks,
        cut.links.as_slice(),
        flow.amounts.as_slice(),
        seen,
    )
}
