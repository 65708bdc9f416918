//! The plain program for the least cut: shortest augmenting walks, one at a time, each found by sweeps over all links.
//! The shipped body keeps the same promises.

ghost use Rattle.std.specs.Prelude.{◌≡◌, ℕ, ◌<◌, ◌≤◌, length, map, ◌⊎◌, true, false, Some, None, IfOk, IfErr, IsOk};
ghost use Rattle.std.specs.List.{All};
ghost use Rattle.flow_net.specs.Net.{wire_of, wires, IsAscending};
ghost use Rattle.graph_model.specs.Lists.{has};
ghost use Rattle.graph_model.specs.Cuts.{least_cut as the_least_cut, weight, IsLeastCut, chosen, is_affinity};
ghost use Rattle.flow_net.specs.Verdict.{Accepts};
ghost use Rattle.graph_model.specs.Wires.{EndsBelow};
ghost use Rattle.min_cut.specs.Glue.{glued};

use crate::answer::edge_links;
use crate::search::Visit;
use crate::walk::greatest_flow;
use crate::{CutError, LeastCut};
use flow_net::joined::first_joined;
use flow_net::{Cut, Flow, Link, Net};
use std::alloc::{AllocError, Global};

// the links that are not glue
fn affinity_links(alloc: Global, links: &[Link]) -> Result<Vec<u32>, AllocError>
    requires { length links.now ≤ 500000 }
    ensures { IfOk result (λ v. v.items ≡ chosen (is_affinity (map wire_of links.now)) (length links.now)) }
{
    let mut chosen = Vec::new(alloc);
    for k in 0..links.len() as u32 {
        if links[k as usize].room.is_some() {
            chosen.push(k)?;
        }
    }
    Ok(chosen)
}

// where a walk of glue joins a source to a sink
fn glue_fault(
    links: &[Link],
    affinity: &[u32],
    sources: &[u32],
    sinks: &[u32],
    seen: &mut [bool],
) -> Option<CutError>
    requires few { length links.now ≤ 500000 }
    requires affinity { affinity.now ≡ chosen (is_affinity (map wire_of links.now)) (length links.now) }
    requires ends { EndsBelow (length seen.old) (map wire_of links.now) }
    requires sources { All (λ s. s < length seen.old) sources.now }
    requires sinks { All (λ t. t < length seen.old) sinks.now }
    ensures { result ≡ glued (map wire_of links.now) sources.now sinks.now }
{
    match first_joined(links, affinity, sources, sinks, seen) {
        Some((source, sink)) => Some(CutError::Glued { source, sink }),
        None => None,
    }
}

// refuses where a walk of glue joins a source to a sink
fn refuse_glue(
    alloc: Global,
    links: &[Link],
    size: usize,
    sources: &[u32],
    sinks: &[u32],
) -> Result<(), CutError>
    requires few { length links.now ≤ 500000 }
    requires ends { EndsBelow size (map wire_of links.now) }
    requires sources { All (λ s. s < size) sources.now }
    requires sinks { All (λ t. t < size) sinks.now }
    ensures none { IsOk result → glued (map wire_of links.now) sources.now sinks.now ≡ None }
    ensures some { IfErr result (λ e. (e ≡ CutError.NoMemory) ⊎ (glued (map wire_of links.now) sources.now sinks.now ≡ Some e)) }
{
    let Ok(affinity) = affinity_links(alloc, links) else {
        return Err(CutError::NoMemory);
    };
    let Ok(mut seen) = vec![in alloc; false; size] else {
        return Err(CutError::NoMemory);
    };
    match glue_fault(
        links,
        affinity.as_slice(),
        sources,
        sinks,
        seen.as_mut_slice(),
    ) {
        Some(fault) => Err(fault),
        None => Ok(()),
    }
}

/// The least cut, as [`crate::least_cut`] promises it, by sweeps over all links.
pub fn least_cut(
    alloc: Global,
    net: &Net,
    sources: &[u32],
    sinks: &[u32],
) -> Result<LeastCut, CutError>
    requires few { length net.now.links ≤ 500000 }
    requires sources { All (λ s. s < net.now.size) sources.now }
    requires sinks { All (λ t. t < net.now.size) sinks.now }
    requires some { (0 < length sources.now) × (0 < length sinks.now) }
    requires sides { (v : ℕ) → has sources.now v ≡ true → has sinks.now v ≡ false }
    ensures cut { IfOk result (λ r. r.cut.links.items ≡ the_least_cut (wires net.now) sources.now sinks.now) }
    ensures least { IfOk result (λ r. IsLeastCut (wires net.now) sources.now sinks.now r.cut.links.items) }
    ensures total { IfOk result (λ r. r.total ≡ weight (wires net.now) (has r.cut.links.items)) }
    ensures accepts { IfOk result (λ r. Accepts net.now sources.now sinks.now r.cut.links.items r.flow.amounts.items) }
    ensures ascending { IfOk result (λ r. IsAscending r.cut.links.items) }
    ensures below { IfOk result (λ r. All (λ k. k < length net.now.links) r.cut.links.items) }
    ensures amounts { IfOk result (λ r. length r.flow.amounts.items ≡ length net.now.links) }
    ensures glued { IfErr result (λ e. (e ≡ CutError.NoMemory) ⊎ (glued (wires net.now) sources.now sinks.now ≡ Some e)) }
    ensures separable { IsOk result → glued (wires net.now) sources.now sinks.now ≡ None }
{
    let links = net.links();
    let size = net.size() as usize;
    refuse_glue(alloc, links, size, sources, sinks)?;
    let Ok(mut amounts) = vec![in alloc; 0i64; links.len()] else {
        return Err(CutError::NoMemory);
    };
    let nothing: Option<Visit> = None;
    let Ok(mut visits) = vec![in alloc; nothing; size] else {
        return Err(CutError::NoMemory);
    };
    let total = greatest_flow(
        links,
        sources,
        sinks,
        amounts.as_mut_slice(),
        visits.as_mut_slice(),
    );
    let Ok(chosen) = edge_links(alloc, links, visits.as_slice()) else {
        return Err(CutError::NoMemory);
    };
    Ok(LeastCut {
        cut: Cut { links: chosen },
        total,
        flow: Flow { amounts },
    })
}
