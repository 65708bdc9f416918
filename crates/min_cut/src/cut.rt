//! The least cut by blocking flows.

ghost use Rattle.std.specs.Prelude.{◌≡◌, ℕ, ◌<◌, ◌≤◌, length, map, ◌⊎◌, true, false, Some, None, IfOk, IfErr, IsOk};
ghost use Rattle.std.specs.List.{All};
ghost use Rattle.flow_net.specs.Net.{wire_of, wires, IsAscending};
ghost use Rattle.graph_model.specs.Wires.{EndsBelow};
ghost use Rattle.min_cut.specs.Arcs.{IsArcs};
ghost use Rattle.graph_model.specs.Lists.{has};
ghost use Rattle.graph_model.specs.Cuts.{least_cut as the_least_cut, weight, IsLeastCut};
ghost use Rattle.flow_net.specs.Verdict.{Accepts};
ghost use Rattle.min_cut.specs.Glue.{glued};

use crate::answer::edge_links;
use crate::arcs::{Arcs, links_by_vertex};
use crate::glue::first_glued;
use crate::phases::greatest_flow;
use crate::search::Visit;
use crate::{CutError, LeastCut};
use flow_net::{Cut, Flow, Link, Net};
use std::alloc::Global;

// the refusal, where a walk of glue joins a source to a sink
fn glue_fault(
    links: &[Link],
    arcs: &Arcs,
    sources: &[u32],
    sinks: &[u32],
    visits: &mut [Option<Visit>],
    queue: &mut [u32],
) -> Option<CutError>
    requires ends { EndsBelow (length visits.old) (map wire_of links.now) }
    requires arcs { IsArcs (length visits.old) (map wire_of links.now) arcs.now.starts.items arcs.now.links.items }
    requires room { length queue.old ≡ length visits.old }
    requires sources { All (λ s. s < length visits.old) sources.now }
    requires sinks { All (λ t. t < length visits.old) sinks.now }
    ensures { result ≡ glued (map wire_of links.now) sources.now sinks.now }
{
    match first_glued(
        links,
        arcs.starts.as_slice(),
        arcs.links.as_slice(),
        sources,
        sinks,
        visits,
        queue,
    ) {
        Some((source, sink)) => Some(CutError::Glued { source, sink }),
        None => None,
    }
}

/// Of all sets of links that hold no glue, separate the sources from the sinks and weigh the least: the
/// one with the least source side, its weight, and a flow of that value between the marks.
///
/// The net has at most 500,000 links. Marks are vertices of it, at least one on each side and none on
/// both; one that is named twice counts once. Where walks of glue join sources to sinks, the answer is
/// `Glued` with the first such source and the first sink that it is joined to, each in the order of its
/// list. `NoMemory` may come at any call.
///
/// The search for glue takes vertices and links in time, once for all sources together, and only where
/// it comes to a sink once for each source. A phase of the flow takes vertices times links at most.
pub fn least_cut(
    alloc: Global,
    net: &Net,
    sources: &[u32],
    sinks: &[u32],
) -> Result<LeastCut, CutError>
    requires few { length net.now.links ≤ 500000 }
    requires sources { All (λ s. s < net.now.size) sources.now }
    requires sinks { All (λ t. t < net.now.size) sinks.now }
    requires some { (0 < length sources.now) × (0 < length sinks.now) }
    requires sides { (v : ℕ) → has sources.now v ≡ true → has sinks.now v ≡ false }
    ensures cut { IfOk result (λ r. r.cut.links.items ≡ the_least_cut (wires net.now) sources.now sinks.now) }
    ensures least { IfOk result (λ r. IsLeastCut (wires net.now) sources.now sinks.now r.cut.links.items) }
    ensures total { IfOk result (λ r. r.total ≡ weight (wires net.now) (has r.cut.links.items)) }
    ensures accepts { IfOk result (λ r. Accepts net.now sources.now sinks.now r.cut.links.items r.flow.amounts.items) }
    ensures ascending { IfOk result (λ r. IsAscending r.cut.links.items) }
    ensures below { IfOk result (λ r. All (λ k. k < length net.now.links) r.cut.links.items) }
    ensures amounts { IfOk result (λ r. length r.flow.amounts.items ≡ length net.now.links) }
    ensures glued { IfErr result (λ e. (e ≡ CutError.NoMemory) ⊎ (glued (wires net.now) sources.now sinks.now ≡ Some e)) }
    ensures separable { IsOk result → glued (wires net.now) sources.now sinks.now ≡ None }
{
    let links = net.links();
    let size = net.size() as usize;
    let Ok(arcs) = links_by_vertex(alloc, links, size) else {
        return Err(CutError::NoMemory);
    };
    let Ok(mut queue) = vec![in alloc; 0u32; size] else {
        return Err(CutError::NoMemory);
    };
    let nothing: Option<Visit> = None;
    let Ok(mut visits) = vec![in alloc; nothing; size] else {
        return Err(CutError::NoMemory);
    };
    if let Some(fault) = glue_fault(
        links,
        &arcs,
        sources,
        sinks,
        visits.as_mut_slice(),
        queue.as_mut_slice(),
    ) {
        return Err(fault);
    }
    let Ok(mut amounts) = vec![in alloc; 0i64; links.len()] else {
        return Err(CutError::NoMemory);
    };
    let Ok(total) = greatest_flow(
        alloc,
        links,
        arcs.starts.as_slice(),
        arcs.links.as_slice(),
        arcs.ends.as_slice(),
        sources,
        sinks,
        amounts.as_mut_slice(),
        visits.as_mut_slice(),
        queue.as_mut_slice(),
    ) else {
        return Err(CutError::NoMemory);
    };
    let Ok(chosen) = edge_links(alloc, links, visits.as_slice()) else {
        return Err(CutError::NoMemory);
    };
    Ok(LeastCut {
        cut: Cut { links: chosen },
        total,
        flow: Flow { amounts },
    })
}
