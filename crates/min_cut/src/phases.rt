//! The greatest flow by blocking flows: each phase gives the vertices their levels and then sends more along walks that
//! go up one level with each link. The last phase visits no sink.

ghost use Rattle.std.specs.Prelude.{◌≡◌, ℕ, pos, ◌<◌, ◌≤◌, ◌+◌, ◌^◌, length, true, false, map, IfOk, is_some};
ghost use Rattle.std.specs.List.{All};
ghost use Rattle.flow_net.specs.Net.{wire_of};
ghost use Rattle.graph_model.specs.Lists.{has};
ghost use Rattle.graph_model.specs.Flows.{amount, IsFlow, value};
ghost use Rattle.graph_model.specs.Residual.{IsLast};
ghost use Rattle.graph_model.specs.Cuts.{Separates, is_affinity};
ghost use Rattle.graph_model.specs.Wires.{EndsBelow};
ghost use Rattle.min_cut.specs.Tree.{visit_at};
ghost use Rattle.min_cut.specs.Arcs.{IsArcs, AreEnds};
ghost use Rattle.min_cut.specs.Queue.{marked};

use crate::blocking::{Step, block};
use crate::breadth::{explore, level_at};
use crate::rooms::total_room;
use crate::search::{Visit, width_of};
use crate::walk::augment;
use flow_net::Link;
use std::alloc::{AllocError, Global};

// marks the sinks
fn mark_sinks(sinks: &[u32], is_sink: &mut [bool])
    requires sinks { All (λ t. t < length is_sink.old) sinks.now }
    requires none { (v : ℕ) → marked is_sink.old v ≡ false }
    ensures { (v : ℕ) → marked is_sink.new v ≡ has sinks.now v }
{
    for t in sinks {
        is_sink[*t as usize] = true;
    }
}

// phases, until no sink is visited; the flow's value
fn run_phases(
    links: &[Link],
    starts: &[usize],
    arcs: &[u32],
    ends: &[u32],
    sources: &[u32],
    sinks: &[u32],
    is_sink: &[bool],
    amounts: &mut [i64],
    visits: &mut [Option<Visit>],
    queue: &mut [u32],
    alive: &mut [bool],
    cursors: &mut [usize],
    steps: &mut [Step],
) -> u64
    requires few { length links.now ≤ 500000 }
    requires size { length visits.old < 2 ^ 32 }
    requires amounts { length amounts.old ≡ length links.now }
    requires ends { EndsBelow (length visits.old) (map wire_of links.now) }
    requires arcs { IsArcs (length visits.old) (map wire_of links.now) starts.now arcs.now }
    requires leads { AreEnds (length visits.old) (map wire_of links.now) starts.now arcs.now ends.now }
    requires room { length queue.old ≡ length visits.old }
    requires marks { length is_sink.now ≡ length visits.old }
    requires alive { length alive.old ≡ length visits.old }
    requires cursors { length cursors.old ≡ length visits.old }
    requires steps { length steps.old ≡ length visits.old }
    requires sources { All (λ s. s < length visits.old) sources.now }
    requires marked { (v : ℕ) → marked is_sink.now v ≡ has sinks.now v }
    requires sides { (v : ℕ) → has sources.now v ≡ true → has sinks.now v ≡ false }
    requires zero { (k : ℕ) → amount amounts.old k ≡ pos 0 }
    requires separable { Separates (map wire_of links.now) sources.now sinks.now (is_affinity (map wire_of links.now)) }
    ensures flow { IsFlow (length visits.new) (map wire_of links.now) sources.now sinks.now amounts.new }
    ensures last { IsLast (map wire_of links.now) sources.now sinks.now amounts.new (λ v. is_some (visit_at visits.new v)) }
    ensures value { value (map wire_of links.now) amounts.new sources.now ≡ pos result }
{
    let _most = total_room(links);
    let mut sent: u64 = 0;
    let mut going = true;
    while going {
        match explore(
            links, amounts, starts, arcs, ends, sources, is_sink, visits, queue,
        ) {
            Some(sink) => {
                let width = width_of(visits, sink);
                let depth = level_at(visits, sink);
                let _source = augment(links, amounts, visits, sink, width, sent);
                sent = block(
                    links,
                    amounts,
                    starts,
                    arcs,
                    ends,
                    visits,
                    is_sink,
                    alive,
                    cursors,
                    steps,
                    sources,
                    depth,
                    sent + width,
                );
            }
            None => going = false,
        }
    }
    sent
}

/// Makes the amounts a greatest flow, and the visits what more can be sent to from the sources then; the flow's value.
/// Blocking flows: Dinitz 1970.
pub(crate) fn greatest_flow(
    alloc: Global,
    links: &[Link],
    starts: &[usize],
    arcs: &[u32],
    ends: &[u32],
    sources: &[u32],
    sinks: &[u32],
    amounts: &mut [i64],
    visits: &mut [Option<Visit>],
    queue: &mut [u32],
) -> Result<u64, AllocError>
    requires few { length links.now ≤ 500000 }
    requires size { length visits.old < 2 ^ 32 }
    requires amounts { length amounts.old ≡ length links.now }
    requires ends { EndsBelow (length visits.old) (map wire_of links.now) }
    requires arcs { IsArcs (length visits.old) (map wire_of links.now) starts.now arcs.now }
    requires leads { AreEnds (length visits.old) (map wire_of links.now) starts.now arcs.now ends.now }
    requires room { length queue.old ≡ length visits.old }
    requires sources { All (λ s. s < length visits.old) sources.now }
    requires sinks { All (λ t. t < length visits.old) sinks.now }
    requires sides { (v : ℕ) → has sources.now v ≡ true → has sinks.now v ≡ false }
    requires zero { (k : ℕ) → amount amounts.old k ≡ pos 0 }
    requires separable { Separates (map wire_of links.now) sources.now sinks.now (is_affinity (map wire_of links.now)) }
    ensures flow { IfOk result (λ _. IsFlow (length visits.new) (map wire_of links.now) sources.now sinks.now amounts.new) }
    ensures last { IfOk result (λ _. IsLast (map wire_of links.now) sources.now sinks.now amounts.new (λ v. is_some (visit_at visits.new v))) }
    ensures value { IfOk result (λ total. value (map wire_of links.now) amounts.new sources.now ≡ pos total) }
{
    let size = visits.len();
    let mut is_sink = vec![in alloc; false; size]?;
    mark_sinks(sinks, is_sink.as_mut_slice());
    let mut alive = vec![in alloc; false; size]?;
    let mut cursors = vec![in alloc; 0usize; size]?;
    let no_step = Step {
        link: 0,
        from: 0,
        room: 0,
    };
    let mut steps = vec![in alloc; no_step; size]?;
    let total = run_phases(
        links,
        starts,
        arcs,
        ends,
        sources,
        sinks,
        is_sink.as_slice(),
        amounts,
        visits,
        queue,
        alive.as_mut_slice(),
        cursors.as_mut_slice(),
        steps.as_mut_slice(),
    );
    Ok(total)
}
