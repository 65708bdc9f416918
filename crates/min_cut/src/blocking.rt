//! A blocking flow: walks that go up one level with each link, until none is found.

ghost use Rattle.std.specs.Prelude.{◌≡◌, ℕ, ◌<◌, ◌≤◌, ◌+◌, ◌^◌, length, true, map, Some, IfSome, min, List};
ghost use Rattle.flow_net.specs.Net.{wire_of};
ghost use Rattle.graph_model.specs.Wires.{wire, EndsBelow};
ghost use Rattle.graph_model.specs.Lists.{has};
ghost use Rattle.graph_model.specs.Flows.{Fitting, amount};
ghost use Rattle.graph_model.specs.Cuts.{weight, is_affinity};
ghost use Rattle.std.specs.List.{All};
ghost use Rattle.min_cut.specs.Tree.{AllFit, EachFits, visit_at, level_of};
ghost use Rattle.min_cut.specs.Arcs.{IsArcs, AreEnds};
ghost use Rattle.min_cut.specs.Queue.{IsShort, marked};
ghost use Rattle.min_cut.specs.Moves.{Moves};
ghost use Rattle.min_cut.specs.Flowing.{Flowing, Apart};
ghost use Rattle.min_cut.specs.Steps.{Climbs, IsNext, step_at};
ghost use Rattle.min_cut.specs.declared.search.Visit.{Visit};

use crate::breadth::arc_from;
use crate::rooms::WIDE;
use crate::search::Visit;
use crate::walk::push_over;
use flow_net::Link;

/// A link of a walk, with the vertex that it leaves and how much more it can carry.
#[derive(Clone, Copy, Drop)]
pub struct Step {
    pub link: u32,
    pub from: u32,
    pub room: u64,
}

/// A link that leads one level up, the vertex that it leads to, and how much more it can carry.
#[derive(Clone, Copy, Drop)]
pub struct Next {
    pub link: u32,
    pub to: u32,
    pub room: u64,
}

/// A walk of so many links from a source to a sink.
#[derive(Clone, Copy, Drop)]
pub struct Found {
    pub source: u32,
    pub sink: u32,
    pub depth: usize,
}

// whether v was visited at the level
fn is_at_level(visits: &[Option<Visit>], v: u32, level: u64) -> bool
    requires { v < length visits.now }
    ensures { result ≡ true → (visit : Visit) × (visit_at visits.now v ≡ Some visit) × (visit.level ≡ level) }
{
    match visits[v as usize] {
        Some(visit) => visit.level == level,
        None => false,
    }
}

// link k, if it leads from a vertex of the level one level up, to a vertex that is alive, and has room
fn next_over(
    links: &[Link],
    amounts: &[i64],
    visits: &[Option<Visit>],
    alive: &[bool],
    k: u32,
    at: u32,
    level: u64,
) -> Option<Next>
    requires at { k < length links.now }
    requires amounts { length amounts.now ≡ length links.now }
    requires fits { EachFits (map wire_of links.now) amounts.now }
    requires ends { EndsBelow (length visits.now) (map wire_of links.now) }
    requires alive { length alive.now ≡ length visits.now }
    requires below { at < length visits.now }
    requires level { level_of visits.now at ≡ level }
    requires low { level < 2 ^ 32 }
    ensures { IfSome result (IsNext (map wire_of links.now) amounts.now visits.now alive.now at level) }
{
    let arc = arc_from(links, amounts, k, at);
    if arc.room == 0 {
        return None;
    }
    if !alive[arc.to as usize] {
        return None;
    }
    if !is_at_level(visits, arc.to, level + 1) {
        return None;
    }
    Some(Next {
        link: k,
        to: arc.to,
        room: arc.room,
    })
}

// whether a vertex is alive and one level up; most links lead to one that isn't
fn is_up(visits: &[Option<Visit>], alive: &[bool], to: u32, level: u64) -> bool
    requires alive { length alive.now ≡ length visits.now }
    requires below { to < length visits.now }
    requires low { level < 2 ^ 32 }
{
    alive[to as usize] && is_at_level(visits, to, level + 1)
}

// the next link of a vertex of the level that leads on; it looks at no link that was passed before
fn next_from(
    links: &[Link],
    amounts: &[i64],
    starts: &[usize],
    arcs: &[u32],
    ends: &[u32],
    visits: &[Option<Visit>],
    alive: &[bool],
    cursors: &mut [usize],
    at: u32,
    level: u64,
) -> Option<Next>
    requires amounts { length amounts.now ≡ length links.now }
    requires fits { EachFits (map wire_of links.now) amounts.now }
    requires ends { EndsBelow (length visits.now) (map wire_of links.now) }
    requires arcs { IsArcs (length visits.now) (map wire_of links.now) starts.now arcs.now }
    requires leads { AreEnds (length visits.now) (map wire_of links.now) starts.now arcs.now ends.now }
    requires alive { length alive.now ≡ length visits.now }
    requires cursors { length cursors.old ≡ length visits.now }
    requires below { at < length visits.now }
    requires level { level_of visits.now at ≡ level }
    requires low { level < 2 ^ 32 }
    ensures { IfSome result (IsNext (map wire_of links.now) amounts.now visits.now alive.now at level) }
{
    let end = starts[at as usize + 1];
    for i in cursors[at as usize]..end {
        if is_up(visits, alive, ends[i], level) {
            let next = next_over(links, amounts, visits, alive, arcs[i], at, level);
            if next.is_some() {
                cursors[at as usize] = i;
                return next;
            }
        }
    }
    cursors[at as usize] = end;
    None
}

// a walk from the source to a sink, its links in `steps`, that goes up one level with each link; what leads to no sink
// at greater levels is dead from then on
fn find_walk(
    links: &[Link],
    amounts: &[i64],
    starts: &[usize],
    arcs: &[u32],
    ends: &[u32],
    visits: &[Option<Visit>],
    is_sink: &[bool],
    alive: &mut [bool],
    cursors: &mut [usize],
    steps: &mut [Step],
    source: u32,
) -> Option<Found>
    requires amounts { length amounts.now ≡ length links.now }
    requires fits { EachFits (map wire_of links.now) amounts.now }
    requires ends { EndsBelow (length visits.now) (map wire_of links.now) }
    requires arcs { IsArcs (length visits.now) (map wire_of links.now) starts.now arcs.now }
    requires leads { AreEnds (length visits.now) (map wire_of links.now) starts.now arcs.now ends.now }
    requires size { length visits.now < 2 ^ 32 }
    requires short { IsShort visits.now }
    requires marks { length is_sink.now ≡ length visits.now }
    requires alive { length alive.old ≡ length visits.now }
    requires cursors { length cursors.old ≡ length visits.now }
    requires steps { length steps.old ≡ length visits.now }
    requires source { source < length visits.now }
    ensures sink { IfSome result (λ f. marked is_sink.now f.sink ≡ true) }
    ensures walk { IfSome result (λ f. (f.source ≡ source) × Climbs (map wire_of links.now) amounts.now (level_of visits.now) steps.new f.source f.depth f.sink) }
    ensures depth { IfSome result (λ f. f.depth ≤ length steps.new) }
{
    if !alive[source as usize] {
        return None;
    }
    if !is_at_level(visits, source, 0) {
        return None;
    }
    let mut at = source;
    let mut depth: usize = 0;
    while !is_sink[at as usize] {
        match next_from(
            links,
            amounts,
            starts,
            arcs,
            ends,
            visits,
            alive,
            cursors,
            at,
            depth as u64,
        ) {
            Some(next) => {
                steps[depth] = Step {
                    link: next.link,
                    from: at,
                    room: next.room,
                };
                depth += 1;
                at = next.to;
            }
            None => {
                alive[at as usize] = false;
                if depth == 0 {
                    return None;
                }
                depth -= 1;
                at = steps[depth].from;
            }
        }
    }
    Some(Found {
        source,
        sink: at,
        depth,
    })
}

// as much as each of the first `depth` steps can carry
fn narrowest(steps: &[Step], depth: usize) -> u64
    requires { depth ≤ length steps.now }
    ensures each { (i : ℕ) → i < depth → result ≤ (step_at steps.now i).room }
    ensures most { result ≤ 8589934592 }
    ensures some { ((i : ℕ) → i < depth → 0 < (step_at steps.now i).room) → 0 < result }
{
    let mut width = WIDE;
    for i in 0..depth {
        width = width.min(steps[i].room);
    }
    width
}

// sends `width` more along a walk. `sent` bounds the amounts, so that none overflows
fn send(links: &[Link], amounts: &mut [i64], steps: &[Step], found: Found, width: u64, sent: u64)
    requires bound { sent ≤ 2 ^ 61 }
    requires amounts { length amounts.old ≡ length links.now }
    requires most { width ≤ 8589934592 }
    requires width { (i : ℕ) → i < found.depth → width ≤ (step_at steps.now i).room }
    requires depth { found.depth ≤ length steps.now }
    requires walk { (level : ℕ → ℕ) × Climbs (map wire_of links.now) amounts.old level steps.now found.source found.depth found.sink }
    requires fits { AllFit (map wire_of links.now) amounts.old sent }
    ensures moves { Moves (map wire_of links.now) amounts.old amounts.new width found.source found.sink }
    ensures fits { AllFit (map wire_of links.now) amounts.new (sent + width) }
{
    let mut at = found.sink;
    let mut left = found.depth;
    while left > 0 {
        left -= 1;
        at = push_over(links, amounts, steps[left].link, at, width);
    }
}

// sends more along walks from the source at place j until none is found; what is sent then
fn block_from(
    links: &[Link],
    amounts: &mut [i64],
    starts: &[usize],
    arcs: &[u32],
    ends: &[u32],
    visits: &[Option<Visit>],
    is_sink: &[bool],
    alive: &mut [bool],
    cursors: &mut [usize],
    steps: &mut [Step],
    sources: &[u32],
    j: usize,
    before: u64,
) -> u64
    requires amounts { length amounts.old ≡ length links.now }
    requires ends { EndsBelow (length visits.now) (map wire_of links.now) }
    requires arcs { IsArcs (length visits.now) (map wire_of links.now) starts.now arcs.now }
    requires leads { AreEnds (length visits.now) (map wire_of links.now) starts.now arcs.now ends.now }
    requires size { length visits.now < 2 ^ 32 }
    requires short { IsShort visits.now }
    requires marks { length is_sink.now ≡ length visits.now }
    requires alive { length alive.old ≡ length visits.now }
    requires cursors { length cursors.old ≡ length visits.now }
    requires steps { length steps.old ≡ length visits.now }
    requires sources { All (λ s. s < length visits.now) sources.now }
    requires place { j < length sources.now }
    requires bound { weight (map wire_of links.now) (is_affinity (map wire_of links.now)) < 2 ^ 52 }
    requires apart { Apart (map wire_of links.now) sources.now (marked is_sink.now) }
    requires flowing { Flowing (length visits.now) (map wire_of links.now) sources.now (marked is_sink.now) amounts.old before }
    ensures flowing { Flowing (length visits.now) (map wire_of links.now) sources.now (marked is_sink.now) amounts.new result }
    ensures more { before ≤ result }
{
    let source = sources[j];
    let mut sent = before;
    while let Some(found) = find_walk(
        links, amounts, starts, arcs, ends, visits, is_sink, alive, cursors, steps, source,
    ) {
        let width = narrowest(steps, found.depth);
        send(links, amounts, steps, found, width, sent);
        sent += width;
    }
    sent
}

// whether a walk to the nearest sinks, which are at the level `depth`, may go over a vertex
fn is_near(visits: &[Option<Visit>], is_sink: &[bool], v: usize, depth: u64) -> bool
    requires at { v < length visits.now }
    requires marks { length is_sink.now ≡ length visits.now }
{
    if is_sink[v] {
        return true;
    }
    match visits[v] {
        Some(visit) => visit.level < depth,
        None => false,
    }
}

// makes alive what walks may go over, and passes no link yet
fn begin_walks(
    starts: &[usize],
    visits: &[Option<Visit>],
    is_sink: &[bool],
    alive: &mut [bool],
    cursors: &mut [usize],
    depth: u64,
)
    requires starts { length starts.now ≡ length visits.now + 1 }
    requires marks { length is_sink.now ≡ length visits.now }
    requires alive { length alive.old ≡ length visits.now }
    requires cursors { length cursors.old ≡ length visits.now }
{
    for v in 0..alive.len() {
        alive[v] = is_near(visits, is_sink, v, depth);
        cursors[v] = starts[v];
    }
}

/// Sends more along walks that go up one level with each link, from each source until none is found; what is sent then.
/// The nearest sinks are at the level `depth`.
pub(crate) fn block(
    links: &[Link],
    amounts: &mut [i64],
    starts: &[usize],
    arcs: &[u32],
    ends: &[u32],
    visits: &[Option<Visit>],
    is_sink: &[bool],
    alive: &mut [bool],
    cursors: &mut [usize],
    steps: &mut [Step],
    sources: &[u32],
    depth: u64,
    before: u64,
) -> u64
    requires amounts { length amounts.old ≡ length links.now }
    requires ends { EndsBelow (length visits.now) (map wire_of links.now) }
    requires arcs { IsArcs (length visits.now) (map wire_of links.now) starts.now arcs.now }
    requires leads { AreEnds (length visits.now) (map wire_of links.now) starts.now arcs.now ends.now }
    requires size { length visits.now < 2 ^ 32 }
    requires short { IsShort visits.now }
    requires marks { length is_sink.now ≡ length visits.now }
    requires alive { length alive.old ≡ length visits.now }
    requires cursors { length cursors.old ≡ length visits.now }
    requires steps { length steps.old ≡ length visits.now }
    requires sources { All (λ s. s < length visits.now) sources.now }
    requires bound { weight (map wire_of links.now) (is_affinity (map wire_of links.now)) < 2 ^ 52 }
    requires apart { Apart (map wire_of links.now) sources.now (marked is_sink.now) }
    requires flowing { Flowing (length visits.now) (map wire_of links.now) sources.now (marked is_sink.now) amounts.old before }
    ensures flowing { Flowing (length visits.now) (map wire_of links.now) sources.now (marked is_sink.now) amounts.new result }
    ensures more { before ≤ result }
{
    begin_walks(starts, visits, is_sink, alive, cursors, depth);
    let mut sent = before;
    for j in 0..sources.len() {
        sent = block_from(
            links, amounts, starts, arcs, ends, visits, is_sink, alive, cursors, steps, sources, j,
            sent,
        );
    }
    sent
}
