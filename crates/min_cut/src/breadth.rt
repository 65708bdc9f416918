//! The search in breadth for what more can be sent to: each visited vertex's links are looked at once.

ghost use Rattle.std.specs.Prelude.{◌≡◌, ℕ, ◌<◌, ◌≤◌, ◌+◌, ◌⊎◌, ◌^◌, length, true, false, map, None, Some, is_some, IfSome, IfNone, IfOk, IfErr, slice_set, slice_index_or};
ghost use Rattle.std.specs.List.{All};
ghost use Rattle.flow_net.specs.Net.{wire_of};
ghost use Rattle.graph_model.specs.Wires.{wire, EndsBelow};
ghost use Rattle.graph_model.specs.Lists.{has};
ghost use Rattle.graph_model.specs.Flows.{Fitting, amount};
ghost use Rattle.min_cut.specs.Tree.{Leads, ArcOver, EachFits, IsTree, IsClosed, at_level, visit_at};
ghost use Rattle.graph_model.specs.Cuts.{Joins};
ghost use Rattle.min_cut.specs.Arcs.{IsArcs, HasArc, AreEnds};
ghost use Rattle.min_cut.specs.Queue.{IsQueue, Queues, IsShort, marked};
ghost use Rattle.min_cut.specs.declared.search.Visit.{Visit};

use crate::rooms::{WIDE, room_back_at, room_forth_at};
use crate::search::{Visit, try_visit};
use flow_net::Link;

/// What a link leads to from one of its ends, and how much more it can carry there.
#[derive(Clone, Copy, Drop)]
pub struct Arc {
    pub to: u32,
    pub room: u64,
}

// what link k leads to from the vertex; to itself, and with no room, if that is no end of it
pub(crate) fn arc_from(links: &[Link], amounts: &[i64], k: u32, from: u32) -> Arc
    requires at { k < length links.now }
    requires amounts { length amounts.now ≡ length links.now }
    requires fits { Fitting (wire (map wire_of links.now) k).room (amount amounts.now k) }
    ensures leads { 0 < result.room → Leads (map wire_of links.now) amounts.now k from result.to result.room }
    ensures only { (w : ℕ) → ArcOver (map wire_of links.now) amounts.now k from w → (w ≡ from) ⊎ ((w ≡ result.to) × (0 < result.room)) }
    ensures below { (n : ℕ) → EndsBelow n (map wire_of links.now) → from < n → result.to < n }
{
    let link = links[k as usize];
    if link.a == from {
        return Arc {
            to: link.b,
            room: room_forth_at(links, amounts, k),
        };
    }
    if link.b == from {
        return Arc {
            to: link.a,
            room: room_back_at(links, amounts, k),
        };
    }
    Arc { to: from, room: 0 }
}

// visits and queues what link k leads to from a vertex of the level; the end of the queue. The link is looked at only if
// that isn't visited yet
fn visit_over(
    links: &[Link],
    amounts: &[i64],
    visits: &mut [Option<Visit>],
    queue: &mut [u32],
    k: u32,
    from: u32,
    to: u32,
    level: u64,
    tail: usize,
) -> usize
    requires at { k < length links.now }
    requires amounts { length amounts.now ≡ length links.now }
    requires fits { EachFits (map wire_of links.now) amounts.now }
    requires ends { EndsBelow (length visits.old) (map wire_of links.now) }
    requires size { length visits.old < 2 ^ 32 }
    requires room { length queue.old ≡ length visits.old }
    requires queue { IsQueue visits.old queue.old tail }
    requires from { at_level (visit_at visits.old from) level ≡ true }
    requires level { level < tail }
    requires to { to < length visits.old }
    requires leads { (w : ℕ) → Joins (map wire_of links.now) k from w → w ≡ to }
    ensures queues { Queues (map wire_of links.now) amounts.now visits.old visits.new queue.old queue.new tail result level }
    ensures closed { (w : ℕ) → ArcOver (map wire_of links.now) amounts.now k from w → is_some (visit_at visits.new w) ≡ true }
{
    if visits[to as usize].is_some() {
        return tail;
    }
    let arc = arc_from(links, amounts, k, from);
    if try_visit(visits, level, k, from, arc.to, arc.room) {
        queue[tail] = arc.to;
        return tail + 1;
    }
    tail
}

// visits and queues what more can be sent to from a vertex of the level; the end of the queue
fn expand_from(
    links: &[Link],
    amounts: &[i64],
    starts: &[usize],
    arcs: &[u32],
    ends: &[u32],
    visits: &mut [Option<Visit>],
    queue: &mut [u32],
    from: u32,
    level: u64,
    before: usize,
) -> usize
    requires amounts { length amounts.now ≡ length links.now }
    requires fits { EachFits (map wire_of links.now) amounts.now }
    requires ends { EndsBelow (length visits.old) (map wire_of links.now) }
    requires arcs { IsArcs (length visits.old) (map wire_of links.now) starts.now arcs.now }
    requires leads { AreEnds (length visits.old) (map wire_of links.now) starts.now arcs.now ends.now }
    requires size { length visits.old < 2 ^ 32 }
    requires room { length queue.old ≡ length visits.old }
    requires queue { IsQueue visits.old queue.old before }
    requires from { at_level (visit_at visits.old from) level ≡ true }
    requires level { level < before }
    ensures queues { Queues (map wire_of links.now) amounts.now visits.old visits.new queue.old queue.new before result level }
    ensures closed { (k w : ℕ) → HasArc starts.now arcs.now from k → ArcOver (map wire_of links.now) amounts.now k from w → is_some (visit_at visits.new w) ≡ true }
{
    let mut tail = before;
    for i in starts[from as usize]..starts[from as usize + 1] {
        tail = visit_over(
            links, amounts, visits, queue, arcs[i], from, ends[i], level, tail,
        );
    }
    tail
}

// visits a vertex at level 0 and queues it, if it isn't visited yet; the end of the queue
pub(crate) fn begin_at(
    visits: &mut [Option<Visit>],
    queue: &mut [u32],
    s: u32,
    tail: usize,
) -> usize
    requires at { s < length visits.old }
    requires room { length queue.old ≡ length visits.old }
    requires queue { IsQueue visits.old queue.old tail }
    ensures queue { IsQueue visits.new queue.new result }
    ensures more { tail ≤ result }
    ensures places { (i : ℕ) → i < tail → slice_index_or queue.new i 0 ≡ slice_index_or queue.old i 0 }
    ensures same { is_some (visit_at visits.old s) ≡ true → visits.new ≡ visits.old }
    ensures set { is_some (visit_at visits.old s) ≡ false → visits.new ≡ slice_set visits.old s (Some (record { level = 0; link = 0; width = 8589934592 })) }
{
    if visits[s as usize].is_some() {
        return tail;
    }
    visits[s as usize] = Some(Visit {
        level: 0,
        link: 0,
        width: WIDE,
    });
    queue[tail] = s;
    tail + 1
}

// visits and queues the sources alone; the end of the queue
pub(crate) fn begin(sources: &[u32], visits: &mut [Option<Visit>], queue: &mut [u32]) -> usize
    requires sources { All (λ s. s < length visits.old) sources.now }
    requires room { length queue.old ≡ length visits.old }
    ensures only { (v : ℕ) (visit : Visit) → visit_at visits.new v ≡ Some visit → (has sources.now v ≡ true) × (visit ≡ record { level = 0; link = 0; width = 8589934592 }) }
    ensures each { (v : ℕ) → has sources.now v ≡ true → is_some (visit_at visits.new v) ≡ true }
    ensures queue { IsQueue visits.new queue.new result }
{
    for visit in visits.iter_mut() {
        *visit = None;
    }
    let mut tail: usize = 0;
    for s in sources {
        tail = begin_at(visits, queue, *s, tail);
    }
    tail
}

// the level of a visited vertex
pub(crate) fn level_at(visits: &[Option<Visit>], v: u32) -> u64
    requires at { v < length visits.now }
    requires visited { is_some (visit_at visits.now v) ≡ true }
    ensures at { at_level (visit_at visits.now v) result ≡ true }
{
    match visits[v as usize] {
        Some(visit) => visit.level,
        None => 0,
    }
}

// the end of the places of the queue that are known to hold no sink. As the search comes to it, all vertices of a level
// are visited and none is expanded: then the first sink of them, if there is one, and else the end of the level
fn past_sinks(
    queue: &[u32],
    is_sink: &[bool],
    head: usize,
    plain: usize,
    tail: usize,
) -> Result<usize, u32>
    requires order { (head ≤ plain) × (plain ≤ tail) × (head < tail) }
    requires room { tail ≤ length queue.now }
    requires below { (i : ℕ) → i < tail → slice_index_or queue.now i 0 < length is_sink.now }
    requires plain { (i : ℕ) → i < plain → marked is_sink.now (slice_index_or queue.now i 0) ≡ false }
    ensures order { IfOk result (λ end. (head < end) × (end ≤ tail)) }
    ensures plain { IfOk result (λ end. (i : ℕ) → i < end → marked is_sink.now (slice_index_or queue.now i 0) ≡ false) }
    ensures sink { IfErr result (λ t. (marked is_sink.now t ≡ true) × (i : ℕ) × (i < tail) × (slice_index_or queue.now i 0 ≡ t)) }
{
    if head < plain {
        return Ok(plain);
    }
    for i in head..tail {
        let from = queue[i];
        if is_sink[from as usize] {
            return Err(from);
        }
    }
    Ok(tail)
}

/// Visits what more can be sent to from the sources, nearest first, until it comes to a sink. That sink, or none if all
/// is visited and none is a sink.
pub(crate) fn explore(
    links: &[Link],
    amounts: &[i64],
    starts: &[usize],
    arcs: &[u32],
    ends: &[u32],
    sources: &[u32],
    is_sink: &[bool],
    visits: &mut [Option<Visit>],
    queue: &mut [u32],
) -> Option<u32>
    requires amounts { length amounts.now ≡ length links.now }
    requires fits { EachFits (map wire_of links.now) amounts.now }
    requires ends { EndsBelow (length visits.old) (map wire_of links.now) }
    requires arcs { IsArcs (length visits.old) (map wire_of links.now) starts.now arcs.now }
    requires leads { AreEnds (length visits.old) (map wire_of links.now) starts.now arcs.now ends.now }
    requires size { length visits.old < 2 ^ 32 }
    requires room { length queue.old ≡ length visits.old }
    requires marks { length is_sink.now ≡ length visits.old }
    requires sources { All (λ s. s < length visits.old) sources.now }
    ensures tree { IsTree (map wire_of links.now) sources.now amounts.now visits.new }
    ensures short { IsShort visits.new }
    ensures some { IfSome result (λ t. (marked is_sink.now t ≡ true) × (is_some (visit_at visits.new t) ≡ true)) }
    ensures none { IfNone result ((v : ℕ) → marked is_sink.now v ≡ true → is_some (visit_at visits.new v) ≡ false) }
    ensures closed { IfNone result (IsClosed (map wire_of links.now) amounts.now visits.new) }
{
    let mut tail = begin(sources, visits, queue);
    let mut head: usize = 0;
    let mut plain: usize = 0;
    while head < tail {
        match past_sinks(queue, is_sink, head, plain, tail) {
            Ok(end) => plain = end,
            Err(sink) => return Some(sink),
        }
        let from = queue[head];
        let level = level_at(visits, from);
        tail = expand_from(
            links, amounts, starts, arcs, ends, visits, queue, from, level, tail,
        );
        head += 1;
    }
    None
}
