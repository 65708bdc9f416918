//! The first source that a walk of glue joins to a sink, by searches in breadth.

ghost use Rattle.std.specs.Prelude.{◌≡◌, ℕ, ◌<◌, ◌≤◌, ◌⊎◌, ◌^◌, length, true, map, Some, None, is_some};
ghost use Rattle.std.specs.List.{All};
ghost use Rattle.flow_net.specs.Net.{wire_of};
ghost use Rattle.graph_model.specs.Wires.{EndsBelow};
ghost use Rattle.graph_model.specs.Lists.{has};
ghost use Rattle.graph_model.specs.Cuts.{Linked, is_affinity, label, first_open};
ghost use Rattle.min_cut.specs.Tree.{visit_at};
ghost use Rattle.min_cut.specs.Arcs.{IsArcs, HasArc};
ghost use Rattle.min_cut.specs.Queue.{IsQueue};
ghost use Rattle.min_cut.specs.Gluing.{GlueOver, OnlyLabel, Glues};

use crate::breadth::{begin, begin_at};
use crate::search::{Visit, first_visited};
use flow_net::Link;

// what link k joins by glue to the vertex; itself, if it is no glue or the vertex is no end of it
fn glued_to(links: &[Link], k: u32, from: u32) -> u32
    requires { k < length links.now }
    ensures joined { (result ≡ from) ⊎ GlueOver (map wire_of links.now) k from result }
    ensures only { (w : ℕ) → GlueOver (map wire_of links.now) k from w → (w ≡ from) ⊎ (w ≡ result) }
    ensures below { (n : ℕ) → EndsBelow n (map wire_of links.now) → from < n → result < n }
{
    let link = links[k as usize];
    if link.room.is_some() {
        return from;
    }
    if link.a == from {
        return link.b;
    }
    if link.b == from {
        return link.a;
    }
    from
}

// visits and queues what link k joins by glue to a visited vertex; the end of the queue
fn reach_over(
    links: &[Link],
    visits: &mut [Option<Visit>],
    queue: &mut [u32],
    k: u32,
    from: u32,
    tail: usize,
) -> usize
    requires at { k < length links.now }
    requires ends { EndsBelow (length visits.old) (map wire_of links.now) }
    requires room { length queue.old ≡ length visits.old }
    requires queue { IsQueue visits.old queue.old tail }
    requires below { from < length visits.old }
    requires from { is_some (visit_at visits.old from) ≡ true }
    ensures glues { Glues (map wire_of links.now) visits.old visits.new queue.old queue.new tail result }
    ensures closed { (w : ℕ) → GlueOver (map wire_of links.now) k from w → is_some (visit_at visits.new w) ≡ true }
{
    let to = glued_to(links, k, from);
    begin_at(visits, queue, to, tail)
}

// visits and queues what glue joins to a visited vertex; the end of the queue
fn reach_from(
    links: &[Link],
    starts: &[usize],
    arcs: &[u32],
    visits: &mut [Option<Visit>],
    queue: &mut [u32],
    from: u32,
    before: usize,
) -> usize
    requires ends { EndsBelow (length visits.old) (map wire_of links.now) }
    requires arcs { IsArcs (length visits.old) (map wire_of links.now) starts.now arcs.now }
    requires room { length queue.old ≡ length visits.old }
    requires queue { IsQueue visits.old queue.old before }
    requires below { from < length visits.old }
    requires from { is_some (visit_at visits.old from) ≡ true }
    ensures glues { Glues (map wire_of links.now) visits.old visits.new queue.old queue.new before result }
    ensures closed { (k w : ℕ) → HasArc starts.now arcs.now from k → GlueOver (map wire_of links.now) k from w → is_some (visit_at visits.new w) ≡ true }
{
    let mut tail = before;
    for i in starts[from as usize]..starts[from as usize + 1] {
        tail = reach_over(links, visits, queue, arcs[i], from, tail);
    }
    tail
}

// visits just what walks of glue join to the sources
fn reach(
    links: &[Link],
    starts: &[usize],
    arcs: &[u32],
    sources: &[u32],
    visits: &mut [Option<Visit>],
    queue: &mut [u32],
)
    requires ends { EndsBelow (length visits.old) (map wire_of links.now) }
    requires arcs { IsArcs (length visits.old) (map wire_of links.now) starts.now arcs.now }
    requires room { length queue.old ≡ length visits.old }
    requires sources { All (λ s. s < length visits.old) sources.now }
    ensures each { (v : ℕ) → has sources.now v ≡ true → is_some (visit_at visits.new v) ≡ true }
    ensures closed { (u w : ℕ) → Linked (map wire_of links.now) (is_affinity (map wire_of links.now)) u w → is_some (visit_at visits.new u) ≡ true → is_some (visit_at visits.new w) ≡ true }
    ensures sound { (r : ℕ) → ((s : ℕ) → has sources.now s ≡ true → label (map wire_of links.now) (is_affinity (map wire_of links.now)) (length links.now) s ≡ r) → OnlyLabel (map wire_of links.now) r visits.new }
{
    let mut tail = begin(sources, visits, queue);
    let mut head: usize = 0;
    while head < tail {
        let from = queue[head];
        tail = reach_from(links, starts, arcs, visits, queue, from, tail);
        head += 1;
    }
}

/// The first source that a walk of glue joins to a sink, with its first such sink.
pub(crate) fn first_glued(
    links: &[Link],
    starts: &[usize],
    arcs: &[u32],
    sources: &[u32],
    sinks: &[u32],
    visits: &mut [Option<Visit>],
    queue: &mut [u32],
) -> Option<(u32, u32)>
    requires ends { EndsBelow (length visits.old) (map wire_of links.now) }
    requires arcs { IsArcs (length visits.old) (map wire_of links.now) starts.now arcs.now }
    requires room { length queue.old ≡ length visits.old }
    requires sources { All (λ s. s < length visits.old) sources.now }
    requires sinks { All (λ t. t < length visits.old) sinks.now }
    ensures { result ≡ first_open (map wire_of links.now) (is_affinity (map wire_of links.now)) sources.now sinks.now }
{
    reach(links, starts, arcs, sources, visits, queue);
    if first_visited(sinks, visits).is_none() {
        return None;
    }
    for s in sources {
        reach(links, starts, arcs, &[*s], visits, queue);
        if let Some(sink) = first_visited(sinks, visits) {
            return Some((*s, sink));
        }
    }
    None
}
