//! The search by levels for what more can be sent to.

ghost use Rattle.std.specs.Prelude.{◌≡◌, ℕ, ◌<◌, ◌≤◌, ◌*◌, ◌+◌, ◌^◌, length, true, false, map, None, Some, is_some, IfSome, IfNone};
ghost use Rattle.std.specs.List.{All, find};
ghost use Rattle.flow_net.specs.Net.{wire_of};
ghost use Rattle.graph_model.specs.Wires.{wire, EndsBelow};
ghost use Rattle.graph_model.specs.Lists.{has};
ghost use Rattle.graph_model.specs.Flows.{Fitting, amount};
ghost use Rattle.min_cut.specs.Tree.{Took, TookNone, Grew, visited, ClosedOver, IsTree, visit_at, EachFits, IsClosed};
ghost use Rattle.min_cut.specs.declared.search.Visit.{Visit};

use crate::rooms::{WIDE, room_back_at, room_forth_at};
use flow_net::Link;

/// What a search found out about a vertex.
#[derive(Clone, Copy, Drop)]
pub struct Visit {
    /// How many links it is from a source.
    pub level: u64,
    /// The link that it was visited over; of no meaning at level 0.
    pub link: u32,
    /// How much more can be sent to it, at least.
    pub width: u64,
}

// visits `to` over link k if `from` is at the level, there is room, and it is not visited yet; whether it did
pub(crate) fn try_visit(
    visits: &mut [Option<Visit>],
    level: u64,
    k: u32,
    from: u32,
    to: u32,
    room: u64,
) -> bool
    requires from { from < length visits.old }
    requires to { to < length visits.old }
    requires level { level < 2 ^ 33 }
    ensures yes { result ≡ true → Took visits.old visits.new level k from to room }
    ensures no { result ≡ false → TookNone visits.old visits.new level from to room }
{
    if room == 0 || visits[to as usize].is_some() {
        return false;
    }
    match visits[from as usize] {
        Some(visit) => {
            if visit.level != level {
                return false;
            }
            let width = visit.width.min(room);
            visits[to as usize] = Some(Visit {
                level: level + 1,
                link: k,
                width,
            });
            true
        }
        None => false,
    }
}

// visits what link k leads to from the vertices of the level; whether it visited one
fn expand_over(
    links: &[Link],
    amounts: &[i64],
    visits: &mut [Option<Visit>],
    level: u64,
    k: u32,
) -> bool
    requires at { k < length links.now }
    requires amounts { length amounts.now ≡ length links.now }
    requires fits { Fitting (wire (map wire_of links.now) k).room (amount amounts.now k) }
    requires ends { EndsBelow (length visits.old) (map wire_of links.now) }
    requires level { level < 2 ^ 33 }
    ensures grew { Grew (map wire_of links.now) amounts.now visits.old visits.new level }
    ensures same { result ≡ false → visits.new ≡ visits.old }
    ensures more { result ≡ true → visited visits.old < visited visits.new }
    ensures closed { ClosedOver (map wire_of links.now) amounts.now visits.new level k }
{
    let link = links[k as usize];
    if try_visit(
        visits,
        level,
        k,
        link.a,
        link.b,
        room_forth_at(links, amounts, k),
    ) {
        return true;
    }
    try_visit(
        visits,
        level,
        k,
        link.b,
        link.a,
        room_back_at(links, amounts, k),
    )
}

// visits what the links lead to from the vertices of the level; whether it visited one
fn expand(links: &[Link], amounts: &[i64], visits: &mut [Option<Visit>], level: u64) -> bool
    requires few { length links.now ≤ 500000 }
    requires amounts { length amounts.now ≡ length links.now }
    requires fits { EachFits (map wire_of links.now) amounts.now }
    requires ends { EndsBelow (length visits.old) (map wire_of links.now) }
    requires level { level < 2 ^ 33 }
    ensures grew { Grew (map wire_of links.now) amounts.now visits.old visits.new level }
    ensures same { result ≡ false → visits.new ≡ visits.old }
    ensures more { result ≡ true → visited visits.old < visited visits.new }
    ensures closed { (k : ℕ) → k < length links.now → ClosedOver (map wire_of links.now) amounts.now visits.new level k }
{
    let mut grew = false;
    for k in 0..links.len() as u32 {
        if expand_over(links, amounts, visits, level, k) {
            grew = true;
        }
    }
    grew
}

// visits the sources alone
fn start(sources: &[u32], visits: &mut [Option<Visit>])
    requires sources { All (λ s. s < length visits.old) sources.now }
    ensures only { (v : ℕ) (visit : Visit) → visit_at visits.new v ≡ Some visit → (has sources.now v ≡ true) × (visit ≡ record { level = 0; link = 0; width = 8589934592 }) }
    ensures each { (v : ℕ) → has sources.now v ≡ true → is_some (visit_at visits.new v) ≡ true }
{
    for visit in visits.iter_mut() {
        *visit = None;
    }
    for s in sources {
        visits[*s as usize] = Some(Visit {
            level: 0,
            link: 0,
            width: WIDE,
        });
    }
}

// visits all that more can be sent to from the sources
pub(crate) fn explore(
    links: &[Link],
    amounts: &[i64],
    sources: &[u32],
    visits: &mut [Option<Visit>],
)
    requires few { length links.now ≤ 500000 }
    requires size { length visits.old < 2 ^ 32 }
    requires amounts { length amounts.now ≡ length links.now }
    requires fits { EachFits (map wire_of links.now) amounts.now }
    requires ends { EndsBelow (length visits.old) (map wire_of links.now) }
    requires sources { All (λ s. s < length visits.old) sources.now }
    ensures tree { IsTree (map wire_of links.now) sources.now amounts.now visits.new }
    ensures closed { IsClosed (map wire_of links.now) amounts.now visits.new }
{
    start(sources, visits);
    let mut level: u64 = 0;
    while expand(links, amounts, visits, level) {
        level += 1;
    }
}

// the first sink that is visited
pub(crate) fn first_visited(sinks: &[u32], visits: &[Option<Visit>]) -> Option<u32>
    requires { All (λ t. t < length visits.now) sinks.now }
    ensures first { result ≡ find (λ t. is_some (visit_at visits.now t)) sinks.now }
    ensures some { IfSome result (λ t. (has sinks.now t ≡ true) × (is_some (visit_at visits.now t) ≡ true)) }
    ensures none { IfNone result ((v : ℕ) → has sinks.now v ≡ true → is_some (visit_at visits.now v) ≡ false) }
{
    for t in sinks {
        if visits[*t as usize].is_some() {
            return Some(*t);
        }
    }
    None
}

// how much more can be sent to a visited vertex
pub(crate) fn width_of(visits: &[Option<Visit>], v: u32) -> u64
    requires at { v < length visits.now }
    requires visited { is_some (visit_at visits.now v) ≡ true }
    ensures { (visit : Visit) × (visit_at visits.now v ≡ Some visit) × (result ≡ visit.width) }
{
    match visits[v as usize] {
        Some(visit) => visit.width,
        None => 0,
    }
}
