//! Which marks a walk outside a cut joins. No memory is taken beside one mark for each vertex: the
//! links are passed until a pass marks nothing, forwards and backwards in turn.

ghost use Rattle.std.specs.Prelude.{◌≡◌, ℕ, ◌<◌, ◌≤◌, ◌*◌, length, slice_index_or, true, false, Bool, map};
ghost use Rattle.flow_net.specs.Net.{IsAscending, wire_of};
ghost use Rattle.graph_model.specs.Lists.{has};
ghost use Rattle.std.specs.List.{All, count_by, find};
ghost use Rattle.graph_model.specs.Cuts.{on_source_side, first_open};
ghost use Rattle.flow_net.specs.Marks.{turned, Spreads, SpreadsAt, SpreadsNot, IsSwept, KeepsMarks, MarksOnly};
ghost use Rattle.graph_model.specs.Wires.{EndsBelow};

use crate::Link;
use crate::cuts::has_link;

// marks the other vertex where just one of the two is marked; whether one was
fn spread(seen: &mut [bool], a: usize, b: usize) -> bool
    requires a { a < length seen.old }
    requires b { b < length seen.old }
    ensures same { result ≡ false → (seen.new ≡ seen.old) × (slice_index_or seen.old a false ≡ slice_index_or seen.old b false) }
    ensures more { result ≡ true → Spreads seen.old seen.new a b }
{
    if seen[a] == seen[b] {
        return false;
    }
    if seen[a] {
        seen[b] = true;
    } else {
        seen[a] = true;
    }
    true
}

// spreads the marks over link k if it is outside the cut; whether it marked anything
fn spread_over(links: &[Link], cut: &[u32], seen: &mut [bool], k: u32) -> bool
    requires at { k < length links.now }
    requires ascending { IsAscending cut.now }
    requires ends { EndsBelow (length seen.old) (map wire_of links.now) }
    ensures same { result ≡ false → SpreadsNot (map wire_of links.now) cut.now seen.old seen.new k }
    ensures more { result ≡ true → SpreadsAt (map wire_of links.now) cut.now seen.old seen.new k }
{
    let link = links[k as usize];
    if seen[link.a as usize] == seen[link.b as usize] || has_link(cut, k) {
        return false;
    }
    spread(seen, link.a as usize, link.b as usize)
}

// the number of the link that is passed at a step
fn turned_at(count: u32, backwards: bool, step: u32) -> u32
    requires { step < count }
    ensures { result ≡ turned count backwards step }
{
    if backwards { count - 1 - step } else { step }
}

// passes once over the links outside the cut; whether it marked anything
fn sweep(links: &[Link], cut: &[u32], backwards: bool, seen: &mut [bool]) -> bool
    requires few { length links.now ≤ 500000 }
    requires ascending { IsAscending cut.now }
    requires ends { EndsBelow (length seen.old) (map wire_of links.now) }
    ensures swept { result ≡ false → IsSwept (map wire_of links.now) (has cut.now) seen.new }
    ensures grows { result ≡ true → count_by (λ s. s) seen.old < count_by (λ s. s) seen.new }
    ensures kept { KeepsMarks seen.old seen.new }
    ensures sound { (p : ℕ → Bool) → MarksOnly (map wire_of links.now) (has cut.now) p seen.old → MarksOnly (map wire_of links.now) (has cut.now) p seen.new }
{
    let count = links.len() as u32;
    let mut changed = false;
    for step in 0..count {
        let k = turned_at(count, backwards, step);
        if spread_over(links, cut, seen, k) {
            changed = true;
        }
    }
    changed
}

// marks the sources, and nothing else
fn mark_sources(sources: &[u32], seen: &mut [bool])
    requires { All (λ s. s < length seen.old) sources.now }
    ensures { (v : ℕ) → v < length seen.new → slice_index_or seen.new v false ≡ has sources.now v }
{
    seen.fill(false);
    for s in sources {
        seen[*s as usize] = true;
    }
}

// marks what walks outside the cut join to the sources, and nothing else
fn reach(links: &[Link], cut: &[u32], sources: &[u32], seen: &mut [bool])
    requires few { length links.now ≤ 500000 }
    requires ascending { IsAscending cut.now }
    requires ends { EndsBelow (length seen.old) (map wire_of links.now) }
    requires sources { All (λ s. s < length seen.old) sources.now }
    ensures { (v : ℕ) → v < length seen.new → slice_index_or seen.new v false ≡ on_source_side (map wire_of links.now) sources.now (has cut.now) v }
{
    mark_sources(sources, seen);
    let mut backwards = false;
    let mut changed = true;
    while changed {
        changed = sweep(links, cut, backwards, seen);
        backwards = !backwards;
    }
}

// the first sink that is marked
fn first_marked(sinks: &[u32], seen: &[bool]) -> Option<u32>
    requires { All (λ t. t < length seen.now) sinks.now }
    ensures { result ≡ find (λ t. slice_index_or seen.now t false) sinks.now }
{
    for t in sinks {
        if seen[*t as usize] {
            return Some(*t);
        }
    }
    None
}

/// The first source that a walk outside the cut joins to a sink, with the first sink that is joined
/// to it, each in the order of its list.
///
/// `cut` holds numbers of links, ascending. `seen` has a place for each vertex, at least up to the
/// greatest end and mark; what it holds at the call counts for nothing. No memory is taken: the
/// links are passed until a pass finds no new vertex, so the time is links times passes; once for
/// all sources together, and only where a sink is found, once for each source.
pub fn first_joined(
    links: &[Link],
    cut: &[u32],
    sources: &[u32],
    sinks: &[u32],
    seen: &mut [bool],
) -> Option<(u32, u32)>
    requires few { length links.now ≤ 500000 }
    requires ascending { IsAscending cut.now }
    requires ends { EndsBelow (length seen.old) (map wire_of links.now) }
    requires sources { All (λ s. s < length seen.old) sources.now }
    requires sinks { All (λ t. t < length seen.old) sinks.now }
    ensures { result ≡ first_open (map wire_of links.now) (has cut.now) sources.now sinks.now }
{
    reach(links, cut, sources, seen);
    match first_marked(sinks, seen) {
        None => None,
        Some(_) => first_in_turn(links, cut, sources, sinks, seen),
    }
}

// the same, source by source
fn first_in_turn(
    links: &[Link],
    cut: &[u32],
    sources: &[u32],
    sinks: &[u32],
    seen: &mut [bool],
) -> Option<(u32, u32)>
    requires few { length links.now ≤ 500000 }
    requires ascending { IsAscending cut.now }
    requires ends { EndsBelow (length seen.old) (map wire_of links.now) }
    requires sources { All (λ s. s < length seen.old) sources.now }
    requires sinks { All (λ t. t < length seen.old) sinks.now }
    ensures { result ≡ first_open (map wire_of links.now) (has cut.now) sources.now sinks.now }
{
    for s in sources {
        reach(links, cut, &[*s], seen);
        match first_marked(sinks, seen) {
            Some(sink) => return Some((*s, sink)),
            None => {}
        }
    }
    None
}
