//! Walks along which more is sent, one at a time.

ghost use Rattle.std.specs.Prelude.{◌≡◌, ℕ, pos, ◌<◌, ◌≤◌, ◌+◌, ◌^◌, length, true, false, map, None, Some, List, is_some};
ghost use Rattle.std.specs.List.{All};
ghost use Rattle.flow_net.specs.Net.{wire_of};
ghost use Rattle.graph_model.specs.Lists.{has};
ghost use Rattle.graph_model.specs.Flows.{forth, back, amount, IsFlow, value};
ghost use Rattle.graph_model.specs.Residual.{IsLast};
ghost use Rattle.graph_model.specs.Cuts.{Separates, is_affinity};
ghost use Rattle.graph_model.specs.Wires.{EndsBelow};
ghost use Rattle.min_cut.specs.Tree.{visited, IsTree, AllFit, HasWidth, Pushed, PushedOver, level_of, visit_at, parent_in};
ghost use Rattle.min_cut.specs.declared.search.Visit.{Visit};

use crate::rooms::total_room;
use crate::search::{Visit, explore, first_visited, width_of};
use flow_net::Link;

// the link that a visited vertex was visited over; a source has none
fn parent_link(visits: &[Option<Visit>], at: u32) -> Option<u32>
    requires { at < length visits.now }
    ensures { result ≡ parent_in (visit_at visits.now at) }
{
    match visits[at as usize] {
        Some(visit) => {
            if visit.level == 0 {
                None
            } else {
                Some(visit.link)
            }
        }
        None => None,
    }
}

// sends `width` more over link k towards `at`; where it comes from
pub(crate) fn push_over(links: &[Link], amounts: &mut [i64], k: u32, at: u32, width: u64) -> u32
    requires at { k < length links.now }
    requires amounts { length amounts.old ≡ length links.now }
    requires width { width ≤ 2 ^ 33 }
    requires small { (forth (amount amounts.old k) ≤ 2 ^ 62) × (back (amount amounts.old k) ≤ 2 ^ 62) }
    ensures { PushedOver (map wire_of links.now) amounts.old amounts.new k at width result }
{
    let link = links[k as usize];
    if link.b == at {
        amounts[k as usize] += width as i64;
        link.a
    } else {
        amounts[k as usize] -= width as i64;
        link.b
    }
}

// sends `width` more along the walk by which the sink was visited; the source that it begins at. `sent` bounds
// the amounts, so that none overflows
pub(crate) fn augment(
    links: &[Link],
    amounts: &mut [i64],
    visits: &[Option<Visit>],
    sink: u32,
    width: u64,
    sent: u64,
) -> u32
    requires bound { sent ≤ 2 ^ 61 }
    requires amounts { length amounts.old ≡ length links.now }
    requires width { width ≤ 2 ^ 33 }
    requires tree { (sources : List ℕ) × IsTree (map wire_of links.now) sources amounts.old visits.now }
    requires sink { HasWidth visits.now width sink }
    requires fits { AllFit (map wire_of links.now) amounts.old sent }
    ensures pushed { Pushed (map wire_of links.now) (level_of visits.now) amounts.old amounts.new width sent result sink }
    ensures seen { HasWidth visits.now width result }
    ensures first { level_of visits.now result ≡ 0 }
{
    let mut at = sink;
    while let Some(k) = parent_link(visits, at) {
        at = push_over(links, amounts, k, at, width);
    }
    at
}

/// Augments the flow along shortest walks of the residual net, one at a time, until no sink is visited; its value.
pub fn greatest_flow(
    links: &[Link],
    sources: &[u32],
    sinks: &[u32],
    amounts: &mut [i64],
    visits: &mut [Option<Visit>],
) -> u64
    requires few { length links.now ≤ 500000 }
    requires size { length visits.old < 2 ^ 32 }
    requires amounts { length amounts.old ≡ length links.now }
    requires ends { EndsBelow (length visits.old) (map wire_of links.now) }
    requires sources { All (λ s. s < length visits.old) sources.now }
    requires sinks { All (λ t. t < length visits.old) sinks.now }
    requires sides { (v : ℕ) → has sources.now v ≡ true → has sinks.now v ≡ false }
    requires zero { (k : ℕ) → amount amounts.old k ≡ pos 0 }
    requires separable { Separates (map wire_of links.now) sources.now sinks.now (is_affinity (map wire_of links.now)) }
    ensures flow { IsFlow (length visits.new) (map wire_of links.now) sources.now sinks.now amounts.new }
    ensures last { IsLast (map wire_of links.now) sources.now sinks.now amounts.new (λ v. is_some (visit_at visits.new v)) }
    ensures value { value (map wire_of links.now) amounts.new sources.now ≡ pos result }
{
    let _most = total_room(links);
    let mut sent: u64 = 0;
    let mut going = true;
    while going {
        explore(links, amounts, sources, visits);
        match first_visited(sinks, visits) {
            Some(sink) => {
                let width = width_of(visits, sink);
                let _source = augment(links, amounts, visits, sink, width, sent);
                sent += width;
            }
            None => going = false,
        }
    }
    sent
}
