//! Least cuts of drawn nets, by two bodies.

ghost use Rattle.std.specs.Prelude.{◌≡◌, ◌<◌, ◌≤◌, length, false};
ghost use Rattle.std.specs.List.{All};
ghost use Rattle.graph_model.specs.Lists.{has};

use crate::links::{glue, link};
use flow_net::{Link, Net, check_cut, is_net};
use min_cut::{CutError, LeastCut, least_cut, plain};
use std::alloc::{AllocError, Global};
use std::process::Abort;
use std::test::Fail;

fn draw(state: &mut u64, n: u64) -> u64
    requires { 0 < n }
    ensures { result < n }
{
    *state = state
        .wrapping_mul(6364136223846793005)
        .wrapping_add(1442695040888963407);
    (*state >> 33) % n
}

// some of the pairs below n, with rooms from 0 to 9, one in eight as glue
fn draw_links(alloc: Global, state: &mut u64, n: u32) -> Result<Vec<Link>, AllocError> {
    let mut links = Vec::new(alloc);
    for a in 0..n {
        for b in a + 1..n {
            if draw(state, 3) > 0 {
                let room = draw(state, 10) as u32;
                let is_glue = draw(state, 8) == 0;
                links.push(if is_glue {
                    glue(a, b)
                } else {
                    link(a, b, room)
                })?;
            }
        }
    }
    Ok(links)
}

// the cut by blocking flows, which checks
fn shown(
    rt: &impl Abort,
    alloc: Global,
    net: &Net,
    source: u32,
    sinks: &[u32],
    seen: &mut [bool],
) -> Result<LeastCut, CutError>
    requires few { length net.now.links ≤ 500000 }
    requires source { source < net.now.size }
    requires sinks { All (λ t. t < net.now.size) sinks.now }
    requires some { 0 < length sinks.now }
    requires apart { has sinks.now source ≡ false }
    requires room { length seen.old ≡ net.now.size }
{
    let least = least_cut(alloc, net, &[source], sinks)?;
    let checked = check_cut(net, &[source], sinks, &least.cut, &least.flow, seen);
    assert!(rt; checked.is_ok());
    Ok(least)
}

// the cut by single augmenting walks, which checks
fn plainly_shown(
    rt: &impl Abort,
    alloc: Global,
    net: &Net,
    source: u32,
    sinks: &[u32],
    seen: &mut [bool],
) -> Result<LeastCut, CutError>
    requires few { length net.now.links ≤ 500000 }
    requires source { source < net.now.size }
    requires sinks { All (λ t. t < net.now.size) sinks.now }
    requires some { 0 < length sinks.now }
    requires apart { has sinks.now source ≡ false }
    requires room { length seen.old ≡ net.now.size }
{
    let least = plain::least_cut(alloc, net, &[source], sinks)?;
    let checked = check_cut(net, &[source], sinks, &least.cut, &least.flow, seen);
    assert!(rt; checked.is_ok());
    Ok(least)
}

// whether both are the same cut, or the same refusal
fn is_same(one: &Result<LeastCut, CutError>, other: &Result<LeastCut, CutError>) -> bool {
    match one {
        Ok(one) => is_cut(other, one),
        Err(one) => is_refusal(other, one),
    }
}

fn is_cut(found: &Result<LeastCut, CutError>, wanted: &LeastCut) -> bool {
    match found {
        Ok(found) => {
            found.total == wanted.total && found.cut.links.as_slice() == wanted.cut.links.as_slice()
        }
        Err(_) => false,
    }
}

/// Whether it is this refusal.
pub fn is_refusal(found: &Result<LeastCut, CutError>, wanted: &CutError) -> bool {
    match found {
        Ok(_) => false,
        Err(found) => found == wanted,
    }
}

// whether there is a cut; both bodies say so, and name the same one
fn has_cut(
    rt: &impl Abort,
    alloc: Global,
    net: &Net,
    source: u32,
    sinks: &[u32],
) -> Result<bool, Fail>
    requires few { length net.now.links ≤ 500000 }
    requires source { source < net.now.size }
    requires sinks { All (λ t. t < net.now.size) sinks.now }
    requires some { 0 < length sinks.now }
    requires apart { has sinks.now source ≡ false }
{
    let mut seen = vec![in alloc; false; net.size() as usize]?;
    let one = shown(rt, alloc, net, source, sinks, seen.as_mut_slice());
    let other = plainly_shown(rt, alloc, net, source, sinks, seen.as_mut_slice());
    assert!(rt; is_same(&one, &other));
    Ok(one.is_ok())
}

#[test]
fn both_bodies(rt: HostRuntime) -> Result<(), Fail> {
    let mut state: u64 = 1;
    let mut cuts = 0u32;
    for _ in 0..400u32 {
        let n = 3 + draw(&mut state, 6) as u32;
        let links = draw_links(rt.alloc(), &mut state, n)?;
        let sinks = [
            draw(&mut state, n as u64) as u32,
            draw(&mut state, n as u64) as u32,
        ];
        let source = draw(&mut state, n as u64) as u32;
        if source != sinks[0]
            && source != sinks[1]
            && is_net(n, links.as_slice())
            && links.len() <= 500000
        {
            let net = Net::new(n, links);
            if has_cut(&rt, rt.alloc(), &net, source, &sinks)? && cuts < 1000 {
                cuts += 1;
            }
        }
    }
    assert!(rt; cuts > 100);
    Ok(())
}
