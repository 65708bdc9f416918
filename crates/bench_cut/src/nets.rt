//! Nets from a generator of numbers: `state * 6364136223846793005 + 1442695040888963407` modulo `2^64` is
//! the next state, and its upper 31 bits modulo `n` are what is drawn below `n`.

ghost use Rattle.std.specs.Prelude.{◌<◌, ◌≤◌, ◌^◌};

use flow_net::Link;
use indexmap::IndexSet;
use std::alloc::Global;

/// The state behind this one.
fn next(state: u64) -> u64 {
    state
        .wrapping_mul(6364136223846793005)
        .wrapping_add(1442695040888963407)
}

/// What a state draws below `n`.
fn drawn(state: u64, n: u64) -> u64
    requires { 0 < n }
    ensures { result < n }
{
    (state >> 33) % n
}

/// Puts a link whose room, from 1 to `most`, is drawn next, and answers the state then.
fn put(links: &mut Vec<Link>, a: u64, b: u64, state: u64, most: u64) -> Option<u64>
    requires ends { (a < 2 ^ 32) × (b < 2 ^ 32) }
    requires most { (0 < most) × (most ≤ 1000000) }
{
    let state = next(state);
    let room = drawn(state, most) as u32;
    let link = Link {
        a: a as u32,
        b: b as u32,
        room: Some(room.saturating_add(1)),
    };
    match links.push(link) {
        Ok(()) => Some(state),
        Err(_) => None,
    }
}

/// Puts the links of vertex `v` of a grid to the next in x, in y and in z, where there is one. A layer of the
/// grid has `layer` vertices, a row of it `x`.
fn put_next(
    links: &mut Vec<Link>,
    x: u64,
    layer: u64,
    count: u64,
    v: u64,
    mut state: u64,
) -> Option<u64>
    requires x { (1 ≤ x) × (x ≤ layer) }
    requires layer { layer ≤ 1000000 }
    requires v { v ≤ 1000000 }
{
    if v % x + 1 < x {
        state = put(links, v, v + 1, state, 100)?;
    }
    if v % layer + x < layer {
        state = put(links, v, v + x, state, 100)?;
    }
    if v + layer < count {
        state = put(links, v, v + layer, state, 100)?;
    }
    Some(state)
}

/// The links of a grid whose vertices are numbered x fastest, then y, then z: from each to the next in x, in
/// y and in z, with rooms from 1 to 100. They come ascending by pair. None for a grid of more than 1,000,000
/// vertices, or where memory ran out.
pub fn grid(alloc: Global, x: u32, y: u32, z: u32, seed: u64) -> Option<Vec<Link>>
    requires x { (1 ≤ x) × (x ≤ 1000000) }
    requires y { (1 ≤ y) × (y ≤ 1000000) }
    requires z { (1 ≤ z) × (z ≤ 1000000) }
{
    let x = x as u64;
    let layer = x * y as u64;
    let count = layer.saturating_mul(z as u64);
    if x > layer || layer > 1000000 || count > 1000000 {
        return None;
    }
    let mut links = Vec::new(alloc);
    let mut state = seed;
    for v in 0..count {
        state = put_next(&mut links, x, layer, count, v, state)?;
    }
    Some(links)
}

/// Random links, one for each number below `links`: between its remainder by the number of vertices and a
/// vertex that is drawn of the others, with a room from 1 to 1,000,000; none where the pair came before.
/// They come ascending by pair.
pub fn random(alloc: Global, vertices: u32, links: u32, seed: u64) -> Option<Vec<Link>>
    requires { (2 ≤ vertices) × (vertices ≤ 1000000) }
{
    let count = vertices as u64;
    let mut pairs: IndexSet<(u32, u32)> = IndexSet::new(alloc);
    let mut list = Vec::new(alloc);
    let mut state = seed;
    for k in 0..links as u64 {
        state = next(state);
        let a = k % count;
        let b = (k + 1 + drawn(state, count - 1)) % count;
        state = next(state);
        let room = drawn(state, 1000000) as u32;
        let pair = ((a.min(b)) as u32, (a.max(b)) as u32);
        let Ok((_, is_new)) = pairs.insert_full(pair) else {
            return None;
        };
        if is_new {
            let link = Link {
                a: pair.0,
                b: pair.1,
                room: Some(room.saturating_add(1)),
            };
            if list.push(link).is_err() {
                return None;
            }
        }
    }
    list.sort_unstable_by_key(|link| (link.a, link.b));
    Some(list)
}
