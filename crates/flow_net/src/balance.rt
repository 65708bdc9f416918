//! Whether as much comes into each vertex as goes out of it. No memory is taken: the links are
//! passed once for each block of vertices, whose sums stand in arrays of fixed size.

ghost use Rattle.std.specs.Prelude.{◌≡◌, ℕ, ◌<◌, ◌≤◌, ◌*◌, ◌^◌, ◌+◌, length, map, slice_index};
ghost use Rattle.flow_net.specs.Net.{first_below, wire_of};
ghost use Rattle.graph_model.specs.Flows.{run_out, run_in, out_of, into};
ghost use Rattle.flow_net.specs.Verdict.{unbalanced};
ghost use Rattle.flow_net.specs.Sums.{AreSums, AddsAt, differs};

use crate::Link;
use crate::carries::{carry_at, is_mark};

// vertices whose sums stand side by side
const BLOCK: usize = 2048;

// adds what comes at v, if it is one of the vertices from first on
fn add_at(sums: &mut [u128], first: u32, v: u32, more: u128)
    requires small { (i : ℕ) → i < length sums.old → slice_index sums.old i + more < 2 ^ 128 }
    ensures { AddsAt first v more sums.old sums.new }
{
    if v < first {
        return;
    }
    let at = (v - first) as usize;
    if at < sums.len() {
        sums[at] += more;
    }
}

// the sums at the vertices from first on
fn add_links(links: &[Link], amounts: &[i64], first: u32, into: &mut [u128], out: &mut [u128])
    requires few { length links.now ≤ 500000 }
    requires amounts { length amounts.now ≡ length links.now }
    ensures into { AreSums (run_in (map wire_of links.now) amounts.now) (length links.now) first into.new }
    ensures out { AreSums (run_out (map wire_of links.now) amounts.now) (length links.now) first out.new }
{
    into.fill(0);
    out.fill(0);
    for k in 0..links.len() {
        let carry = carry_at(links, amounts, k);
        add_at(out, first, carry.from, carry.size);
        add_at(into, first, carry.to, carry.size);
    }
}

// whether the vertex at place i is no mark and has unequal sums
fn is_different(
    into: &[u128],
    out: &[u128],
    sources: &[u32],
    sinks: &[u32],
    first: u32,
    i: u32,
) -> bool
    requires into { i < length into.now }
    requires out { i < length out.now }
    requires end { first + i < 2 ^ 32 }
    ensures { result ≡ differs sources.now sinks.now into.now out.now first i }
{
    if into[i as usize] == out[i as usize] {
        return false;
    }
    !(is_mark(sources, first + i) || is_mark(sinks, first + i))
}

// the first such place below count
fn first_different(
    into: &[u128],
    out: &[u128],
    sources: &[u32],
    sinks: &[u32],
    first: u32,
    count: u32,
) -> Option<u32>
    requires into { count ≤ length into.now }
    requires out { count ≤ length out.now }
    requires end { first + count ≤ 2 ^ 32 }
    ensures { result ≡ first_below (differs sources.now sinks.now into.now out.now first) count }
{
    for i in 0..count {
        if is_different(into, out, sources, sinks, first, i) {
            return Some(i);
        }
    }
    None
}

// the first of the vertices from first on that is no mark and isn't balanced, counted from there
fn first_in_block(
    links: &[Link],
    amounts: &[i64],
    sources: &[u32],
    sinks: &[u32],
    first: u32,
    count: u32,
    into: &mut [u128],
    out: &mut [u128],
) -> Option<u32>
    requires few { length links.now ≤ 500000 }
    requires amounts { length amounts.now ≡ length links.now }
    requires into { count ≤ length into.old }
    requires out { count ≤ length out.old }
    requires end { first + count ≤ 2 ^ 32 }
    ensures { result ≡ first_below (λ i. unbalanced (map wire_of links.now) sources.now sinks.now amounts.now (first + i)) count }
{
    add_links(links, amounts, first, into, out);
    first_different(into, out, sources, sinks, first, count)
}

// the first vertex that is no mark and has not as much in as out
pub(crate) fn first_unbalanced(
    n: u32,
    links: &[Link],
    amounts: &[i64],
    sources: &[u32],
    sinks: &[u32],
) -> Option<u32>
    requires few { length links.now ≤ 500000 }
    requires amounts { length amounts.now ≡ length links.now }
    ensures { result ≡ first_below (unbalanced (map wire_of links.now) sources.now sinks.now amounts.now) n }
{
    let mut into = [0u128; BLOCK];
    let mut out = [0u128; BLOCK];
    for block in 0..n / 2048 + 1 {
        let first = 2048 * block;
        let count = (n - first).min(2048);
        let found = first_in_block(
            links, amounts, sources, sinks, first, count, &mut into, &mut out,
        );
        if let Some(i) = found {
            return Some(first + i);
        }
    }
    None
}

// what link k carries out of v
fn out_at(links: &[Link], amounts: &[i64], v: u32, k: usize) -> u128
    requires at { k < length links.now }
    requires amounts { length amounts.now ≡ length links.now }
    ensures value { result ≡ run_out (map wire_of links.now) amounts.now v k }
    ensures bound { result ≤ 2 ^ 63 }
{
    let carry = carry_at(links, amounts, k);
    if carry.from == v { carry.size } else { 0 }
}

// what it carries into v
fn in_at(links: &[Link], amounts: &[i64], v: u32, k: usize) -> u128
    requires at { k < length links.now }
    requires amounts { length amounts.now ≡ length links.now }
    ensures value { result ≡ run_in (map wire_of links.now) amounts.now v k }
    ensures bound { result ≤ 2 ^ 63 }
{
    let carry = carry_at(links, amounts, k);
    if carry.to == v { carry.size } else { 0 }
}

// the sizes of the amounts that run away from v
pub(crate) fn out_of_vertex(links: &[Link], amounts: &[i64], v: u32) -> u128
    requires few { length links.now ≤ 500000 }
    requires amounts { length amounts.now ≡ length links.now }
    ensures value { result ≡ out_of (map wire_of links.now) amounts.now v }
    ensures bound { result < 2 ^ 84 }
{
    let mut sum: u128 = 0;
    for k in 0..links.len() {
        sum += out_at(links, amounts, v, k);
    }
    sum
}

// the sizes of the amounts that run towards v
pub(crate) fn into_vertex(links: &[Link], amounts: &[i64], v: u32) -> u128
    requires few { length links.now ≤ 500000 }
    requires amounts { length amounts.now ≡ length links.now }
    ensures value { result ≡ into (map wire_of links.now) amounts.now v }
    ensures bound { result < 2 ^ 84 }
{
    let mut sum: u128 = 0;
    for k in 0..links.len() {
        sum += in_at(links, amounts, v, k);
    }
    sum
}
