//! What a link carries, from where to where, and what leaves the set of the sources.

ghost use Rattle.std.specs.Prelude.{◌≡◌, ℕ, ◌<◌, ◌≤◌, ◌*◌, ◌^◌, ◌+◌, length, map, IfSome};
ghost use Rattle.flow_net.specs.Net.{first_below, wire_of};
ghost use Rattle.graph_model.specs.Lists.{has};
ghost use Rattle.graph_model.specs.Flows.{forth, back, carried_out, carried_in, value};
ghost use Rattle.flow_net.specs.Verdict.{over_room};
ghost use Rattle.flow_net.specs.Sums.{IsCarry};

use crate::Link;

// an amount as it runs
#[derive(Clone, Copy)]
pub(crate) struct Carry {
    pub from: u32,
    pub to: u32,
    pub size: u128,
}

// what an amount carries from a to b
fn forth_of(amount: i64) -> u128
    ensures value { result ≡ forth amount }
    ensures bound { result ≤ 2 ^ 63 }
{
    if amount > 0 { amount as u128 } else { 0 }
}

// what it carries from b to a
fn back_of(amount: i64) -> u128
    ensures value { result ≡ back amount }
    ensures bound { result ≤ 2 ^ 63 }
{
    if amount < 0 {
        amount.unsigned_abs() as u128
    } else {
        0
    }
}

// what link k carries
#[tactic(auto, using(crate::proofs::Adding::carry_back, crate::proofs::Adding::carry_forth))]
pub(crate) fn carry_at(links: &[Link], amounts: &[i64], k: usize) -> Carry
    requires at { k < length links.now }
    requires amounts { length amounts.now ≡ length links.now }
    ensures carry { IsCarry (map wire_of links.now) amounts.now k result.from result.to result.size }
    ensures bound { result.size ≤ 2 ^ 63 }
{
    let back = back_of(amounts[k]);
    if back > 0 {
        Carry {
            from: links[k].b,
            to: links[k].a,
            size: back,
        }
    } else {
        Carry {
            from: links[k].a,
            to: links[k].b,
            size: forth_of(amounts[k]),
        }
    }
}

// whether the amount of link k is over its room
fn is_over_room(links: &[Link], amounts: &[i64], k: u32) -> bool
    requires at { k < length links.now }
    requires amounts { length amounts.now ≡ length links.now }
    ensures { result ≡ over_room (map wire_of links.now) amounts.now k }
{
    match links[k as usize].room {
        Some(room) => amounts[k as usize].unsigned_abs() > room as u64,
        None => false,
    }
}

// the first link with an amount over its room
pub(crate) fn first_over(links: &[Link], amounts: &[i64]) -> Option<u32>
    requires few { length links.now ≤ 500000 }
    requires amounts { length amounts.now ≡ length links.now }
    ensures first { result ≡ first_below (over_room (map wire_of links.now) amounts.now) (length links.now) }
    ensures within { IfSome result (λ k. k < length links.now) }
{
    for k in 0..links.len() as u32 {
        if is_over_room(links, amounts, k) {
            return Some(k);
        }
    }
    None
}

// whether v is marked
pub(crate) fn is_mark(marks: &[u32], v: u32) -> bool
    ensures { result ≡ has marks.now v }
{
    marks.contains(&v)
}

// what link k carries out of the set of the sources
fn leaving_at(links: &[Link], amounts: &[i64], sources: &[u32], k: usize) -> u128
    requires at { k < length links.now }
    requires amounts { length amounts.now ≡ length links.now }
    ensures value { result ≡ carried_out (map wire_of links.now) amounts.now (has sources.now) k }
    ensures bound { result ≤ 2 ^ 63 }
{
    let carry = carry_at(links, amounts, k);
    if is_mark(sources, carry.from) && !is_mark(sources, carry.to) {
        carry.size
    } else {
        0
    }
}

// what it carries into it
fn entering_at(links: &[Link], amounts: &[i64], sources: &[u32], k: usize) -> u128
    requires at { k < length links.now }
    requires amounts { length amounts.now ≡ length links.now }
    ensures value { result ≡ carried_in (map wire_of links.now) amounts.now (has sources.now) k }
    ensures bound { result ≤ 2 ^ 63 }
{
    let carry = carry_at(links, amounts, k);
    if is_mark(sources, carry.to) && !is_mark(sources, carry.from) {
        carry.size
    } else {
        0
    }
}

// what leaves the set of the sources, less what enters it
pub(crate) fn value_of(links: &[Link], amounts: &[i64], sources: &[u32]) -> i128
    requires few { length links.now ≤ 500000 }
    requires amounts { length amounts.now ≡ length links.now }
    ensures { result ≡ value (map wire_of links.now) amounts.now sources.now }
{
    let mut leaving: u128 = 0;
    let mut entering: u128 = 0;
    for k in 0..links.len() {
        leaving += leaving_at(links, amounts, sources, k);
        entering += entering_at(links, amounts, sources, k);
    }
    leaving as i128 - entering as i128
}
