//! The traversal from one vertex: all that it is joined to gets its label.

ghost use Rattle.std.specs.Prelude.{◌≡◌, ◌≢◌, ℕ, ◌+◌, ◌<◌, ◌≤◌, true, [], length, OnOk, slice_index};
ghost use Rattle.std.specs.List.{All};
ghost use Rattle.components.specs.Chains.{AreLasts, AreNexts, other, last_at, touches};
ghost use Rattle.components.specs.Spreading.{IsSpread, Visits, work};

use crate::chains::{Chains, last_of};
use pcg_base::NoMemory;

// labels v and lets it wait, if it had no label
fn visit(
    n: u32,
    root: u32,
    v: u32,
    labels: &mut [u32],
    waiting: &mut Vec<u32>,
) -> Result<(), NoMemory>
    requires { v < length labels.old }
    ensures { OnOk result (Visits n root v labels.old labels.new waiting.old.items waiting.new.items) }
{
    if labels[v as usize] != n {
        return Ok(());
    }
    labels[v as usize] = root;
    let Ok(_) = waiting.push(v) else {
        return Err(NoMemory);
    };
    Ok(())
}

// the vertex at the other end of pair k
fn other_of(pairs: &[(u32, u32)], k: usize, u: u32) -> u32
    requires { k < length pairs.now }
    ensures { result ≡ other pairs.now k u }
{
    let (a, b) = pairs[k];
    if a == u { b } else { a }
}

// the pair of u before pair k, in its chain
fn next_of(pairs: &[(u32, u32)], nexts: &[(usize, usize)], k: usize, u: u32) -> usize
    requires at { k < length pairs.now }
    requires nexts { AreNexts pairs.now (length pairs.now) nexts.now }
    requires touched { touches pairs.now k u ≡ true }
    ensures { result ≡ last_at pairs.now u k }
{
    let (a, _) = pairs[k];
    let (one, other) = nexts[k];
    if a == u { one } else { other }
}

// takes the pairs of u, which has the root's label
fn take_pairs(
    n: u32,
    pairs: &[(u32, u32)],
    chains: &Chains,
    root: u32,
    u: u32,
    labels: &mut [u32],
    waiting: &mut Vec<u32>,
) -> Result<(), NoMemory>
    requires below { All (λ p. (p.0 < n) × (p.1 < n)) pairs.now }
    requires lasts { AreLasts n pairs.now (length pairs.now) chains.now.lasts.items }
    requires nexts { AreNexts pairs.now (length pairs.now) chains.now.nexts.items }
    requires root { root < n }
    requires at { u < n }
    requires own { slice_index labels.old u ≡ root }
    requires spread { IsSpread n pairs.now root u labels.old waiting.old.items }
    ensures spread { OnOk result (IsSpread n pairs.now root n labels.new waiting.new.items) }
    ensures kept { OnOk result ((v : ℕ) → slice_index labels.old v ≢ n → slice_index labels.new v ≡ slice_index labels.old v) }
    ensures work { OnOk result (work n labels.new waiting.new.items ≤ work n labels.old waiting.old.items) }
{
    let mut at = last_of(chains, u);
    while at != 0 {
        let k = at - 1;
        let v = other_of(pairs, k, u);
        visit(n, root, v, labels, waiting)?;
        at = next_of(pairs, &chains.nexts, k, u);
    }
    Ok(())
}

// labels all that those that wait are joined to
pub(crate) fn spread(
    n: u32,
    pairs: &[(u32, u32)],
    chains: &Chains,
    root: u32,
    labels: &mut [u32],
    waiting: &mut Vec<u32>,
) -> Result<(), NoMemory>
    requires below { All (λ p. (p.0 < n) × (p.1 < n)) pairs.now }
    requires lasts { AreLasts n pairs.now (length pairs.now) chains.now.lasts.items }
    requires nexts { AreNexts pairs.now (length pairs.now) chains.now.nexts.items }
    requires root { root < n }
    requires spread { IsSpread n pairs.now root n labels.old waiting.old.items }
    ensures spread { OnOk result (IsSpread n pairs.now root n labels.new []) }
    ensures empty { OnOk result (waiting.new.items ≡ []) }
    ensures kept { OnOk result ((v : ℕ) → slice_index labels.old v ≢ n → slice_index labels.new v ≡ slice_index labels.old v) }
{
    while let Some(u) = waiting.pop() {
        take_pairs(n, pairs, chains, root, u, labels, waiting)?;
    }
    Ok(())
}

// labels the root and all that it is joined to
pub(crate) fn spread_from(
    n: u32,
    pairs: &[(u32, u32)],
    chains: &Chains,
    root: u32,
    labels: &mut [u32],
    waiting: &mut Vec<u32>,
) -> Result<(), NoMemory>
    requires below { All (λ p. (p.0 < n) × (p.1 < n)) pairs.now }
    requires lasts { AreLasts n pairs.now (length pairs.now) chains.now.lasts.items }
    requires nexts { AreNexts pairs.now (length pairs.now) chains.now.nexts.items }
    requires root { root < n }
    requires spread { IsSpread n pairs.now root n labels.old waiting.old.items }
    requires empty { waiting.old.items ≡ [] }
    ensures spread { OnOk result (IsSpread n pairs.now (root + 1) n labels.new []) }
    ensures empty { OnOk result (waiting.new.items ≡ []) }
{
    visit(n, root, root, labels, waiting)?;
    spread(n, pairs, chains, root, labels, waiting)
}
