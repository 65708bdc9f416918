//! The components, each named by its least vertex.

ghost use Rattle.std.specs.Prelude.{◌≡◌, ◌+◌, ◌<◌, [], length, IfOk, OnOk, replicate};
ghost use Rattle.std.specs.List.{All};
ghost use Rattle.components.specs.Joining.{AreLeastMembers};
ghost use Rattle.components.specs.Chains.{AreLasts, AreNexts};
ghost use Rattle.components.specs.Spreading.{IsSpread};

use crate::chains::{Chains, chained};
use crate::spread::spread_from;
use pcg_base::NoMemory;
use std::alloc::Global;

/// The least member of each vertex's component: the `v`-th answer is the least vertex that a walk of
/// pairs joins `v` to, and `v` itself where none is less.
///
/// The vertices are the numbers below `n`, and so are all members of pairs. A pair joins both ways;
/// it may come more than once, and a pair of a vertex with itself joins nothing. The time is linear
/// in `n` and the number of pairs. Memory is taken for the answer, and while the call lasts for at
/// most three numbers for each vertex and two for each pair; `NoMemory` comes for want of it.
pub fn components(alloc: Global, n: u32, pairs: &[(u32, u32)]) -> Result<Vec<u32>, NoMemory>
    requires below { All (λ p. (p.0 < n) × (p.1 < n)) pairs.now }
    ensures least { IfOk result (λ least. AreLeastMembers n pairs.now least.items) }
{
    let chains = chained(alloc, n, pairs)?;
    let mut labels = unlabelled(alloc, n)?;
    let mut waiting = Vec::new(alloc);
    label(n, pairs, &chains, &mut labels, &mut waiting)?;
    Ok(labels)
}

// no label for each vertex
fn unlabelled(alloc: Global, n: u32) -> Result<Vec<u32>, NoMemory>
    ensures { IfOk result (λ labels. labels.items ≡ replicate n n) }
{
    let Ok(labels) = (vec![in alloc; n; n as usize]) else {
        return Err(NoMemory);
    };
    Ok(labels)
}

// labels the vertices from the least on
fn label(
    n: u32,
    pairs: &[(u32, u32)],
    chains: &Chains,
    labels: &mut [u32],
    waiting: &mut Vec<u32>,
) -> Result<(), NoMemory>
    requires below { All (λ p. (p.0 < n) × (p.1 < n)) pairs.now }
    requires lasts { AreLasts n pairs.now (length pairs.now) chains.now.lasts.items }
    requires nexts { AreNexts pairs.now (length pairs.now) chains.now.nexts.items }
    requires spread { IsSpread n pairs.now 0 n labels.old [] }
    requires empty { waiting.old.items ≡ [] }
    ensures { OnOk result (AreLeastMembers n pairs.now labels.new) }
{
    for v in 0..n {
        spread_from(n, pairs, chains, v, labels, waiting)?;
    }
    Ok(())
}
