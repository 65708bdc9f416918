//! The pairs of each vertex, as chains in two flat vectors.

ghost use Rattle.std.specs.Prelude.{◌≡◌, ◌+◌, ◌<◌, length, IfOk, OnOk, slice_index, slice_set, replicate, ◌^◌};
ghost use Rattle.std.specs.List.{All};
ghost use Rattle.components.specs.Chains.{AreLasts, AreNexts};

use pcg_base::NoMemory;
use std::alloc::Global;

// for each vertex its last pair, and for each pair the one before it at either of its vertices;
// each is the pair's number and one more, and 0 where there is none
#[derive(Drop)]
pub(crate) struct Chains {
    pub lasts: Vec<usize>,
    pub nexts: Vec<(usize, usize)>,
}

// puts pair k at the front of the chains of its vertices; what was in front before
fn link(lasts: &mut [usize], a: u32, b: u32, k: usize) -> (usize, usize)
    requires a { a < length lasts.old }
    requires b { b < length lasts.old }
    requires more { k + 1 < 2 ^ 64 }
    ensures one { result.0 ≡ slice_index lasts.old a }
    ensures other { result.1 ≡ slice_index lasts.old b }
    ensures lasts { lasts.new ≡ slice_set (slice_set lasts.old a (k + 1)) b (k + 1) }
{
    let before = (lasts[a as usize], lasts[b as usize]);
    lasts[a as usize] = k + 1;
    lasts[b as usize] = k + 1;
    before
}

// chains all pairs, from none on; the pairs before each
fn link_all(
    alloc: Global,
    n: u32,
    pairs: &[(u32, u32)],
    lasts: &mut [usize],
) -> Result<Vec<(usize, usize)>, NoMemory>
    requires below { All (λ p. (p.0 < n) × (p.1 < n)) pairs.now }
    requires none { AreLasts n pairs.now 0 lasts.old }
    ensures lasts { OnOk result (AreLasts n pairs.now (length pairs.now) lasts.new) }
    ensures nexts { IfOk result (λ nexts. AreNexts pairs.now (length pairs.now) nexts.items) }
{
    let Ok(mut nexts) = Vec::with_capacity(alloc, pairs.len()) else {
        return Err(NoMemory);
    };
    for k in 0..pairs.len() {
        let (a, b) = pairs[k];
        let before = link(lasts, a, b, k);
        let Ok(_) = nexts.push(before) else {
            return Err(NoMemory);
        };
    }
    Ok(nexts)
}

// the chains of all vertices below n
pub(crate) fn chained(alloc: Global, n: u32, pairs: &[(u32, u32)]) -> Result<Chains, NoMemory>
    requires below { All (λ p. (p.0 < n) × (p.1 < n)) pairs.now }
    ensures lasts { IfOk result (λ c. AreLasts n pairs.now (length pairs.now) c.lasts.items) }
    ensures nexts { IfOk result (λ c. AreNexts pairs.now (length pairs.now) c.nexts.items) }
{
    let mut lasts = filled(alloc, n)?;
    let nexts = link_all(alloc, n, pairs, &mut lasts)?;
    Ok(Chains { lasts, nexts })
}

// no pair for each vertex
fn filled(alloc: Global, n: u32) -> Result<Vec<usize>, NoMemory>
    ensures { IfOk result (λ lasts. lasts.items ≡ replicate n 0) }
{
    let Ok(lasts) = (vec![in alloc; 0; n as usize]) else {
        return Err(NoMemory);
    };
    Ok(lasts)
}

// the last pair of u
pub(crate) fn last_of(chains: &Chains, u: u32) -> usize
    requires { u < length chains.now.lasts.items }
    ensures { result ≡ slice_index chains.now.lasts.items u }
{
    chains.lasts[u as usize]
}
