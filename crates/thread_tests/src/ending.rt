//! The passes are gathered, and the rows are closed.

ghost use Rattle.std.specs.Prelude.{◌≡◌, ◌<◌, All, length};
ghost use Rattle.thread_tests.specs.Ending.{Ends};

use pcg_base::{NoMemory, VecWords, Words};
use shared_rows::{Pass, Shared};
use std::alloc::Global;

/// Gathers these passes into one.
#[tactic(auto, using(crate::proofs::Gathering::other_ends))]
fn gather_all(shared: &Shared, all: &mut Pass, passes: Vec<Pass>)
    requires mine { Ends shared.now all.old }
    requires ends { All (Ends shared.now) passes.items }
    ensures mine { Ends shared.now all.new }
{
    let mut rest = passes;
    while let Some(other) = rest.pop() {
        shared.gather(all, other);
    }
}

/// Gathers all passes, and ends the rows.
#[tactic(auto, using(crate::proofs::Gathering::other_ends, crate::proofs::Gathering::rest_ends))]
pub fn end(shared: Shared, passes: Vec<Pass>) -> VecWords
    requires some { 0 < length passes.items }
    requires ends { All (Ends shared) passes.items }
{
    let mut rest = passes;
    let Some(mut all) = rest.pop() else {
        unreachable!()
    };
    gather_all(&shared, &mut all, rest);
    shared.close(all)
}

/// Whether these are the words.
pub fn is_same<W: Words>(w: &mut W, words: &[u64]) -> bool
    ensures same { w.new ≡ w.old }
{
    if w.len() != words.len() as u64 {
        return false;
    }
    for k in 0..words.len() {
        if w.word(k as u64) != words[k] {
            return false;
        }
    }
    true
}

/// The words of a log, one by one.
pub fn listed(alloc: Global, w: &mut VecWords) -> Result<Vec<u64>, NoMemory> {
    let mut list = Vec::new(alloc);
    for k in 0..w.len() {
        if k >= w.len() || list.push(w.word(k)).is_err() {
            return Err(NoMemory);
        }
    }
    Ok(list)
}
