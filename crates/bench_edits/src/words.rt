//! The words of the command line.

ghost use Rattle.std.specs.Prelude.{◌≤◌, IfSome};
ghost use Rattle.bench_edits.specs.Bases.{IsCount};

use node_ids::read_digits;
use std::rt::Env;

/// The merges that the words wish for.
#[derive(Clone, Copy)]
pub struct Wish {
    /// How many supervoxels, from 1 to 1,000,000.
    pub count: u32,
    /// How many merges, from 10 to 1,000,000.
    pub edits: u32,
    /// What the generator of numbers begins with.
    pub seed: u64,
}

/// The number that the word at this place spells, from `low` to `high`.
fn number<R: Env>(rt: &R, place: usize, low: u64, high: u64) -> Option<u64>
    ensures { IfSome result (λ n. (low ≤ n) × (n ≤ high)) }
{
    let mut bytes = [0u8; 32];
    let Ok(length) = rt.arg(place, &mut bytes) else {
        return None;
    };
    if length > 32 {
        return None;
    }
    let (word, _) = bytes.split_at(length);
    let n = read_digits(word)?;
    if low <= n && n <= high {
        return Some(n);
    }
    None
}

/// What the words wish for, if they are `N EDITS SEED`.
pub fn read_wish<R: Env>(rt: &R) -> Option<Wish>
    ensures { IfSome result (λ wish. IsCount wish.count wish.edits) }
{
    let count = number(rt, 1, 1, 1000000)?;
    let edits = number(rt, 2, 10, 1000000)?;
    let seed = number(rt, 3, 0, u64::MAX)?;
    Some(Wish {
        count: count as u32,
        edits: edits as u32,
        seed,
    })
}
