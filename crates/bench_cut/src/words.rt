//! The words of the command line.

ghost use Rattle.std.specs.Prelude.{◌<◌, ◌≤◌, ⊤, IfSome};
ghost use Rattle.bench_cut.specs.Wishes.{IsWish};

use node_ids::read_digits;
use std::env::FillError;
use std::rt::Env;

/// The net that the words wish for.
#[derive(Clone, Copy)]
pub enum Wish {
    /// A grid of so many vertices along each axis.
    Grid {
        x: u32,
        y: u32,
        z: u32,
        seed: u64,
    },
    /// So many vertices, and at most so many links.
    Random {
        vertices: u32,
        links: u32,
        seed: u64,
    },
}

impl Wish {
    /// How many vertices the net has.
    pub fn vertices(&self) -> u32 {
        match self {
            Wish::Grid { x, y, z, .. } => x.saturating_mul(*y).saturating_mul(*z),
            Wish::Random { vertices, .. } => *vertices,
        }
    }
}

/// The number that the word at this place spells, from `low` to `high`.
fn number<R: Env>(rt: &R, place: usize, low: u64, high: u64) -> Option<u64>
    ensures { IfSome result (λ n. (low ≤ n) × (n ≤ high)) }
{
    let mut bytes = [0u8; 32];
    let Ok(length) = rt.arg(place, &mut bytes) else {
        return None;
    };
    if length > 32 {
        return None;
    }
    let (word, _) = bytes.split_at(length);
    let n = read_digits(word)?;
    if low <= n && n <= high {
        return Some(n);
    }
    None
}

/// Whether the word at this place is this one.
fn is_word<R: Env>(rt: &R, place: usize, text: &[u8]) -> bool {
    let mut bytes = [0u8; 32];
    let Ok(length) = rt.arg(place, &mut bytes) else {
        return false;
    };
    if length > 32 {
        return false;
    }
    let (word, _) = bytes.split_at(length);
    word == text
}

/// What the words wish for, if they are of one of the two forms.
pub fn read_wish<R: Env>(rt: &R) -> Option<Wish>
    ensures { IfSome result (λ wish. IsWish wish) }
{
    if is_word(rt, 1, b"grid") {
        let x = number(rt, 2, 1, 1000000)? as u32;
        let y = number(rt, 3, 1, 1000000)? as u32;
        let z = number(rt, 4, 1, 1000000)? as u32;
        let seed = number(rt, 5, 0, u64::MAX)?;
        return Some(Wish::Grid { x, y, z, seed });
    }
    if is_word(rt, 1, b"random") {
        let vertices = number(rt, 2, 2, 1000000)? as u32;
        let links = number(rt, 3, 0, 500000)? as u32;
        let seed = number(rt, 4, 0, u64::MAX)?;
        return Some(Wish::Random {
            vertices,
            links,
            seed,
        });
    }
    None
}
