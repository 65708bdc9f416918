//! The words of the command line.

use node_ids::read_digits;
use std::rt::Env;

/// The base that the words wish for.
#[derive(Clone, Copy)]
pub struct Wish {
    /// How many supervoxels, from 2 to 1,000,000.
    pub count: u32,
    /// How many supervoxels each object has, from 2 to 250,000, and at most all.
    pub object: u32,
    /// What the generator of numbers begins with.
    pub seed: u64,
}

/// The number that the word at this place spells.
fn number<R: Env>(rt: &R, place: usize) -> Option<u64> {
    let mut bytes = [0u8; 32];
    let Ok(length) = rt.arg(place, &mut bytes) else {
        return None;
    };
    if length > 32 {
        return None;
    }
    let (word, _) = bytes.split_at(length);
    read_digits(word)
}

/// What the words wish for, if they are `N OBJECT SEED`.
pub fn read_wish<R: Env>(rt: &R) -> Option<Wish> {
    let count = u32::try_from(number(rt, 1)?).ok()?;
    let object = u32::try_from(number(rt, 2)?).ok()?;
    let seed = number(rt, 3)?;
    if count > 1000000 || object < 2 || object > 250000 || object > count {
        return None;
    }
    Some(Wish {
        count,
        object,
        seed,
    })
}
