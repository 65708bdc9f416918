//! Loads from a plain vector of atomic words.

ghost use Rattle.std.specs.Prelude.{◌<◌, length};

use crate::round::{Round, STRIDE, following};
use std::alloc::Global;
use std::rt::Clock;
use std::sync::atomic::{AtomicU64, Ordering};
use std::thread;
use std::thread::Threads;
use std::time::Instant;

/// So many atomic words, each 0.
pub fn plain_words(alloc: Global, count: u64) -> Option<Vec<AtomicU64>> {
    let mut words = Vec::new(alloc);
    for _ in 0..count {
        words.push(AtomicU64::new(0)).ok()?;
    }
    Some(words)
}

/// The sum of so many words, each `STRIDE` behind the one before; 0 where there are too few words.
fn sum_words(words: &[AtomicU64], loads: u64) -> u64 {
    let count = words.len() as u64;
    if count <= STRIDE {
        return 0;
    }
    let mut sum = 0u64;
    let mut at = 0;
    for _ in 0..loads {
        sum = sum.wrapping_add(words[at as usize].load(Ordering::SeqCst));
        at = following(at, count);
    }
    sum
}

/// Stores to the first word until all readers are done.
fn store(words: &[AtomicU64], round: &Round) {
    let Some(word) = words.first() else { return };
    for n in 0..u64::MAX {
        if round.is_over() {
            return;
        }
        word.store(n, Ordering::SeqCst);
    }
}

/// What the thread of this number does: the first ones read, and the next one stores.
fn take_part(words: &[AtomicU64], number: usize, round: &Round) {
    if number < round.readers {
        round.finish(sum_words(words, round.loads));
    } else if number == round.readers {
        store(words, round);
    }
}

/// The microseconds in which so many threads read so many words each.
pub fn time_plain<R: Threads + Sync + Clock>(
    rt: &R,
    words: &[AtomicU64],
    readers: usize,
    loads: u64,
) -> Option<u128> {
    let round = Round::new(readers, loads);
    let round = &round;
    let mut seats = [0u8; 5];
    let start = Instant::now(rt).ok()?;
    thread::for_each_mut(
        rt,
        &mut seats,
        5,
        &|number, _: &mut u8| take_part(words, number, round),
    );
    let time = start.elapsed(rt).ok()?;
    Some(time.as_micros())
}
