//! Times how fast threads read the words of shared rows, beside one that works as an edit does.
//!
//!     bench_shared N
//!
//! The rows are those of a base of N supervoxels without edges. 1, 2 and 4 threads read words of the image,
//! 20,000,000 each. One more thread takes three locks, pins them, takes the turn, looks and gives all back,
//! again and again. No call makes the records of an entry yet, so it publishes none. Then as many threads load
//! as many words from a plain vector of atomic words of the same length, beside one that stores to a word.
//!
//! It prints one line for each count of readers: `words W readers T shared-loads-a-second A
//! plain-loads-a-second B`. N is from 1 to 100,000. Below 1,000 supervoxels each thread reads 1,000 words, and
//! nothing is told of time: both rates are 0. Status 1: the word is of another form; 5: memory ran out or the
//! clock failed.
//!
//! The promise: it never panics. Nothing is promised of what it prints.
#![tactic(auto)]

ghost use Rattle.std.specs.Prelude.{All};
ghost use Rattle.bench_shared.specs.Passes.{IsCount, IsFree};

mod plain;
mod round;
mod rows;
mod shared;
mod words;

use plain::{plain_words, time_plain};
use rows::begin;
use shared::time_shared;
use shared_rows::{Pass, Shared, Started};
use std::alloc::Global;
use std::process::ExitCode;
use std::rt::Clock;
use std::sync::Wait;
use std::sync::atomic::AtomicU64;
use std::thread::Threads;
use words::read_count;

/// The least base whose times are told.
const TOLD: u64 = 1000;

/// How many words each thread reads.
fn loads_of(count: u64) -> u64 {
    if count < TOLD { 1000 } else { 20000000 }
}

/// How many loads there were in a second, or 0 for a small base.
fn rate(count: u64, readers: usize, time: u128) -> u128 {
    if count < TOLD {
        return 0;
    }
    let all = u128::from(loads_of(count)).saturating_mul(readers as u128);
    all.saturating_mul(1000000) / time.max(1)
}

/// Times so many readers over shared rows and over plain words, and prints both rates.
fn tell<R: Threads + Wait + Sync + Clock + Print>(
    rt: &R,
    shared: &Shared,
    passes: &mut [Pass],
    words: &[AtomicU64],
    count: u64,
    readers: usize,
) -> Option<()>
    requires free { All (IsFree shared.now) passes.old }
    ensures free { All (IsFree shared.now) passes.new }
{
    let loads = loads_of(count);
    let one = time_shared(rt, shared, passes, readers, loads)?;
    let other = time_plain(rt, words, readers, loads)?;
    let _ = println!(rt;
        "words {} readers {readers} shared-loads-a-second {} plain-loads-a-second {}",
        words.len(),
        rate(count, readers, one),
        rate(count, readers, other)
    );
    Some(())
}

/// Tells of 1, 2 and 4 readers.
fn tell_all<R: Threads + Wait + Sync + Clock + Print>(
    rt: &R,
    shared: &Shared,
    passes: &mut [Pass],
    words: &[AtomicU64],
    count: u64,
) -> Option<()>
    requires free { All (IsFree shared.now) passes.old }
{
    tell(rt, shared, passes, words, count, 1)?;
    tell(rt, shared, passes, words, count, 2)?;
    tell(rt, shared, passes, words, count, 4)
}

/// Makes the rows and the plain words, and tells of all.
fn run<R: Threads + Wait + Sync + Clock + Print>(rt: &R, alloc: Global, count: u64) -> Option<()>
    requires { IsCount count }
{
    let begun = begin(alloc, count)?;
    let (started, length) = begun;
    let Started { shared, mut passes } = started;
    let words = plain_words(alloc, length)?;
    tell_all(rt, &shared, passes.as_mut_slice(), words.as_slice(), count)
}

fn main(rt: HostRuntime) -> ExitCode {
    let Some(count) = read_count(&rt) else {
        let _ = println!(rt; "bench_shared: N, from 1 to 100000");
        return ExitCode::from(1);
    };
    if run(&rt, rt.alloc(), count).is_none() {
        return ExitCode::from(5);
    }
    ExitCode::from(0)
}
