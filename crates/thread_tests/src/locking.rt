//! Eight passes lock masks that overlap.

ghost use Rattle.std.specs.Prelude.{◌≡◌, All, length};
ghost use Rattle.thread_tests.specs.Ending.{Ends};

use crate::ending::{end, is_same, listed};
use crate::samples::{begin, words};
use pcg_base::NoMemory;
use root_locks::{lock, pin, unlock};
use shared_rows::{Pass, Shared, Started};
use std::prelude::HostRuntime;
use std::sync::Wait;
use std::sync::atomic::{AtomicU64, Ordering};
use std::thread;
use std::thread::Threads;

/// What the passes write beside the table.
#[derive(Drop)]
struct Seen {
    /// The locks that are held, as their holders say.
    held: AtomicU64,
    /// How often a lock was held twice, or a look saw another log.
    failures: AtomicU64,
}

/// Takes the locks of the mask, pins them and gives them back, a thousand times, and takes a turn in
/// between.
fn contend<R: Wait>(rt: &R, shared: &Shared, pass: &mut Pass, seen: &Seen)
    requires ends { Ends shared.now pass.old }
    ensures ends { Ends shared.now pass.new }
{
    let mask = mask_of(pass.number());
    for _ in 0..1000 {
        if !once(rt, shared, pass, mask, seen) {
            seen.failures.fetch_add(1, Ordering::SeqCst);
        }
    }
}

/// Three locks beside one another, of which the next pass has two, and one that all passes have.
fn mask_of(number: u32) -> u64 {
    if number < 32 { (7 << number) + 1 } else { 1 }
}

/// Takes the locks of the mask, pins them and gives them back, and takes a turn. Whether nobody else
/// said that a lock of the mask is held, and all looks saw one entry.
fn once<R: Wait>(rt: &R, shared: &Shared, pass: &mut Pass, mask: u64, seen: &Seen) -> bool
    requires ends { Ends shared.now pass.old }
    ensures ends { Ends shared.now pass.new }
{
    lock(rt, shared, pass, mask);
    let before = seen.held.fetch_or(mask, Ordering::SeqCst);
    let pinned = pin(shared, pass);
    let after = seen.held.fetch_and(!mask, Ordering::SeqCst);
    unlock(shared, pass);
    shared.take_turn(rt, pass);
    let looked = shared.look(pass);
    shared.give_turn(pass);
    before & mask == 0 && after & mask == mask && pinned == 1 && looked == 1
}

/// All passes contend at once.
fn contend_all<R: Threads + Wait + Sync>(rt: &R, shared: &Shared, passes: &mut [Pass], seen: &Seen)
    requires ends { All (Ends shared.now) passes.old }
    ensures ends { All (Ends shared.now) passes.new }
    ensures count { length passes.new ≡ length passes.old }
{
    thread::for_each_mut(
        rt,
        passes,
        8,
        &|_, pass: &mut Pass| contend(rt, shared, pass, seen),
    );
}

#[test]
fn a_lock_has_one_holder(rt: HostRuntime) -> Result<(), NoMemory> {
    let started = begin(rt.alloc(), 8)?;
    let Started { shared, mut passes } = started;
    let seen = Seen {
        held: AtomicU64::new(0),
        failures: AtomicU64::new(0),
    };
    contend_all(&rt, &shared, passes.as_mut_slice(), &seen);
    let mut kept = end(shared, passes);
    let mut first = words(rt.alloc())?;
    let first = listed(rt.alloc(), &mut first)?;
    assert!(rt; seen.held.load(Ordering::SeqCst) == 0);
    assert!(rt; seen.failures.load(Ordering::SeqCst) == 0);
    assert!(rt; is_same(&mut kept, first.as_slice()));
    Ok(())
}
