//! Reads of the image, and the thread beside them.

ghost use Rattle.std.specs.Prelude.{◌≡◌, ◌<◌, [], true, All};
ghost use Rattle.std.specs.List.{AllByRecursion};
ghost use Rattle.bench_shared.specs.Passes.{IsFree};

use crate::round::{Round, STRIDE, following};
use pcg_base::Words;
use root_locks::{lock, pin, unlock};
use shared_rows::{Image, Pass, Shared};
use std::rt::Clock;
use std::sync::Wait;
use std::thread;
use std::thread::Threads;
use std::time::Instant;

/// The sum of so many words, each `STRIDE` behind the one before; 0 where there are too few words.
fn sum_words<W: Words>(w: &mut W, loads: u64) -> u64
    ensures same { w.new ≡ w.old }
{
    let count = w.len();
    if count <= STRIDE {
        return 0;
    }
    let mut sum = 0u64;
    let mut at = 0;
    for _ in 0..loads {
        sum = sum.wrapping_add(w.word(at));
        at = following(at, count);
    }
    sum
}

/// The sum of so many words of the image.
fn sum_image(shared: &Shared, pass: &mut Pass, loads: u64) -> u64
    requires own { pass.old.table ≡ shared.now.table }
    ensures same { pass.new ≡ pass.old }
{
    sum_words(&mut Image { shared, pass }, loads)
}

/// Looks, and reads words of the image.
#[tactic(auto, using(crate::proofs::Passing::free_looked, crate::proofs::Passing::free_same))]
fn read(shared: &Shared, pass: &mut Pass, round: &Round)
    requires free { IsFree shared.now pass.old }
    ensures free { IsFree shared.now pass.new }
{
    shared.look(pass);
    round.finish(sum_image(shared, pass, round.loads));
}

/// Takes three locks, pins them, takes the turn and looks, as an edit does.
fn arrive<R: Wait>(rt: &R, shared: &Shared, pass: &mut Pass)
    requires free { IsFree shared.now pass.old }
    ensures table { pass.new.table ≡ pass.old.table }
    ensures turn { pass.new.view.turn ≡ true }
    ensures clean { pass.new.view.draft ≡ [] }
    ensures low { AllByRecursion (λ l. l < 64) pass.new.view.held }
{
    lock(rt, shared, pass, 7);
    pin(shared, pass);
    shared.take_turn(rt, pass);
    shared.look(pass);
}

/// What an edit does on the rows but for its records: it comes to its turn, and gives all back.
#[tactic(auto, using(crate::proofs::Passing::free_left))]
fn work_once<R: Wait>(rt: &R, shared: &Shared, pass: &mut Pass)
    requires free { IsFree shared.now pass.old }
    ensures free { IsFree shared.now pass.new }
{
    arrive(rt, shared, pass);
    shared.give_turn(pass);
    unlock(shared, pass);
}

/// Works until all readers are done.
fn work<R: Wait>(rt: &R, shared: &Shared, pass: &mut Pass, round: &Round)
    requires free { IsFree shared.now pass.old }
    ensures free { IsFree shared.now pass.new }
{
    for _ in rt.forever() {
        if round.is_over() {
            return;
        }
        work_once(rt, shared, pass);
    }
}

/// What the thread of this number does: the first ones read, and the next one works.
fn take_part<R: Wait>(rt: &R, shared: &Shared, pass: &mut Pass, number: usize, round: &Round)
    requires free { IsFree shared.now pass.old }
    ensures free { IsFree shared.now pass.new }
{
    if number < round.readers {
        read(shared, pass, round);
    } else if number == round.readers {
        work(rt, shared, pass, round);
    }
}

/// All threads take part.
fn take_parts<R: Threads + Wait + Sync>(rt: &R, shared: &Shared, passes: &mut [Pass], round: &Round)
    requires free { All (IsFree shared.now) passes.old }
    ensures free { All (IsFree shared.now) passes.new }
{
    thread::for_each_mut(
        rt,
        passes,
        5,
        &|number, pass: &mut Pass| { take_part(rt, shared, pass, number, round) },
    );
}

/// The microseconds in which so many threads read so many words each.
pub fn time_shared<R: Threads + Wait + Sync + Clock>(
    rt: &R,
    shared: &Shared,
    passes: &mut [Pass],
    readers: usize,
    loads: u64,
) -> Option<u128>
    requires free { All (IsFree shared.now) passes.old }
    ensures free { All (IsFree shared.now) passes.new }
{
    let round = Round::new(readers, loads);
    let start = Instant::now(rt).ok()?;
    take_parts(rt, shared, passes, &round);
    let time = start.elapsed(rt).ok()?;
    Some(time.as_micros())
}
