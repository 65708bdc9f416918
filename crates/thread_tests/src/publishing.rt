//! Three passes look while a fourth one publishes.

ghost use Rattle.std.specs.Prelude.{◌≡◌, ◌<◌, ◌≤◌, [], true, All, length};
ghost use Rattle.std.specs.List.{AllByRecursion};
ghost use Rattle.op_model.specs.declared.entry.Entry.{Entry};
ghost use Rattle.shared_rows.specs.Drafting.{Whole, end_of};
ghost use Rattle.shared_rows.specs.Known.{known};
ghost use Rattle.shared_rows.specs.Plays.{published};
ghost use Rattle.thread_tests.specs.Ending.{Ends, IsBegun};
ghost use Rattle.thread_tests.specs.Samples.{IsMerge};
ghost use Rattle.thread_tests.specs.Turns.{IsReady};

use crate::ending::{end, is_same, listed};
use crate::samples::{begin, merge_draft, words};
use pcg_base::NoMemory;
use root_locks::{lock, pin, unlock};
use row_words::{Draft, apply};
use shared_rows::{Image, Pass, Shared, Started};
use std::alloc::Global;
use std::prelude::HostRuntime;
use std::sync::Wait;
use std::sync::atomic::{AtomicU32, Ordering};
use std::thread;
use std::thread::Threads;

/// Looks until the log has two entries. Whether each look saw all words of a log, and no fewer entries
/// than the look before.
#[tactic(auto, using(crate::proofs::Gathering::ends_looked, crate::proofs::Gathering::ends_same))]
fn watch(shared: &Shared, pass: &mut Pass, first: &[u64], second: &[u64]) -> bool
    requires ends { Ends shared.now pass.old }
    ensures ends { Ends shared.now pass.new }
{
    let mut before = 1;
    for _ in 0..10000000 {
        let seen = shared.look(pass);
        let words = if seen == 1 { first } else { second };
        if seen < before || !sees(shared, pass, words) {
            return false;
        }
        if seen == 2 {
            return true;
        }
        before = seen;
        thread::yield_now();
    }
    false
}

/// Whether the pass sees these words.
fn sees(shared: &Shared, pass: &mut Pass, words: &[u64]) -> bool
    requires own { pass.old.table ≡ shared.now.table }
    ensures same { pass.new ≡ pass.old }
{
    is_same(&mut Image { shared, pass }, words)
}

/// Publishes the draft.
fn publish(shared: &Shared, pass: &mut Pass, draft: &Draft) -> u32
    requires own { pass.old.table ≡ shared.now.table }
    requires ready { IsReady pass.old.view }
    requires draft { IsMerge draft.now }
    ensures table { pass.new.table ≡ pass.old.table }
    ensures more { pass.old.view.tail ≤ pass.new.view.tail }
    ensures held { pass.new.view.held ≡ pass.old.view.held }
    ensures turn { pass.new.view.turn ≡ pass.old.view.turn }
    ensures clean { pass.new.view.draft ≡ [] }
{
    shared.draft(pass, draft);
    publish_merge(shared, pass)
}

/// Publishes what was drafted.
fn publish_merge(shared: &Shared, pass: &mut Pass) -> u32
    ghost entry: { Entry }
    requires own { pass.old.table ≡ shared.now.table }
    requires fresh { pass.old.view.fresh ≡ true }
    requires whole { Whole pass.old.view (end_of pass.old.view.draft) entry }
    ensures published { pass.new ≡ known pass.old.table (published pass.old.view (end_of pass.old.view.draft) entry) }
{
    shared.publish(pass)
}

/// Publishes the draft if the pass has seen one entry.
fn add(shared: &Shared, pass: &mut Pass, draft: &Draft, seen: u32) -> bool
    requires own { pass.old.table ≡ shared.now.table }
    requires clean { pass.old.view.draft ≡ [] }
    requires ready { seen ≡ 1 → IsReady pass.old.view }
    requires draft { IsMerge draft.now }
    ensures table { pass.new.table ≡ pass.old.table }
    ensures more { pass.old.view.tail ≤ pass.new.view.tail }
    ensures held { pass.new.view.held ≡ pass.old.view.held }
    ensures turn { pass.new.view.turn ≡ pass.old.view.turn }
    ensures clean { pass.new.view.draft ≡ [] }
{
    if seen != 1 {
        return false;
    }
    publish(shared, pass, draft) == 2
}

/// Locks the roots that the merge retires, pins them, takes the turn and looks.
fn arrive<R: Wait>(rt: &R, shared: &Shared, pass: &mut Pass) -> u32
    requires begun { IsBegun shared.now pass.old }
    requires number { pass.old.view.number ≡ 1 }
    ensures table { pass.new.table ≡ pass.old.table }
    ensures more { pass.old.view.tail ≤ pass.new.view.tail }
    ensures turn { pass.new.view.turn ≡ true }
    ensures clean { pass.new.view.draft ≡ [] }
    ensures low { AllByRecursion (λ l. l < 64) pass.new.view.held }
    ensures ready { result ≡ 1 → IsReady pass.new.view }
{
    lock(rt, shared, pass, 6);
    pin(shared, pass);
    shared.take_turn(rt, pass);
    shared.look(pass)
}

/// Publishes the merge. Whether the log had one entry before and has two now.
#[tactic(auto, using(crate::proofs::Writing::ends_written))]
fn write<R: Wait>(rt: &R, shared: &Shared, pass: &mut Pass, draft: &Draft) -> bool
    requires begun { IsBegun shared.now pass.old }
    requires number { pass.old.view.number ≡ 1 }
    requires draft { IsMerge draft.now }
    ensures ends { Ends shared.now pass.new }
{
    let seen = arrive(rt, shared, pass);
    let done = add(shared, pass, draft, seen);
    shared.give_turn(pass);
    unlock(shared, pass);
    done
}

/// The first pass publishes, and all others look. Counts a pass that saw anything else than it should.
#[tactic(auto, using(crate::proofs::Gathering::ends_begun))]
fn work<R: Wait>(
    rt: &R,
    shared: &Shared,
    pass: &mut Pass,
    draft: &Draft,
    first: &[u64],
    second: &[u64],
    failures: &AtomicU32,
)
    requires begun { IsBegun shared.now pass.old }
    requires draft { IsMerge draft.now }
    ensures ends { Ends shared.now pass.new }
{
    let fine = if pass.number() == 1 {
        write(rt, shared, pass, draft)
    } else {
        watch(shared, pass, first, second)
    };
    if !fine {
        failures.fetch_add(1, Ordering::SeqCst);
    }
}

/// All passes work at once.
fn work_all<R: Threads + Wait + Sync>(
    rt: &R,
    shared: &Shared,
    passes: &mut [Pass],
    draft: &Draft,
    first: &[u64],
    second: &[u64],
    failures: &AtomicU32,
)
    requires begun { All (IsBegun shared.now) passes.old }
    requires draft { IsMerge draft.now }
    ensures ends { All (Ends shared.now) passes.new }
    ensures count { length passes.new ≡ length passes.old }
{
    thread::for_each_mut(
        rt,
        passes,
        4,
        &|_, pass: &mut Pass| { work(rt, shared, pass, draft, first, second, failures) },
    );
}

/// One table with four passes, from its start to its end. How many passes saw anything else than
/// they should, and one more if the words at the end aren't those of the second log.
fn play<R: Threads + Wait + Sync>(
    rt: &R,
    alloc: Global,
    draft: &Draft,
    first: &[u64],
    second: &[u64],
) -> Result<u32, NoMemory>
    requires draft { IsMerge draft.now }
{
    let started = begin(alloc, 4)?;
    let Started { shared, mut passes } = started;
    let failures = AtomicU32::new(0);
    work_all(
        rt,
        &shared,
        passes.as_mut_slice(),
        draft,
        first,
        second,
        &failures,
    );
    let mut kept = end(shared, passes);
    let fine = is_same(&mut kept, second);
    Ok(failures.into_inner().saturating_add(u32::from(!fine)))
}

#[test]
#[tactic(auto, using(crate::proofs::SampleLogs::tail_fits, crate::proofs::SampleLogs::rows_fit))]
fn looks_see_whole_logs(rt: HostRuntime) -> Result<(), NoMemory> {
    let alloc = rt.alloc();
    let draft = merge_draft(alloc)?;
    let mut first = words(alloc)?;
    let first = listed(alloc, &mut first)?;
    let mut second = words(alloc)?;
    apply(&mut second, &draft);
    let second = listed(alloc, &mut second)?;
    for _ in 0..1000 {
        let failures = play(&rt, alloc, &draft, first.as_slice(), second.as_slice())?;
        assert!(rt; failures == 0);
    }
    Ok(())
}
