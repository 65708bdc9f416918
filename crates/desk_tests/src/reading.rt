//! Three passes read while a fourth one edits.

ghost use Rattle.std.specs.Prelude.{◌≡◌, All, length};
ghost use Rattle.edit_desk.specs.Desk.{IsReady};

use crate::rows::{R, TOP, begin, dataset, merge};
use edit_desk::SharedDesk;
use op_model::{Dataset, Edit, Read, Reply};
use pcg_base::{OpenGate, StepClock};
use shared_rows::{Pass, Shared, Started};
use std::alloc::Global;
use std::prelude::HostRuntime;
use std::sync::Wait;
use std::sync::atomic::{AtomicU32, Ordering};
use std::thread;
use std::thread::Threads;

/// How many edits are done.
const EDITS: u32 = 1000;

/// The root of r behind so many entries: each second one merges r and s, and the one behind it undoes
/// that. Each merge makes one root, and each undo two.
fn root_behind(seen: u32) -> u64 {
    let edits = (seen as u64).saturating_sub(1);
    let pairs = edits / 2;
    TOP + 3 * pairs + if edits % 2 == 1 { 3 } else { 1 }
}

/// The edit behind so many entries.
fn next_edit(alloc: Global, entries: u32) -> Option<Edit> {
    if entries % 2 == 1 {
        return merge(alloc);
    }
    Some(Edit::Undo {
        op: (entries as u64).saturating_sub(1),
    })
}

/// Whether the edit became this entry.
fn is_entry(reply: &Reply, number: u32) -> bool {
    match reply {
        Reply::Edited { op, seen, .. } => *op == number && *seen == number.saturating_add(1),
        _ => false,
    }
}

/// Does the edit behind so many entries. Whether it became the next entry.
fn edit_once<R: Wait>(
    rt: &R,
    alloc: Global,
    desk: &SharedDesk<'_, StepClock, OpenGate>,
    pass: &mut Pass,
    entries: u32,
) -> bool
    requires ready { IsReady desk.now.shared.now desk.now.dataset.now pass.old }
    ensures ready { IsReady desk.now.shared.now desk.now.dataset.now pass.new }
{
    let Some(edit) = next_edit(alloc, entries) else {
        return false;
    };
    let reply = desk.edit(rt, alloc, pass, edit, entries);
    is_entry(&reply, entries)
}

/// Does all edits. Whether each became an entry.
fn edit_all<R: Wait>(
    rt: &R,
    alloc: Global,
    desk: &SharedDesk<'_, StepClock, OpenGate>,
    pass: &mut Pass,
) -> bool
    requires ready { IsReady desk.now.shared.now desk.now.dataset.now pass.old }
    ensures ready { IsReady desk.now.shared.now desk.now.dataset.now pass.new }
{
    for entries in 1..EDITS + 1 {
        if !edit_once(rt, alloc, desk, pass, entries) {
            return false;
        }
    }
    true
}

/// How many entries a reply names, if it has the root that r had behind them.
fn seen_rightly(reply: &Reply) -> Option<u32> {
    match reply {
        Reply::Root { root, seen } => {
            if root.0 == root_behind(*seen) {
                Some(*seen)
            } else {
                None
            }
        }
        _ => None,
    }
}

/// Reads the root of r. How many entries the reply names, if it is right.
fn read_once(
    alloc: Global,
    desk: &SharedDesk<'_, StepClock, OpenGate>,
    pass: &mut Pass,
) -> Option<u32>
    requires ready { IsReady desk.now.shared.now desk.now.dataset.now pass.old }
    ensures ready { IsReady desk.now.shared.now desk.now.dataset.now pass.new }
{
    let reply = desk.read(alloc, pass, &Read::Root { sv: R, at: None });
    seen_rightly(&reply)
}

/// Reads until all edits are seen. Whether each reply was right, and named no fewer entries than the one
/// before.
fn read_all(alloc: Global, desk: &SharedDesk<'_, StepClock, OpenGate>, pass: &mut Pass) -> bool
    requires ready { IsReady desk.now.shared.now desk.now.dataset.now pass.old }
    ensures ready { IsReady desk.now.shared.now desk.now.dataset.now pass.new }
{
    let mut before = 1;
    for _ in 0..100_000_000 {
        let Some(seen) = read_once(alloc, desk, pass) else {
            return false;
        };
        if seen < before {
            return false;
        }
        if seen > EDITS {
            return true;
        }
        before = seen;
        thread::yield_now();
    }
    false
}

/// The first pass edits, and all others read. Counts a pass that saw anything else than it should.
fn work<R: Wait>(
    rt: &R,
    alloc: Global,
    desk: &SharedDesk<'_, StepClock, OpenGate>,
    pass: &mut Pass,
    failures: &AtomicU32,
)
    requires ready { IsReady desk.now.shared.now desk.now.dataset.now pass.old }
    ensures ready { IsReady desk.now.shared.now desk.now.dataset.now pass.new }
{
    let fine = if pass.number() == 1 {
        edit_all(rt, alloc, desk, pass)
    } else {
        read_all(alloc, desk, pass)
    };
    if !fine {
        failures.fetch_add(1, Ordering::SeqCst);
    }
}

/// All passes work at once. How many saw anything else than they should.
fn work_all<R: Threads + Wait + Sync>(
    rt: &R,
    alloc: Global,
    shared: &Shared,
    dataset: &Dataset,
    passes: &mut [Pass],
) -> u32
    requires ready { All (IsReady shared.now dataset.now) passes.old }
{
    let failures = AtomicU32::new(0);
    let clock = StepClock::new(1000, 10);
    let desk = SharedDesk {
        shared,
        dataset,
        clock: &clock,
        gate: &OpenGate,
    };
    thread::for_each_mut(
        rt,
        passes,
        4,
        &|_, pass: &mut Pass| { work(rt, alloc, &desk, pass, &failures) },
    );
    failures.into_inner()
}

#[test]
fn reads_see_whole_logs(rt: HostRuntime) {
    let alloc = rt.alloc();
    let dataset = dataset(20000);
    let Some(started) = begin(alloc, &dataset, 4) else {
        panic!(rt; "no rows");
    };
    let Started { shared, mut passes } = started;
    let failures = work_all(&rt, alloc, &shared, &dataset, passes.as_mut_slice());
    assert!(rt; failures == 0);
}
