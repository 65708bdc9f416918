//! Eight passes merge the same pair.

ghost use Rattle.std.specs.Prelude.{◌≡◌, All, length};
ghost use Rattle.edit_desk.specs.Desk.{IsReady};

use crate::rows::{begin, dataset, merge};
use edit_desk::SharedDesk;
use op_model::{Dataset, Refusal, Reply};
use pcg_base::{OpenGate, StepClock};
use shared_rows::{Pass, Shared, Started};
use std::alloc::Global;
use std::prelude::HostRuntime;
use std::sync::Wait;
use std::sync::atomic::{AtomicU32, Ordering};
use std::thread;
use std::thread::Threads;

/// How many merges were accepted, and how many refused since both ends have one root.
#[derive(Drop)]
struct Counts {
    accepted: AtomicU32,
    refused: AtomicU32,
}

/// Counts a reply.
fn count(reply: &Reply, counts: &Counts) {
    match reply {
        Reply::Edited { seen: 2, .. } => {
            counts.accepted.fetch_add(1, Ordering::SeqCst);
        }
        Reply::Refused {
            refusal: Refusal::SameRoot { .. },
            seen: 2,
        } => {
            counts.refused.fetch_add(1, Ordering::SeqCst);
        }
        _ => {}
    }
}

/// Merges r and s, and counts the reply.
fn merge_once<R: Wait>(
    rt: &R,
    alloc: Global,
    desk: &SharedDesk<'_, StepClock, OpenGate>,
    pass: &mut Pass,
    counts: &Counts,
)
    requires ready { IsReady desk.now.shared.now desk.now.dataset.now pass.old }
    ensures ready { IsReady desk.now.shared.now desk.now.dataset.now pass.new }
{
    let Some(edit) = merge(alloc) else {
        return;
    };
    let reply = desk.edit(rt, alloc, pass, edit, 1);
    count(&reply, counts);
}

/// All passes merge at once.
fn merge_all<R: Threads + Wait + Sync>(
    rt: &R,
    alloc: Global,
    shared: &Shared,
    dataset: &Dataset,
    passes: &mut [Pass],
    counts: &Counts,
)
    requires ready { All (IsReady shared.now dataset.now) passes.old }
{
    let clock = StepClock::new(1000, 10);
    let desk = SharedDesk {
        shared,
        dataset,
        clock: &clock,
        gate: &OpenGate,
    };
    thread::for_each_mut(
        rt,
        passes,
        8,
        &|_, pass: &mut Pass| { merge_once(rt, alloc, &desk, pass, counts) },
    );
}

#[test]
fn one_of_equal_merges_is_accepted(rt: HostRuntime) {
    let alloc = rt.alloc();
    let dataset = dataset(34);
    for _ in 0..20 {
        let Some(started) = begin(alloc, &dataset, 8) else {
            panic!(rt; "no rows");
        };
        let Started { shared, mut passes } = started;
        let counts = Counts {
            accepted: AtomicU32::new(0),
            refused: AtomicU32::new(0),
        };
        merge_all(
            &rt,
            alloc,
            &shared,
            &dataset,
            passes.as_mut_slice(),
            &counts,
        );
        assert!(rt; counts.accepted.load(Ordering::SeqCst) == 1);
        assert!(rt; counts.refused.load(Ordering::SeqCst) == 7);
    }
}
