//! Trials, which answer input that is made from a number. What is wanted was worked out by hand.

use crate::calls::{Ran, call_with, stops_so, usual};
use std::alloc::Global;
use std::test::Fail;

/// One supervoxel, and one client that asks for its path.
const WORDS: &str =
    "trial --bits 8 --grid 1,1,1 --merge-affinity 1 --clock 1000,10 --from 1 --size 1 --requests 1 --clients 1";

/// Five records, where the base of one supervoxel needs six.
const FULL: &str =
    "trial --bits 8 --grid 1,1,1 --merge-affinity 1 --clock 1000,10 --from 1 --size 1 --requests 1 --clients 1 --records 5";

/// A trial's call over files that it leaves alone.
fn tried(alloc: Global, words: &str) -> Result<Ran, Fail> {
    call_with(alloc, words, &usual())
}

#[test]
fn a_trial_is_summed_up(rt: HostRuntime) -> Result<(), Fail> {
    let line =
        b"{\"accepted\":0,\"clients\":1,\"entries\":1,\"faults\":[],\"lines\":1,\"records\":6,\"refused\":0,\"roots\":1,\"status\":0}\n".as_slice();
    assert!(rt; stops_so(&tried(rt.alloc(), WORDS)?, 0, line));
    Ok(())
}

#[test]
fn a_trial_has_too_few_records(rt: HostRuntime) -> Result<(), Fail> {
    let line = b"{\"fault\":\"TooSmall\",\"given\":5,\"need\":6}\n".as_slice();
    assert!(rt; stops_so(&tried(rt.alloc(), FULL)?, 6, line));
    Ok(())
}
