//! Worked edits at the level of calls. The plans, the roots, the counts of records and the refusals
//! were worked out by hand from the definition. The words are compared with the plain program's,
//! and those of two logs with words that were written by hand.

use crate::bases::{EDGES, FIVE, ROW, ROW_EDGES, SUPERVOXELS, TWO, TWO_EDGES};
use crate::edits::Ask::{Merge, Redo, Split, Undo};
use crate::names::*;
use crate::sessions::{End, Start, comes_true, late, made};
use op_model::Refusal;
use std::test::Fail;

/// The usual tables, with room for so many records.
fn usual(capacity: u32) -> Start {
    Start {
        texts: (SUPERVOXELS, EDGES),
        bits: 8,
        grid: (2, 1, 1),
        capacity,
        at: 1000,
        top: TOP_0,
    }
}

/// A merge and a split.
#[test]
fn a_merge_and_a_split(rt: HostRuntime) -> Result<(), Fail> {
    let steps = [
        made(Merge(&[(R, S)]), &[(R, S, true)], &[1, 2], &[3], 34),
        made(Split(P, S), &[(R, S, false)], &[3], &[4, 5], 47),
    ];
    assert!(rt; comes_true(rt.alloc(), &usual(47), &steps, End::Halved)?);
    Ok(())
}

/// The split undone and done again.
#[test]
fn a_split_undone_and_done_again(rt: HostRuntime) -> Result<(), Fail> {
    let steps = [
        made(Merge(&[(R, S)]), &[(R, S, true)], &[1, 2], &[3], 34),
        made(Split(P, S), &[(R, S, false)], &[3], &[4, 5], 47),
        made(Undo(2), &[(R, S, true)], &[4, 5], &[6], 55),
        made(Redo(2), &[(R, S, false)], &[6], &[7, 8], 66),
    ];
    assert!(rt; comes_true(rt.alloc(), &usual(66), &steps, End::Nothing)?);
    Ok(())
}

/// A split needs a record more than there are, and an undo fits.
#[test]
fn a_record_too_few_for_a_split(rt: HostRuntime) -> Result<(), Fail> {
    let full = Refusal::StoreFull {
        need: 13,
        spare: 12,
    };
    let steps = [
        made(Merge(&[(R, S)]), &[(R, S, true)], &[1, 2], &[3], 34),
        late(Split(P, S), &full),
        made(Undo(1), &[(R, S, false)], &[3], &[4, 5], 45),
    ];
    assert!(rt; comes_true(rt.alloc(), &usual(46), &steps, End::Nothing)?);
    Ok(())
}

/// A merge needs a record more than there are.
#[test]
fn a_record_too_few_for_a_merge(rt: HostRuntime) -> Result<(), Fail> {
    let full = Refusal::StoreFull { need: 10, spare: 9 };
    let steps = [late(Merge(&[(R, S)]), &full)];
    assert!(rt; comes_true(rt.alloc(), &usual(33), &steps, End::Nothing)?);
    Ok(())
}

/// A merge of a pair that no edge joins yet.
#[test]
fn an_edge_is_added(rt: HostRuntime) -> Result<(), Fail> {
    let steps = [made(Merge(&[(S, P)]), &[(P, S, true)], &[1, 2], &[3], 38)];
    assert!(rt; comes_true(rt.alloc(), &usual(38), &steps, End::Nothing)?);
    Ok(())
}

/// r and s merged, that undone, p and s merged, the first merge done again, and undone at last.
#[test]
fn an_undo_that_splits_nothing(rt: HostRuntime) -> Result<(), Fail> {
    let steps = [
        made(Merge(&[(R, S)]), &[(R, S, true)], &[1, 2], &[3], 34),
        made(Undo(1), &[(R, S, false)], &[3], &[4, 5], 45),
        made(Merge(&[(P, S)]), &[(P, S, true)], &[4, 5], &[6], 59),
        made(Redo(1), &[(R, S, true)], &[6], &[7], 67),
        made(Undo(1), &[(R, S, false)], &[7], &[8], 77),
    ];
    assert!(rt; comes_true(rt.alloc(), &usual(77), &steps, End::Regained)?);
    Ok(())
}

/// Four chunks in a row: a split of the first from the last keeps the third one's lower nodes.
#[test]
fn nodes_that_stay(rt: HostRuntime) -> Result<(), Fail> {
    let start = Start {
        texts: (ROW, ROW_EDGES),
        grid: (4, 1, 1),
        top: FOUR_0,
        ..usual(50)
    };
    let steps = [made(Split(P, D), &[(P, R, false)], &[1], &[2, 3], 50)];
    assert!(rt; comes_true(rt.alloc(), &start, &steps, End::Paths)?);
    Ok(())
}

/// A merge of three pairs, of which two are the same, and its undo.
#[test]
fn a_merge_of_pairs(rt: HostRuntime) -> Result<(), Fail> {
    let start = Start {
        texts: (FIVE, EDGES),
        ..usual(70)
    };
    let pairs = [(R, S), (P, T), (S, R)];
    let joined = [(P, T, true), (R, S, true)];
    let apart = [(P, T, false), (R, S, false)];
    let steps = [
        made(Merge(&pairs), &joined, &[1, 2, 3], &[4], 51),
        made(Undo(1), &apart, &[4], &[5, 6, 7], 70),
    ];
    assert!(rt; comes_true(rt.alloc(), &start, &steps, End::Nothing)?);
    Ok(())
}

/// All 255 numbers of a chunk, and one more.
#[test]
fn numbers_run_out(rt: HostRuntime) -> Result<(), Fail> {
    let start = Start {
        texts: (TWO, TWO_EDGES),
        bits: 16,
        grid: (1, 1, 1),
        top: ONE_0,
        ..usual(1048576)
    };
    let steps = [made(Split(P, Q), &[(P, Q, false)], &[1], &[2, 3], 17)];
    assert!(rt; comes_true(rt.alloc(), &start, &steps, End::Numbers)?);
    Ok(())
}

/// No time is left behind the greatest.
#[test]
fn the_clock_ends(rt: HostRuntime) -> Result<(), Fail> {
    let last = 4611686018427387903;
    let start = Start {
        at: last,
        ..usual(1048576)
    };
    let end = Refusal::ClockEnd { last };
    let steps = [late(Merge(&[(R, S)]), &end)];
    assert!(rt; comes_true(rt.alloc(), &start, &steps, End::Nothing)?);
    Ok(())
}

/// One millisecond before the greatest time there is room for one entry.
#[test]
fn the_last_time(rt: HostRuntime) -> Result<(), Fail> {
    let last = 4611686018427387903;
    let start = Start {
        at: 4611686018427387902,
        ..usual(1048576)
    };
    let end = Refusal::ClockEnd { last };
    let steps = [
        made(Merge(&[(R, S)]), &[(R, S, true)], &[1, 2], &[3], 34),
        late(Undo(1), &end),
    ];
    assert!(rt; comes_true(rt.alloc(), &start, &steps, End::Nothing)?);
    Ok(())
}
