//! The words of records: those of small logs, each written by hand, the header's, one record's, and
//! those of a draft.

ghost use Rattle.row_tests.specs.Worked.{WorkedCounts, WorkedTails, WorkedWords};

use crate::samples::{held, same_words};
use pcg_base::{NoMemory, Words};
use record_rows::{grid_of, layout_of};
use row_words::{Draft, DraftLink, Spot, apply, fixed, kind_of, pointer};
use std::prelude::HostRuntime;

/// The words of small logs, each equal to those written by hand (`words`), those below earlier
/// tails (`tails`), and how many records there are (`counts`).
pub fn worked_words()
    ensures words { WorkedWords }
    ensures tails { WorkedTails }
    ensures counts { WorkedCounts }
{}

#[test]
fn headers_of_both_versions(rt: HostRuntime) {
    let first = layout_of(2049);
    assert_eq!(rt; (first.version(), first.bits()), (1, 8));
    let second = layout_of(67585);
    assert_eq!(rt; (second.version(), second.bits()), (2, 8));
    let grid = grid_of(3298536980481);
    assert_eq!(rt; (grid.nx(), grid.ny(), grid.nz()), (1, 2, 3));
}

#[test]
fn records_are_read(rt: HostRuntime) -> Result<(), NoMemory> {
    let edge = 262;
    let node = 4;
    let items = [
        edge,
        72057594037927937,
        72057594037927938,
        10,
        0,
        0,
        9,
        0, //
        node,
        144396663052566531,
        72339069014638593,
        1,
        26,
        29,
        0,
        34,
    ];
    let mut w = held(rt.alloc(), &items, 0)?;
    assert_eq!(rt; kind_of(&mut w, Spot(0)), 6);
    assert_eq!(rt; kind_of(&mut w, Spot(1)), 4);
    assert_eq!(rt; fixed(&mut w, Spot(0), 3), 10);
    assert_eq!(rt; fixed(&mut w, Spot(1), 1), 144396663052566531);
    assert_eq!(rt; pointer(&mut w, Spot(1), 4), Some(Spot(26)));
    assert_eq!(rt; pointer(&mut w, Spot(1), 6), None);
    assert_eq!(rt; pointer(&mut w, Spot(1), 7), Some(Spot(34)));
    Ok(())
}

#[test]
fn drafts_are_applied(rt: HostRuntime) -> Result<(), NoMemory> {
    let items = [
        2049, 1, 1, 1, 0, 0, 0, 0, //
        2, 5, 0, 0, 0, 0, 0, 0,
    ];
    let mut w = held(rt.alloc(), &items, 16)?;
    let mut draft = Draft::new(rt.alloc(), 2, 2, 2)?;
    draft.add_link(Spot(1), 5, Spot(3));
    let node = draft.add_row([4, 11, 5, 0, 3, 0, 0, 0]);
    let link = draft.add_row([5, 5, 1, 0, 2, 0, 0, 0]);
    draft.add_link(Spot(0), 7, Spot(2));
    assert_eq!(rt; (node, link), (Spot(2), Spot(3)));
    assert_eq!(rt; (draft.tail(), draft.rows(), draft.links()), (2, 2, 2));
    assert_eq!(rt; draft.row(0), [4, 11, 5, 0, 3, 0, 0, 0]);
    assert_eq!(rt;
        draft.link(0),
        DraftLink {
            from: Spot(1),
            k: 5,
            to: Spot(3)
        }
    );
    apply(&mut w, &draft);
    let want = [
        2049, 1, 1, 1, 0, 0, 0, 2, //
        2, 5, 0, 0, 0, 3, 0, 0, //
        4, 11, 5, 0, 3, 0, 0, 0, //
        5, 5, 1, 0, 2, 0, 0, 0,
    ];
    let mut wanted = held(rt.alloc(), &want, 0)?;
    assert!(rt; same_words(&mut w, &mut wanted));
    assert_eq!(rt; (w.hint(0), w.hint(1), w.hint(2)), (1, 3, 0));
    Ok(())
}
