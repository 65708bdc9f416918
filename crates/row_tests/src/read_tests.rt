//! Each read call on the words of one log, and at each of its prefixes.

use crate::calls::{
    change_row, chunk_row, edge_at, edge_of, links_at, lists_at, node_row, places_of,
};
use crate::checks::{
    are_lists, are_merge, change, has_edge_lists, has_parents, has_parents_by_hints,
    has_parents_by_links, has_paths, has_states, has_times,
};
use crate::entry_calls::{entry_ahead, entry_lists, entry_row, length_of};
use crate::names::*;
use crate::samples::regained;
use log_rows::{Head, TimeRefusal};
use node_ids::NodeId;
use op_model::Kind;
use parent_rows::NodeRow;
use pcg_base::NoMemory;
use row_words::Spot;
use std::prelude::HostRuntime;

#[test]
#[tactic(auto, using(crate::proofs::KindFacts::regained_sample))]
fn records_are_found(rt: HostRuntime) -> Result<(), NoMemory> {
    let mut w = regained(rt.alloc())?;
    assert!(rt; places_of(&mut w, S) == (Some(Spot(4)), None, Some(Spot(4))));
    assert!(rt; places_of(&mut w, RIGHT_7) == (Some(Spot(59)), None, None));
    assert!(rt; places_of(&mut w, RIGHT_0) == (None, Some(Spot(6)), None));
    assert!(rt; places_of(&mut w, S + 1) == (None, None, None));
    assert!(rt; chunk_row(&mut w, 6) == Some((Some(Spot(12)), Some(Spot(68)))));
    assert!(rt; edge_of(&mut w, P, S) == Some(Spot(45)));
    assert!(rt; edge_of(&mut w, P, R).is_none());
    assert!(rt; edge_at(&mut w, 3) == Some(Spot(10)));
    Ok(())
}

/// What the record of the root that the first merge made tells.
fn merged_root() -> NodeRow {
    NodeRow {
        id: NodeId(TOP_3),
        least: NodeId(P),
        made: 1,
    }
}

#[test]
#[tactic(auto, using(crate::proofs::KindFacts::regained_sample))]
fn nodes_are_told(rt: HostRuntime) -> Result<(), NoMemory> {
    let alloc = rt.alloc();
    let mut w = regained(alloc)?;
    assert!(rt; node_row(&mut w, 25, 2) == Some((merged_root(), Some(Spot(36)), None)));
    assert!(rt; node_row(&mut w, 25, 3) == Some((merged_root(), Some(Spot(36)), Some(2))));
    let found = lists_at(alloc, &mut w, 48)?;
    assert!(rt; are_lists(&found, &[LEFT_2, RIGHT_4, RIGHT_6], &[P, Q, R, S]));
    assert!(rt; links_at(&mut w, 34, 2) == Some((None, Some(Spot(53)))));
    assert!(rt; has_parents(&mut w, 4, 71, &[13, 24, 35, 47, 59, 68]));
    assert!(rt; has_parents_by_hints(&mut w, 4, 71, &[13, 24, 35, 47, 59, 68]));
    assert!(rt; has_parents_by_links(&mut w, 4, 71, &[13, 24, 35, 47, 59, 68]));
    assert!(rt;
        has_paths(
            &mut w,
            4,
            &[
                (RIGHT_2, TOP_2),
                (RIGHT_3, TOP_3),
                (RIGHT_5, TOP_5),
                (RIGHT_6, TOP_6),
                (RIGHT_7, TOP_7),
                (RIGHT_9, TOP_8),
            ],
        )
    );
    Ok(())
}

#[test]
#[tactic(auto, using(crate::proofs::KindFacts::regained_sample))]
fn edges_are_told(rt: HostRuntime) -> Result<(), NoMemory> {
    let alloc = rt.alloc();
    let mut w = regained(alloc)?;
    assert!(rt; has_states(&mut w, 10, 75, &[false, true, false, false, true, false]));
    assert!(rt; has_states(&mut w, 45, 57, &[false, false, false, true, true, true]));
    assert!(rt; change_row(&mut w, 65) == Some((change(R, S, true), None)));
    assert!(rt;
        has_edge_lists(
            alloc,
            &mut w,
            4,
            &[
                &[(R, S, 5, false)],
                &[(R, S, 5, true)],
                &[(R, S, 5, false)],
                &[(P, S, 1, true), (R, S, 5, false)],
                &[(P, S, 1, true), (R, S, 5, true)],
                &[(P, S, 1, true), (R, S, 5, false)],
            ],
        )?
    );
    Ok(())
}

#[test]
#[tactic(auto, using(crate::proofs::KindFacts::regained_sample))]
fn entries_are_told(rt: HostRuntime) -> Result<(), NoMemory> {
    let alloc = rt.alloc();
    let mut w = regained(alloc)?;
    let undo = Head {
        at: 1020,
        client: 1,
        line: 1,
        kind: Kind::Undo,
        names: 1,
    };
    assert!(rt; length_of(&mut w) == 6);
    assert!(rt; entry_row(&mut w, 2) == Some((undo, Spot(44), Some(Spot(43)), 2)));
    assert!(rt; entry_ahead(&mut w, 1) == Some((Some(Spot(44)), 5)));
    assert!(rt; entry_ahead(&mut w, 5) == Some((None, 5)));
    let found = entry_lists(alloc, &mut w, 1)?;
    assert!(rt; are_merge(&found));
    assert!(rt;
        has_times(
            &mut w,
            &[
                (999, Err(TimeRefusal::TooEarly { first: 1000 })),
                (1000, Ok(1)),
                (1019, Ok(2)),
                (1020, Ok(3)),
                (1050, Ok(6)),
                (1051, Err(TimeRefusal::Unpublished { latest: 1050 })),
            ],
        )
    );
    Ok(())
}
