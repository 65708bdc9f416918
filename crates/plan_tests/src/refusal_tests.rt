//! Merges that are refused, reads and operations that aren't there, and a component that is too large.

use crate::checks::{locks_and_refuses, plans, puts, refuses, refuses_reads};
use crate::samples::{
    EDGES, NONE, P, Q, R, S, SUPERVOXELS, TOP, clique_of, merge, redo, server_of, split, table_of,
    undo,
};
use node_ids::NodeId;
use op_model::Refusal;
use std::test::Fail;

// the root of the first pair whose ends lie in one, no pairs, and too many
#[test]
fn merges_are_refused(rt: HostRuntime) -> Result<(), Fail> {
    let alloc = rt.alloc();
    let Some(mut server) = server_of(alloc, 8, 2, SUPERVOXELS, EDGES)? else {
        panic!(rt; "a server");
    };
    let same = Refusal::SameRoot {
        root: NodeId(TOP + 1),
    };
    assert!(rt; refuses(&mut server, alloc, merge(alloc, &[(P, Q)])?, same));
    assert!(rt; refuses(&mut server, alloc, merge(alloc, &[(P, P)])?, same));
    assert!(rt; refuses(&mut server, alloc, merge(alloc, &[(R, S), (P, Q)])?, same));
    assert!(rt; refuses(&mut server, alloc, merge(alloc, &[])?, Refusal::NoPairs));
    let many = Refusal::TooManyPairs { count: 65 };
    assert!(rt; refuses(&mut server, alloc, merge(alloc, &[(R, S); 65])?, many));
    let on = [(P, S, true), (R, S, true)];
    assert!(rt;
        plans(
            &mut server,
            alloc,
            merge(alloc, &[(S, R), (P, S), (R, S)])?,
            6,
            &on
        )
    );
    Ok(())
}

// operations that aren't there or are no edits, and those that are in force or not
#[test]
fn turns_are_refused(rt: HostRuntime) -> Result<(), Fail> {
    let alloc = rt.alloc();
    let Some(mut server) = server_of(alloc, 8, 2, SUPERVOXELS, EDGES)? else {
        panic!(rt; "a server");
    };
    assert!(rt; refuses(&mut server, alloc, undo(9), Refusal::NoSuchOp { op: 9 }));
    assert!(rt; refuses(&mut server, alloc, undo(0), Refusal::NotAnEdit { op: 0 }));
    let roots = [TOP + 1, TOP + 2];
    assert!(rt;
        puts(
            &mut server,
            alloc,
            merge(alloc, &[(R, S)])?,
            1,
            &roots,
            &[TOP + 3]
        )
    );
    assert!(rt; refuses(&mut server, alloc, redo(1), Refusal::InForce { op: 1 }));
    assert!(rt;
        puts(
            &mut server,
            alloc,
            undo(1),
            2,
            &[TOP + 3],
            &[TOP + 4, TOP + 5]
        )
    );
    assert!(rt; refuses(&mut server, alloc, undo(1), Refusal::NotInForce { op: 1 }));
    assert!(rt; refuses(&mut server, alloc, redo(2), Refusal::NotAnEdit { op: 2 }));
    Ok(())
}

// ids that can't be a root's, that no entry made, and times outside the log
#[test]
fn reads_are_refused(rt: HostRuntime) -> Result<(), Fail> {
    let alloc = rt.alloc();
    let Some(mut server) = server_of(alloc, 8, 2, SUPERVOXELS, EDGES)? else {
        panic!(rt; "a server");
    };
    let no_root = Refusal::NotARoot { id: NodeId(P) };
    assert!(rt; refuses_reads(&mut server, alloc, P, None, no_root));
    let unmade = Refusal::NoSuchRoot { id: NodeId(NONE) };
    assert!(rt; refuses_reads(&mut server, alloc, NONE, None, unmade));
    let early = Refusal::TooEarly { first: 1000 };
    assert!(rt; refuses_reads(&mut server, alloc, TOP + 1, Some(999), early));
    let late = Refusal::Unpublished { latest: 1000 };
    assert!(rt; refuses_reads(&mut server, alloc, TOP + 1, Some(1001), late));
    Ok(())
}

// 1,001 supervoxels with all 500,500 pairs
#[test]
fn a_component_that_is_too_large(rt: HostRuntime) -> Result<(), Fail> {
    let alloc = rt.alloc();
    let supervoxels = table_of(alloc, 1001)?;
    let edges = clique_of(alloc, 1001)?;
    let Some(mut server) = server_of(alloc, 8, 1, supervoxels.as_str(), edges.as_str())? else {
        panic!(rt; "a server");
    };
    let large = Refusal::TooLarge { edges: 500500 };
    let edit = split(alloc, &[P], &[P + 1])?;
    assert!(rt; locks_and_refuses(&mut server, alloc, edit, 2, large));
    Ok(())
}
