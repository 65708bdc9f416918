//! Worked merges, undos and redos, the changes of roots, and ids that are spent.

use crate::checks::{has_changes, has_leaves, plans, puts, refuses, refuses_put, summary};
use crate::samples::{
    EDGES, P, Q, R, S, SUPERVOXELS, TOP, merge, redo, server_of, split, table_of, undo, walk_of,
};
use bench_servers::Server;
use op_model::{Kind, Refusal};
use std::alloc::{AllocError, Global};
use std::test::Fail;

// r and s merged, and p split from s
fn put_both(server: &mut Server, alloc: Global) -> Result<bool, AllocError> {
    let roots = [TOP + 1, TOP + 2];
    let merged = puts(
        server,
        alloc,
        merge(alloc, &[(R, S)])?,
        1,
        &roots,
        &[TOP + 3],
    );
    let made = [TOP + 4, TOP + 5];
    let edit = split(alloc, &[P], &[S])?;
    Ok(merged && puts(server, alloc, edit, 2, &[TOP + 3], &made))
}

// a merge whose pair the split took over, and the split undone and done again
#[test]
fn a_split_is_turned(rt: HostRuntime) -> Result<(), Fail> {
    let alloc = rt.alloc();
    let Some(mut server) = server_of(alloc, 8, 2, SUPERVOXELS, EDGES)? else {
        panic!(rt; "a server");
    };
    assert!(rt; put_both(&mut server, alloc)?);
    assert!(rt; refuses(&mut server, alloc, undo(1), Refusal::Overtaken { by: 2 }));
    assert!(rt; plans(&mut server, alloc, undo(2), 48, &[(R, S, true)]));
    assert!(rt;
        puts(
            &mut server,
            alloc,
            undo(2),
            3,
            &[TOP + 4, TOP + 5],
            &[TOP + 6]
        )
    );
    assert!(rt; plans(&mut server, alloc, redo(2), 64, &[(R, S, false)]));
    assert!(rt;
        puts(
            &mut server,
            alloc,
            redo(2),
            4,
            &[TOP + 6],
            &[TOP + 7, TOP + 8]
        )
    );
    assert!(rt; has_leaves(&mut server, alloc, TOP + 7, &[P, Q, R]));
    assert!(rt; has_leaves(&mut server, alloc, TOP + 8, &[S]));
    Ok(())
}

// the entries of a root and of those that it came from, now and at a time
#[test]
fn changes_are_told(rt: HostRuntime) -> Result<(), Fail> {
    let alloc = rt.alloc();
    let Some(mut server) = server_of(alloc, 8, 2, SUPERVOXELS, EDGES)? else {
        panic!(rt; "a server");
    };
    assert!(rt; put_both(&mut server, alloc)?);
    let all = [
        summary(0, 1000, Kind::Ingest),
        summary(1, 1010, Kind::Merge),
        summary(2, 1020, Kind::Split),
    ];
    assert!(rt; has_changes(&mut server, alloc, TOP + 4, None, &all));
    assert!(rt; has_changes(&mut server, alloc, TOP + 3, Some(1010), &all[..2]));
    assert!(rt; has_changes(&mut server, alloc, TOP + 1, Some(1000), &all[..1]));
    Ok(())
}

// the last undo leaves r and s joined through p
#[test]
fn undone_and_joined_otherwise(rt: HostRuntime) -> Result<(), Fail> {
    let alloc = rt.alloc();
    let Some(mut server) = server_of(alloc, 8, 2, SUPERVOXELS, EDGES)? else {
        panic!(rt; "a server");
    };
    let roots = [TOP + 1, TOP + 2];
    assert!(rt;
        puts(
            &mut server,
            alloc,
            merge(alloc, &[(R, S)])?,
            1,
            &roots,
            &[TOP + 3]
        )
    );
    assert!(rt;
        puts(
            &mut server,
            alloc,
            undo(1),
            2,
            &[TOP + 3],
            &[TOP + 4, TOP + 5]
        )
    );
    let roots = [TOP + 4, TOP + 5];
    assert!(rt;
        puts(
            &mut server,
            alloc,
            merge(alloc, &[(P, S)])?,
            3,
            &roots,
            &[TOP + 6]
        )
    );
    assert!(rt; puts(&mut server, alloc, redo(1), 4, &[TOP + 6], &[TOP + 7]));
    assert!(rt; plans(&mut server, alloc, undo(1), 128, &[(R, S, false)]));
    assert!(rt; puts(&mut server, alloc, undo(1), 5, &[TOP + 7], &[TOP + 8]));
    assert!(rt; has_leaves(&mut server, alloc, TOP + 8, &[P, Q, R, S]));
    Ok(())
}

// one split that is undone and done again until its chunk's 255 numbers are used
#[test]
fn ids_are_spent(rt: HostRuntime) -> Result<(), Fail> {
    let alloc = rt.alloc();
    let supervoxels = table_of(alloc, 2)?;
    let edges = walk_of(alloc, 2)?;
    let Some(mut server) = server_of(alloc, 16, 1, supervoxels.as_str(), edges.as_str())? else {
        panic!(rt; "a server");
    };
    let mut root: u64 = 144115188075855873;
    let mut op: u32 = 1;
    let edit = split(alloc, &[P], &[P + 1])?;
    assert!(rt; puts(&mut server, alloc, edit, op, &[root], &[root + 1, root + 2]));
    for _ in 0..84u32 {
        let one = root.wrapping_add(1);
        let two = root.wrapping_add(2);
        let next = root.wrapping_add(3);
        op = op.wrapping_add(1);
        assert!(rt; puts(&mut server, alloc, undo(1), op, &[one, two], &[next]));
        op = op.wrapping_add(1);
        let halves = [next.wrapping_add(1), next.wrapping_add(2)];
        assert!(rt; puts(&mut server, alloc, redo(1), op, &[next], &halves));
        root = next;
    }
    assert!(rt;
        plans(
            &mut server,
            alloc,
            undo(1),
            13835058055282163712,
            &[(P, P + 1, true)]
        )
    );
    let spent = Refusal::IdsSpent {
        layer: 2,
        x: 0,
        y: 0,
        z: 0,
    };
    assert!(rt; refuses_put(&mut server, alloc, undo(1), spent));
    Ok(())
}
