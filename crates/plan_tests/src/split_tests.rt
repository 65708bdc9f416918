//! Worked splits.

use crate::checks::{Cut, has_leaves, locks_and_refuses, puts, refuses, splits};
use crate::samples::{
    EDGES, GLUED, P, Q, R, S, SUPERVOXELS, TOP, merge, server_of, split, table_of, walk_of,
};
use node_ids::NodeId;
use op_model::Refusal;
use std::test::Fail;

// the lightest pair of a walk is cut, and the flow goes along the walk
#[test]
fn a_walk_is_cut(rt: HostRuntime) -> Result<(), Fail> {
    let alloc = rt.alloc();
    let Some(mut server) = server_of(alloc, 8, 2, SUPERVOXELS, EDGES)? else {
        panic!(rt; "a server");
    };
    let roots = [TOP + 1, TOP + 2];
    assert!(rt;
        puts(
            &mut server,
            alloc,
            merge(alloc, &[(R, S)])?,
            1,
            &roots,
            &[TOP + 3]
        )
    );
    let wanted = Cut {
        pairs: &[(R, S)],
        total: 5,
        flow: &[(P, Q, 5), (Q, R, 5), (R, S, 5)],
    };
    let edit = split(alloc, &[P], &[S])?;
    assert!(rt; splits(&mut server, alloc, edit, P, S, 8, wanted)?);
    let made = [TOP + 4, TOP + 5];
    assert!(rt;
        puts(
            &mut server,
            alloc,
            split(alloc, &[P], &[S])?,
            2,
            &[TOP + 3],
            &made
        )
    );
    assert!(rt; has_leaves(&mut server, alloc, TOP + 4, &[P, Q, R]));
    assert!(rt; has_leaves(&mut server, alloc, TOP + 5, &[S]));
    Ok(())
}

// of equal cuts the one nearest the source, from either end
#[test]
fn the_nearest_cut(rt: HostRuntime) -> Result<(), Fail> {
    let alloc = rt.alloc();
    let supervoxels = table_of(alloc, 4)?;
    let edges = walk_of(alloc, 4)?;
    let Some(mut server) = server_of(alloc, 8, 1, supervoxels.as_str(), edges.as_str())? else {
        panic!(rt; "a server");
    };
    let forth = Cut {
        pairs: &[(P, P + 1)],
        total: 5,
        flow: &[(P, P + 1, 5), (P + 1, P + 2, 5), (P + 2, P + 3, 5)],
    };
    let edit = split(alloc, &[P], &[P + 3])?;
    assert!(rt; splits(&mut server, alloc, edit, P, P + 3, 2, forth)?);
    let back = Cut {
        pairs: &[(P + 2, P + 3)],
        total: 5,
        flow: &[(P + 1, P, 5), (P + 2, P + 1, 5), (P + 3, P + 2, 5)],
    };
    let edit = split(alloc, &[P + 3], &[P])?;
    assert!(rt; splits(&mut server, alloc, edit, P + 3, P, 2, back)?);
    let root: u64 = 144115188075855873;
    let edit = split(alloc, &[P], &[P + 3])?;
    assert!(rt; puts(&mut server, alloc, edit, 1, &[root], &[root + 1, root + 2]));
    assert!(rt; has_leaves(&mut server, alloc, root + 1, &[P]));
    Ok(())
}

// the first source that glue joins to a sink is named, and glue carries what it must
#[test]
fn glue_is_never_cut(rt: HostRuntime) -> Result<(), Fail> {
    let alloc = rt.alloc();
    let Some(mut server) = server_of(alloc, 8, 2, SUPERVOXELS, GLUED)? else {
        panic!(rt; "a server");
    };
    let glued = Refusal::Glued {
        source: NodeId(P),
        sink: NodeId(Q),
    };
    let edit = split(alloc, &[R, P], &[Q])?;
    assert!(rt; locks_and_refuses(&mut server, alloc, edit, 2, glued));
    let wanted = Cut {
        pairs: &[(Q, R)],
        total: 7,
        flow: &[(P, Q, 7), (Q, R, 7)],
    };
    let edit = split(alloc, &[P], &[R])?;
    assert!(rt; splits(&mut server, alloc, edit, P, R, 2, wanted)?);
    Ok(())
}

// an id that is unknown, lists that are too long or empty, a mark on both sides, and two roots
#[test]
fn splits_are_refused(rt: HostRuntime) -> Result<(), Fail> {
    let alloc = rt.alloc();
    let Some(mut server) = server_of(alloc, 8, 2, SUPERVOXELS, EDGES)? else {
        panic!(rt; "a server");
    };
    let both = Refusal::BothSides { id: NodeId(P) };
    assert!(rt; refuses(&mut server, alloc, split(alloc, &[P], &[P])?, both));
    let unknown = Refusal::NoSuchSupervoxel { id: NodeId(5) };
    assert!(rt; refuses(&mut server, alloc, split(alloc, &[P], &[P, 5])?, unknown));
    let apart = Refusal::DifferentRoots {
        first: NodeId(TOP + 1),
        other: NodeId(TOP + 2),
    };
    assert!(rt; refuses(&mut server, alloc, split(alloc, &[P], &[S])?, apart));
    let many = Refusal::TooManyMarks { count: 65 };
    assert!(rt; refuses(&mut server, alloc, split(alloc, &[P; 65], &[Q])?, many));
    assert!(rt;
        refuses(
            &mut server,
            alloc,
            split(alloc, &[P], &[])?,
            Refusal::NoMarks
        )
    );
    Ok(())
}
