//! Whole replies of the sample.

use crate::names::*;
use crate::reads::{
    has_changes, has_leaves, has_path, has_root, leaves_are_refused, root_is_refused,
};
use crate::samples::regained;
use node_ids::NodeId;
use op_model::{Kind, PathIds, Refusal, Summary};
use pcg_base::NoMemory;
use std::prelude::HostRuntime;

fn summary(op: u32, at: u64, kind: Kind) -> Summary {
    Summary { op, at, kind }
}

#[test]
#[tactic(auto, using(crate::proofs::Images::regained_tells))]
fn reads_are_answered(rt: HostRuntime) -> Result<(), NoMemory> {
    let alloc = rt.alloc();
    let mut w = regained(alloc)?;
    assert!(rt; has_root(alloc, &mut w, NodeId(S), Some(1000), NodeId(TOP_2), 6));
    assert!(rt; has_root(alloc, &mut w, NodeId(S), None, NodeId(TOP_8), 6));
    let mut path = PathIds {
        count: 2,
        nodes: [NodeId(0); 17],
    };
    path.nodes[0] = NodeId(RIGHT_4);
    path.nodes[1] = NodeId(TOP_6);
    assert!(rt; has_path(alloc, &mut w, NodeId(R), Some(1030), &path, 6));
    let three = [NodeId(P), NodeId(Q), NodeId(R)];
    assert!(rt; has_leaves(alloc, &mut w, NodeId(TOP_4), None, &three, 6)?);
    Ok(())
}

#[test]
#[tactic(auto, using(crate::proofs::Images::regained_holds))]
fn changes_are_told(rt: HostRuntime) -> Result<(), NoMemory> {
    let alloc = rt.alloc();
    let mut w = regained(alloc)?;
    let two = [
        summary(0, 1000, Kind::Ingest),
        summary(1, 1010, Kind::Merge),
    ];
    assert!(rt; has_changes(alloc, &mut w, NodeId(TOP_3), Some(1010), &two, 6)?);
    let three = [
        summary(0, 1000, Kind::Ingest),
        summary(1, 1010, Kind::Merge),
        summary(2, 1020, Kind::Undo),
    ];
    assert!(rt; has_changes(alloc, &mut w, NodeId(TOP_4), Some(1020), &three, 6)?);
    Ok(())
}

#[test]
#[tactic(auto, using(crate::proofs::Images::regained_tells))]
fn reads_are_refused(rt: HostRuntime) -> Result<(), NoMemory> {
    let alloc = rt.alloc();
    let mut w = regained(alloc)?;
    let early = Refusal::TooEarly { first: 1000 };
    assert!(rt; root_is_refused(alloc, &mut w, NodeId(5), Some(999), &early, 6));
    let late = Refusal::Unpublished { latest: 1050 };
    assert!(rt; root_is_refused(alloc, &mut w, NodeId(P), Some(1051), &late, 6));
    let unknown = Refusal::NoSuchSupervoxel { id: NodeId(5) };
    assert!(rt; root_is_refused(alloc, &mut w, NodeId(5), None, &unknown, 6));
    let no_number = Refusal::NotARoot { id: NodeId(TOP_0) };
    assert!(rt; leaves_are_refused(alloc, &mut w, NodeId(TOP_0), None, &no_number, 6));
    let later = Refusal::NoSuchRoot { id: NodeId(TOP_4) };
    assert!(rt; leaves_are_refused(alloc, &mut w, NodeId(TOP_4), Some(1010), &later, 6));
    Ok(())
}
