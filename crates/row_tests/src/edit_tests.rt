//! The locks and the plans of merges, undos and redos, on the words of three logs.

use crate::datasets::dataset;
use crate::edit_calls::{Wanted, merges, turns};
use crate::names::*;
use crate::samples::{halved, ingested, regained};
use node_ids::NodeId;
use op_model::Refusal;
use pcg_base::NoMemory;
use std::prelude::HostRuntime;

#[test]
#[tactic(auto, using(crate::proofs::KindFacts::ingested_sample))]
fn merges_are_planned(rt: HostRuntime) -> Result<(), NoMemory> {
    let alloc = rt.alloc();
    let mut w = ingested(alloc)?;
    let made = dataset(1, 8, (2, 1, 1), 1048576);
    assert!(rt; made.is_some());
    let d = made.unwrap();
    let joined = Wanted::Plan(6, &[(R, S, true)]);
    assert!(rt; merges(alloc, &mut w, &d, &[(S, R)], joined)?);
    let both = Wanted::Plan(6, &[(P, S, true), (R, S, true)]);
    assert!(rt; merges(alloc, &mut w, &d, &[(S, R), (P, S), (R, S)], both)?);
    Ok(())
}

#[test]
#[tactic(auto, using(crate::proofs::KindFacts::ingested_sample))]
fn merges_are_refused(rt: HostRuntime) -> Result<(), NoMemory> {
    let alloc = rt.alloc();
    let mut w = ingested(alloc)?;
    let made = dataset(1, 8, (2, 1, 1), 1048576);
    assert!(rt; made.is_some());
    let d = made.unwrap();
    let one = Refusal::SameRoot {
        root: NodeId(TOP_1),
    };
    assert!(rt; merges(alloc, &mut w, &d, &[(P, Q)], Wanted::Refused(&one))?);
    assert!(rt; merges(alloc, &mut w, &d, &[(R, S), (P, P)], Wanted::Refused(&one))?);
    let unknown = Refusal::NoSuchSupervoxel { id: NodeId(5) };
    assert!(rt;
        merges(
            alloc,
            &mut w,
            &d,
            &[(P, Q), (P, 5), (6, S)],
            Wanted::Refused(&unknown)
        )?
    );
    assert!(rt; merges(alloc, &mut w, &d, &[], Wanted::Refused(&Refusal::NoPairs))?);
    let many = Refusal::TooManyPairs { count: 65 };
    assert!(rt; merges(alloc, &mut w, &d, &[(P, P); 65], Wanted::Refused(&many))?);
    Ok(())
}

#[test]
#[tactic(auto, using(crate::proofs::KindFacts::halved_sample))]
fn turns_behind_a_split(rt: HostRuntime) -> Result<(), NoMemory> {
    let alloc = rt.alloc();
    let mut w = halved(alloc)?;
    let made = dataset(1, 8, (2, 1, 1), 1048576);
    assert!(rt; made.is_some());
    let d = made.unwrap();
    let by = Refusal::Overtaken { by: 2 };
    assert!(rt; turns(alloc, &mut w, &d, true, 1, Wanted::Refused(&by)));
    let done = Refusal::InForce { op: 2 };
    assert!(rt; turns(alloc, &mut w, &d, false, 2, Wanted::Refused(&done)));
    let undone = Wanted::Plan(48, &[(R, S, true)]);
    assert!(rt; turns(alloc, &mut w, &d, true, 2, undone));
    Ok(())
}

#[test]
#[tactic(auto, using(crate::proofs::KindFacts::regained_sample))]
fn turns_behind_turns(rt: HostRuntime) -> Result<(), NoMemory> {
    let alloc = rt.alloc();
    let mut w = regained(alloc)?;
    let made = dataset(1, 8, (2, 1, 1), 1048576);
    assert!(rt; made.is_some());
    let d = made.unwrap();
    let none = Refusal::NoSuchOp { op: 9 };
    assert!(rt; turns(alloc, &mut w, &d, true, 9, Wanted::Refused(&none)));
    let ingest = Refusal::NotAnEdit { op: 0 };
    assert!(rt; turns(alloc, &mut w, &d, true, 0, Wanted::Refused(&ingest)));
    let turn = Refusal::NotAnEdit { op: 4 };
    assert!(rt; turns(alloc, &mut w, &d, false, 4, Wanted::Refused(&turn)));
    let undone = Refusal::NotInForce { op: 1 };
    assert!(rt; turns(alloc, &mut w, &d, true, 1, Wanted::Refused(&undone)));
    let again = Wanted::Plan(256, &[(R, S, true)]);
    assert!(rt; turns(alloc, &mut w, &d, false, 1, again));
    let apart = Wanted::Plan(256, &[(P, S, false)]);
    assert!(rt; turns(alloc, &mut w, &d, true, 3, apart));
    Ok(())
}
