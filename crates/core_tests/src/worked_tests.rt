//! Worked rows: exact replies in the order in which they are put, and exact steps.

use crate::cores::{Session, alone};
use crate::playing::gives;
use std::test::Fail;

/// The usual supervoxels, and t in the second base chunk.
const FIVE: &str =
    "supervoxel\n72057594037927937\n72057594037927938\n72339069014638593\n72339069014638594\n72339069014638595\n";

const MERGE: &str = "{\"do\":\"merge\",\"a\":\"`r`\",\"b\":\"`s`\"}";

/// A merge and its reads, a split with its cut and flow, an undo that was overtaken, changes, and an
/// undo and a redo of the split.
#[test]
fn edits_of_one_client(rt: HostRuntime) -> Result<(), Fail> {
    let session = alone(concat!(
        "{\"do\":\"merge\",\"a\":\"`r`\",\"b\":\"`s`\"}\n",
        "{\"do\":\"root\",\"sv\":\"`s`\",\"at\":1000}\n",
        "{\"do\":\"path\",\"sv\":\"`r`\"}\n",
        "{\"do\":\"split\",\"sources\":[\"`p`\"],\"sinks\":[\"`s`\"]}\n",
        "{\"do\":\"path\",\"sv\":\"`p`\"}\n",
        "{\"do\":\"path\",\"sv\":\"`s`\"}\n",
        "{\"do\":\"leaves\",\"root\":\"`812`\"}\n",
        "{\"do\":\"undo\",\"op\":1}\n",
        "{\"do\":\"changes\",\"root\":\"`812`\"}\n",
        "{\"do\":\"changes\",\"root\":\"`811`\",\"at\":1010}\n",
        "{\"do\":\"undo\",\"op\":2}\n",
        "{\"do\":\"redo\",\"op\":2}\n",
        "{\"do\":\"leaves\",\"root\":\"`815`\"}\n",
        "{\"do\":\"leaves\",\"root\":\"`816`\"}\n",
    ));
    let replies = concat!(
        "1 {\"at\":1010,\"made\":[\"`811`\"],\"ok\":true,\"op\":1,\"retired\":[\"`809`\",\"`810`\"],\"seen\":2}\n",
        "1 {\"ok\":true,\"root\":\"`810`\",\"seen\":2}\n",
        "1 {\"ok\":true,\"path\":[\"144396663052566531\",\"`811`\"],\"seen\":2}\n",
        "1 {\"at\":1020,\"cut\":[[\"`r`\",\"`s`\"]],\"flow\":[[\"`p`\",\"`q`\",5],[\"`q`\",\"`r`\",5],[\"`r`\",\"`s`\",5]],\"made\":[\"`812`\",\"`813`\"],\"ok\":true,\"op\":2,\"retired\":[\"`811`\"],\"seen\":3,\"total\":5}\n",
        "1 {\"ok\":true,\"path\":[\"144115188075855873\",\"`812`\"],\"seen\":3}\n",
        "1 {\"ok\":true,\"path\":[\"144396663052566533\",\"`813`\"],\"seen\":3}\n",
        "1 {\"leaves\":[\"`p`\",\"`q`\",\"`r`\"],\"ok\":true,\"seen\":3}\n",
        "1 {\"by\":2,\"ok\":false,\"refusal\":\"Overtaken\",\"seen\":3}\n",
        "1 {\"changes\":[{\"at\":1000,\"do\":\"ingest\",\"op\":0},{\"at\":1010,\"do\":\"merge\",\"op\":1},{\"at\":1020,\"do\":\"split\",\"op\":2}],\"ok\":true,\"seen\":3}\n",
        "1 {\"changes\":[{\"at\":1000,\"do\":\"ingest\",\"op\":0},{\"at\":1010,\"do\":\"merge\",\"op\":1}],\"ok\":true,\"seen\":3}\n",
        "1 {\"at\":1030,\"made\":[\"`814`\"],\"ok\":true,\"op\":3,\"retired\":[\"`812`\",\"`813`\"],\"seen\":4}\n",
        "1 {\"at\":1040,\"made\":[\"`815`\",\"`816`\"],\"ok\":true,\"op\":4,\"retired\":[\"`814`\"],\"seen\":5}\n",
        "1 {\"leaves\":[\"`p`\",\"`q`\",\"`r`\"],\"ok\":true,\"seen\":5}\n",
        "1 {\"leaves\":[\"`s`\"],\"ok\":true,\"seen\":5}\n",
    );
    assert!(rt; gives(rt.alloc(), &session, "", replies)?);
    Ok(())
}

/// Of the least cuts of a walk of four the one nearest the source is taken.
#[test]
fn a_walk_is_cut_at_its_source(rt: HostRuntime) -> Result<(), Fail> {
    let session = Session {
        wide: 1,
        supervoxels: "supervoxel\n72057594037927937\n72057594037927938\n72057594037927939\n72057594037927940\n",
        edges: "a,b,affinity,active\n72057594037927937,72057594037927938,5,1\n72057594037927938,72057594037927939,5,1\n72057594037927939,72057594037927940,5,1\n",
        ..alone(concat!(
            "{\"do\":\"split\",\"sources\":[\"`p`\"],\"sinks\":[\"72057594037927940\"]}\n",
            "{\"do\":\"root\",\"sv\":\"`p`\"}\n",
            "{\"do\":\"root\",\"sv\":\"`q`\"}\n",
        ))
    };
    let replies = concat!(
        "1 {\"at\":1010,\"cut\":[[\"`p`\",\"`q`\"]],\"flow\":[[\"`p`\",\"`q`\",5],[\"`q`\",\"72057594037927939\",5],[\"72057594037927939\",\"72057594037927940\",5]],\"made\":[\"144115188075855874\",\"144115188075855875\"],\"ok\":true,\"op\":1,\"retired\":[\"144115188075855873\"],\"seen\":2,\"total\":5}\n",
        "1 {\"ok\":true,\"root\":\"144115188075855874\",\"seen\":2}\n",
        "1 {\"ok\":true,\"root\":\"144115188075855875\",\"seen\":2}\n",
    );
    assert!(rt; gives(rt.alloc(), &session, "", replies)?);
    Ok(())
}

/// The last undo leaves r and s joined through p.
#[test]
fn undone_and_joined_otherwise(rt: HostRuntime) -> Result<(), Fail> {
    let session = alone(concat!(
        "{\"do\":\"merge\",\"a\":\"`r`\",\"b\":\"`s`\"}\n",
        "{\"do\":\"undo\",\"op\":1}\n",
        "{\"do\":\"merge\",\"a\":\"`p`\",\"b\":\"`s`\"}\n",
        "{\"do\":\"redo\",\"op\":1}\n",
        "{\"do\":\"undo\",\"op\":1}\n",
        "{\"do\":\"leaves\",\"root\":\"`816`\"}\n",
    ));
    let replies = concat!(
        "1 {\"at\":1010,\"made\":[\"`811`\"],\"ok\":true,\"op\":1,\"retired\":[\"`809`\",\"`810`\"],\"seen\":2}\n",
        "1 {\"at\":1020,\"made\":[\"`812`\",\"`813`\"],\"ok\":true,\"op\":2,\"retired\":[\"`811`\"],\"seen\":3}\n",
        "1 {\"at\":1030,\"made\":[\"`814`\"],\"ok\":true,\"op\":3,\"retired\":[\"`812`\",\"`813`\"],\"seen\":4}\n",
        "1 {\"at\":1040,\"made\":[\"`815`\"],\"ok\":true,\"op\":4,\"retired\":[\"`814`\"],\"seen\":5}\n",
        "1 {\"at\":1050,\"made\":[\"`816`\"],\"ok\":true,\"op\":5,\"retired\":[\"`815`\"],\"seen\":6}\n",
        "1 {\"leaves\":[\"`p`\",\"`q`\",\"`r`\",\"`s`\"],\"ok\":true,\"seen\":6}\n",
    );
    assert!(rt; gives(rt.alloc(), &session, "", replies)?);
    Ok(())
}

/// A merge of three pairs, of which two are the same, and its undo.
#[test]
fn a_merge_of_pairs(rt: HostRuntime) -> Result<(), Fail> {
    let session = Session {
        supervoxels: FIVE,
        ..alone(concat!(
            "{\"do\":\"merge\",\"pairs\":[[\"`r`\",\"`s`\"],[\"`p`\",\"`t`\"],[\"`s`\",\"`r`\"]]}\n",
            "{\"do\":\"path\",\"sv\":\"`t`\"}\n",
            "{\"do\":\"undo\",\"op\":1}\n",
            "{\"do\":\"leaves\",\"root\":\"`813`\"}\n",
            "{\"do\":\"leaves\",\"root\":\"`814`\"}\n",
            "{\"do\":\"leaves\",\"root\":\"`815`\"}\n",
        ))
    };
    let replies = concat!(
        "1 {\"at\":1010,\"made\":[\"`812`\"],\"ok\":true,\"op\":1,\"retired\":[\"`809`\",\"`810`\",\"`811`\"],\"seen\":2}\n",
        "1 {\"ok\":true,\"path\":[\"144396663052566533\",\"`812`\"],\"seen\":2}\n",
        "1 {\"at\":1020,\"made\":[\"`813`\",\"`814`\",\"`815`\"],\"ok\":true,\"op\":2,\"retired\":[\"`812`\"],\"seen\":3}\n",
        "1 {\"leaves\":[\"`p`\",\"`q`\",\"`r`\"],\"ok\":true,\"seen\":3}\n",
        "1 {\"leaves\":[\"`s`\"],\"ok\":true,\"seen\":3}\n",
        "1 {\"leaves\":[\"`t`\"],\"ok\":true,\"seen\":3}\n",
    );
    assert!(rt; gives(rt.alloc(), &session, "", replies)?);
    Ok(())
}

/// Without a schedule client 1 goes first, and client 2 finds the roots merged.
#[test]
fn two_clients_merge_the_same(rt: HostRuntime) -> Result<(), Fail> {
    let session = Session {
        lines: [MERGE, MERGE, ""],
        ..alone("")
    };
    let replies = concat!(
        "1 {\"at\":1010,\"made\":[\"`811`\"],\"ok\":true,\"op\":1,\"retired\":[\"`809`\",\"`810`\"],\"seen\":2}\n",
        "2 {\"ok\":false,\"refusal\":\"SameRoot\",\"root\":\"`811`\",\"seen\":2}\n",
    );
    assert!(rt; gives(rt.alloc(), &session, "", replies)?);
    Ok(())
}

/// Client 2 looks first and is blocked at lock 1; client 1 is logged first. Client 2 finds at its pin
/// that its roots have gone, gives its locks back and begins again, and is logged second. Client 3
/// reads in between. The schedule has each step.
#[test]
fn a_schedule_used_up(rt: HostRuntime) -> Result<(), Fail> {
    let session = Session {
        supervoxels: FIVE,
        schedule: &[
            2, 1, 1, 1, 1, 1, 1, 1, 3, 3, 2, 1, 3, 3, 1, 1, 1, 1, 2, 2, 2, 2, 2, 2, 2, 2, 2, 2, 3,
            3, 2, 2, 2, 3, 3, 2, 2, 2, 2,
        ],
        lines: [
            MERGE,
            "{\"do\":\"merge\",\"a\":\"`p`\",\"b\":\"`t`\"}",
            "{\"do\":\"root\",\"sv\":\"`p`\"}\n{\"do\":\"root\",\"sv\":\"`p`\"}\n{\"do\":\"root\",\"sv\":\"`p`\"}\n{\"do\":\"root\",\"sv\":\"`p`\"}",
        ],
        ..alone("")
    };
    let replies = concat!(
        "3 {\"ok\":true,\"root\":\"`809`\",\"seen\":1}\n",
        "3 {\"ok\":true,\"root\":\"`812`\",\"seen\":2}\n",
        "1 {\"at\":1010,\"made\":[\"`812`\"],\"ok\":true,\"op\":1,\"retired\":[\"`809`\",\"`810`\"],\"seen\":2}\n",
        "3 {\"ok\":true,\"root\":\"`812`\",\"seen\":2}\n",
        "3 {\"ok\":true,\"root\":\"`813`\",\"seen\":3}\n",
        "2 {\"at\":1020,\"made\":[\"`813`\"],\"ok\":true,\"op\":2,\"retired\":[\"`811`\",\"`812`\"],\"seen\":3}\n",
    );
    assert!(rt;
        gives(
            rt.alloc(),
            &session,
            "2Look 1Look 1Lock 1Lock 1Pin 1Plan 1Turn 1Check 3Look 3Reply 2Blocked1 1Commit 3Look 3Reply 1Yield 1Release 1Release 1Reply 2Lock 2Lock 2Pin 2Release 2Release 2Look 2Lock 2Lock 2Pin 2Plan 3Look 3Reply 2Turn 2Check 2Commit 3Look 3Reply 2Yield 2Release 2Release 2Reply ",
            replies
        )?
    );
    Ok(())
}

/// The third reply of client 1 isn't written: its lines end there, its edit stays, and client 2 goes
/// on.
#[test]
fn a_reply_that_is_not_written(rt: HostRuntime) -> Result<(), Fail> {
    let session = Session {
        lines: [
            concat!(
                "{\"do\":\"merge\",\"a\":\"`r`\",\"b\":\"`s`\"}\n",
                "{\"do\":\"root\",\"sv\":\"`p`\"}\n",
                "{\"do\":\"root\",\"sv\":\"`p`\"}\n",
                "{\"do\":\"root\",\"sv\":\"`p`\"}\n",
            ),
            "{\"do\":\"root\",\"sv\":\"`s`\"}",
            "",
        ],
        fails: &[5],
        schedule: &[
            1, 1, 1, 1, 1, 1, 1, 1, 1, 1, 1, 1, 1, 1, 1, 1, 1, 2, 2, 2, 3,
        ],
        ..alone("")
    };
    let replies = concat!(
        "1 {\"at\":1010,\"made\":[\"`811`\"],\"ok\":true,\"op\":1,\"retired\":[\"`809`\",\"`810`\"],\"seen\":2}\n",
        "1 {\"ok\":true,\"root\":\"`811`\",\"seen\":2}\n",
        "2 {\"ok\":true,\"root\":\"`811`\",\"seen\":2}\n",
    );
    assert!(rt;
        gives(
            rt.alloc(),
            &session,
            "1Look 1Lock 1Lock 1Pin 1Plan 1Turn 1Check 1Commit 1Yield 1Release 1Release 1Reply 1Look 1Reply 1Look 1Fault 1Ended 2Look 2Reply 2Ended 3Ended ",
            replies
        )?
    );
    Ok(())
}
