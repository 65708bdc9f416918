//! Worked sessions of clients that edit.

use crate::sessions::{
    EDGES, Fault, INGEST, MERGED, Outside, SUPERVOXELS, Session, TWO, alone, runs, runs_with,
};
use std::alloc::Global;
use std::test::Fail;

/// A merge, reads of now and of a time, a split with its cut and flow, an undo that was overtaken,
/// an undo and a redo of the split, and the changes and the leaves of roots.
#[test]
fn one_client_edits(rt: HostRuntime) -> Result<(), Fail> {
    let session = Session {
        log: concat!(
            "{\"at\":1010,\"changed\":[[\"`r`\",\"`s`\",true]],\"client\":1,\"line\":1,\"made\":[\"`811`\"],\"op\":1,\"request\":{\"a\":\"`r`\",\"b\":\"`s`\",\"do\":\"merge\"},\"retired\":[\"`809`\",\"`810`\"]}\n",
            "{\"at\":1020,\"changed\":[[\"`r`\",\"`s`\",false]],\"client\":1,\"line\":4,\"made\":[\"`812`\",\"`813`\"],\"op\":2,\"request\":{\"do\":\"split\",\"sinks\":[\"`s`\"],\"sources\":[\"`p`\"]},\"retired\":[\"`811`\"]}\n",
            "{\"at\":1030,\"changed\":[[\"`r`\",\"`s`\",true]],\"client\":1,\"line\":11,\"made\":[\"`814`\"],\"op\":3,\"request\":{\"do\":\"undo\",\"op\":2},\"retired\":[\"`812`\",\"`813`\"]}\n",
            "{\"at\":1040,\"changed\":[[\"`r`\",\"`s`\",false]],\"client\":1,\"line\":12,\"made\":[\"`815`\",\"`816`\"],\"op\":4,\"request\":{\"do\":\"redo\",\"op\":2},\"retired\":[\"`814`\"]}\n",
        ),
        ..alone(
            concat!(
                "{\"do\":\"merge\",\"a\":\"`r`\",\"b\":\"`s`\"}\n",
                "{\"do\":\"root\",\"sv\":\"`s`\",\"at\":1000}\n",
                "{\"do\":\"path\",\"sv\":\"`r`\"}\n",
                "{\"do\":\"split\",\"sources\":[\"`p`\"],\"sinks\":[\"`s`\"]}\n",
                "{\"do\":\"path\",\"sv\":\"`p`\"}\n",
                "{\"do\":\"path\",\"sv\":\"`s`\"}\n",
                "{\"do\":\"leaves\",\"root\":\"`812`\"}\n",
                "{\"do\":\"undo\",\"op\":1}\n",
                "{\"do\":\"changes\",\"root\":\"`812`\"}\n",
                "{\"do\":\"changes\",\"root\":\"`811`\",\"at\":1010}\n",
                "{\"do\":\"undo\",\"op\":2}\n",
                "{\"do\":\"redo\",\"op\":2}\n",
                "{\"do\":\"leaves\",\"root\":\"`815`\"}\n",
                "{\"do\":\"leaves\",\"root\":\"`816`\"}\n",
            ),
            concat!(
                "{\"at\":1010,\"made\":[\"`811`\"],\"ok\":true,\"op\":1,\"retired\":[\"`809`\",\"`810`\"],\"seen\":2}\n",
                "{\"ok\":true,\"root\":\"`810`\",\"seen\":2}\n",
                "{\"ok\":true,\"path\":[\"144396663052566531\",\"`811`\"],\"seen\":2}\n",
                "{\"at\":1020,\"cut\":[[\"`r`\",\"`s`\"]],\"flow\":[[\"`p`\",\"`q`\",5],[\"`q`\",\"`r`\",5],[\"`r`\",\"`s`\",5]],\"made\":[\"`812`\",\"`813`\"],\"ok\":true,\"op\":2,\"retired\":[\"`811`\"],\"seen\":3,\"total\":5}\n",
                "{\"ok\":true,\"path\":[\"144115188075855873\",\"`812`\"],\"seen\":3}\n",
                "{\"ok\":true,\"path\":[\"144396663052566533\",\"`813`\"],\"seen\":3}\n",
                "{\"leaves\":[\"`p`\",\"`q`\",\"`r`\"],\"ok\":true,\"seen\":3}\n",
                "{\"by\":2,\"ok\":false,\"refusal\":\"Overtaken\",\"seen\":3}\n",
                "{\"changes\":[{\"at\":1000,\"do\":\"ingest\",\"op\":0},{\"at\":1010,\"do\":\"merge\",\"op\":1},{\"at\":1020,\"do\":\"split\",\"op\":2}],\"ok\":true,\"seen\":3}\n",
                "{\"changes\":[{\"at\":1000,\"do\":\"ingest\",\"op\":0},{\"at\":1010,\"do\":\"merge\",\"op\":1}],\"ok\":true,\"seen\":3}\n",
                "{\"at\":1030,\"made\":[\"`814`\"],\"ok\":true,\"op\":3,\"retired\":[\"`812`\",\"`813`\"],\"seen\":4}\n",
                "{\"at\":1040,\"made\":[\"`815`\",\"`816`\"],\"ok\":true,\"op\":4,\"retired\":[\"`814`\"],\"seen\":5}\n",
                "{\"leaves\":[\"`p`\",\"`q`\",\"`r`\"],\"ok\":true,\"seen\":5}\n",
                "{\"leaves\":[\"`s`\"],\"ok\":true,\"seen\":5}\n",
            ),
            "{\"accepted\":4,\"clients\":1,\"entries\":5,\"faults\":[],\"lines\":14,\"records\":66,\"refused\":1,\"roots\":2,\"status\":0}\n",
        )
    };
    assert!(rt; runs(rt.alloc(), &session)?);
    Ok(())
}

/// A client without lines: its answer file is there and empty.
#[test]
fn no_requests(rt: HostRuntime) -> Result<(), Fail> {
    let session = alone(
        "",
        "",
        "{\"accepted\":0,\"clients\":1,\"entries\":1,\"faults\":[],\"lines\":0,\"records\":24,\"refused\":0,\"roots\":2,\"status\":0}\n",
    );
    assert!(rt; runs(rt.alloc(), &session)?);
    Ok(())
}

/// Refusals of edits, each for its first cause, after a merge of r and s.
#[test]
fn edits_that_are_refused(rt: HostRuntime) -> Result<(), Fail> {
    let session = Session {
        log: concat!(
            "{\"at\":1010,\"changed\":[[\"`r`\",\"`s`\",true]],\"client\":1,\"line\":11,\"made\":[\"`811`\"],\"op\":1,\"request\":{\"a\":\"`r`\",\"b\":\"`s`\",\"do\":\"merge\"},\"retired\":[\"`809`\",\"`810`\"]}\n",
            "{\"at\":1020,\"changed\":[[\"`r`\",\"`s`\",false]],\"client\":1,\"line\":13,\"made\":[\"`812`\",\"`813`\"],\"op\":2,\"request\":{\"do\":\"undo\",\"op\":1},\"retired\":[\"`811`\"]}\n",
        ),
        ..alone(
            concat!(
                "{\"do\":\"merge\",\"a\":\"`p`\",\"b\":\"`q`\"}\n",
                "{\"do\":\"merge\",\"a\":\"`p`\",\"b\":\"`p`\"}\n",
                "{\"do\":\"split\",\"sources\":[\"`p`\"],\"sinks\":[\"`p`\"]}\n",
                "{\"do\":\"split\",\"sources\":[\"`p`\"],\"sinks\":[\"`p`\",\"5\"]}\n",
                "{\"do\":\"split\",\"sources\":[\"`p`\"],\"sinks\":[\"`s`\"]}\n",
                "{\"do\":\"split\",\"sources\":[\"`p`\"],\"sinks\":[]}\n",
                "{\"do\":\"undo\",\"op\":9}\n",
                "{\"do\":\"undo\",\"op\":0}\n",
                "{\"do\":\"leaves\",\"root\":\"`p`\"}\n",
                "{\"do\":\"leaves\",\"root\":\"`899`\"}\n",
                "{\"do\":\"merge\",\"a\":\"`r`\",\"b\":\"`s`\"}\n",
                "{\"do\":\"redo\",\"op\":1}\n",
                "{\"do\":\"undo\",\"op\":1}\n",
                "{\"do\":\"undo\",\"op\":1}\n",
            ),
            concat!(
                "{\"ok\":false,\"refusal\":\"SameRoot\",\"root\":\"`809`\",\"seen\":1}\n",
                "{\"ok\":false,\"refusal\":\"SameRoot\",\"root\":\"`809`\",\"seen\":1}\n",
                "{\"id\":\"`p`\",\"ok\":false,\"refusal\":\"BothSides\",\"seen\":1}\n",
                "{\"id\":\"5\",\"ok\":false,\"refusal\":\"NoSuchSupervoxel\",\"seen\":1}\n",
                "{\"first\":\"`809`\",\"ok\":false,\"other\":\"`810`\",\"refusal\":\"DifferentRoots\",\"seen\":1}\n",
                "{\"ok\":false,\"refusal\":\"NoMarks\",\"seen\":1}\n",
                "{\"ok\":false,\"op\":9,\"refusal\":\"NoSuchOp\",\"seen\":1}\n",
                "{\"ok\":false,\"op\":0,\"refusal\":\"NotAnEdit\",\"seen\":1}\n",
                "{\"id\":\"`p`\",\"ok\":false,\"refusal\":\"NotARoot\",\"seen\":1}\n",
                "{\"id\":\"`899`\",\"ok\":false,\"refusal\":\"NoSuchRoot\",\"seen\":1}\n",
                "{\"at\":1010,\"made\":[\"`811`\"],\"ok\":true,\"op\":1,\"retired\":[\"`809`\",\"`810`\"],\"seen\":2}\n",
                "{\"ok\":false,\"op\":1,\"refusal\":\"InForce\",\"seen\":2}\n",
                "{\"at\":1020,\"made\":[\"`812`\",\"`813`\"],\"ok\":true,\"op\":2,\"retired\":[\"`811`\"],\"seen\":3}\n",
                "{\"ok\":false,\"op\":1,\"refusal\":\"NotInForce\",\"seen\":3}\n",
            ),
            "{\"accepted\":2,\"clients\":1,\"entries\":3,\"faults\":[],\"lines\":14,\"records\":45,\"refused\":12,\"roots\":2,\"status\":0}\n",
        )
    };
    assert!(rt; runs(rt.alloc(), &session)?);
    Ok(())
}

/// A walk of glue joins a source to a sink.
#[test]
fn marks_joined_by_glue(rt: HostRuntime) -> Result<(), Fail> {
    let session = Session {
        edges: b"a,b,affinity,active\n72057594037927937,72057594037927938,glue,1\n72057594037927938,72339069014638593,7,1\n72339069014638593,72339069014638594,5,0\n",
        ..alone(
            concat!("{\"do\":\"split\",\"sources\":[\"`r`\",\"`p`\"],\"sinks\":[\"`q`\"]}\n",),
            concat!(
                "{\"ok\":false,\"refusal\":\"Glued\",\"seen\":1,\"sink\":\"`q`\",\"source\":\"`p`\"}\n",
            ),
            "{\"accepted\":0,\"clients\":1,\"entries\":1,\"faults\":[],\"lines\":1,\"records\":24,\"refused\":1,\"roots\":2,\"status\":0}\n",
        )
    };
    assert!(rt; runs(rt.alloc(), &session)?);
    Ok(())
}

/// A split that needs one record more than there are, and an undo that fits.
#[test]
fn records_run_out(rt: HostRuntime) -> Result<(), Fail> {
    let session = Session {
        words: "rehearse --bits 8 --grid 2,1,1 --supervoxels supervoxels.csv --edges edges.csv --merge-affinity 1 --records 46 --clock 1000,10 first",
        log: concat!(
            "{\"at\":1010,\"changed\":[[\"`r`\",\"`s`\",true]],\"client\":1,\"line\":1,\"made\":[\"`811`\"],\"op\":1,\"request\":{\"a\":\"`r`\",\"b\":\"`s`\",\"do\":\"merge\"},\"retired\":[\"`809`\",\"`810`\"]}\n",
            "{\"at\":1020,\"changed\":[[\"`r`\",\"`s`\",false]],\"client\":1,\"line\":3,\"made\":[\"`812`\",\"`813`\"],\"op\":2,\"request\":{\"do\":\"undo\",\"op\":1},\"retired\":[\"`811`\"]}\n",
        ),
        ..alone(
            concat!(
                "{\"do\":\"merge\",\"a\":\"`r`\",\"b\":\"`s`\"}\n",
                "{\"do\":\"split\",\"sources\":[\"`p`\"],\"sinks\":[\"`s`\"]}\n",
                "{\"do\":\"undo\",\"op\":1}\n",
            ),
            concat!(
                "{\"at\":1010,\"made\":[\"`811`\"],\"ok\":true,\"op\":1,\"retired\":[\"`809`\",\"`810`\"],\"seen\":2}\n",
                "{\"need\":13,\"ok\":false,\"refusal\":\"StoreFull\",\"seen\":2,\"spare\":12}\n",
                "{\"at\":1020,\"made\":[\"`812`\",\"`813`\"],\"ok\":true,\"op\":2,\"retired\":[\"`811`\"],\"seen\":3}\n",
            ),
            "{\"accepted\":2,\"clients\":1,\"entries\":3,\"faults\":[],\"lines\":3,\"records\":45,\"refused\":1,\"roots\":2,\"status\":0}\n",
        )
    };
    assert!(rt; runs(rt.alloc(), &session)?);
    Ok(())
}

/// No time is left behind the greatest.
#[test]
fn the_clock_ends(rt: HostRuntime) -> Result<(), Fail> {
    let session = Session {
        words: "rehearse --bits 8 --grid 2,1,1 --supervoxels supervoxels.csv --edges edges.csv --merge-affinity 1 --clock 4611686018427387903,0 first",
        ingest: "{\"at\":4611686018427387903,\"changed\":[],\"client\":0,\"line\":0,\"made\":[\"`809`\",\"`810`\"],\"op\":0,\"request\":{\"do\":\"ingest\"},\"retired\":[]}\n",
        ..alone(
            concat!("{\"do\":\"merge\",\"a\":\"`r`\",\"b\":\"`s`\"}\n",),
            concat!(
                "{\"last\":4611686018427387903,\"ok\":false,\"refusal\":\"ClockEnd\",\"seen\":1}\n",
            ),
            "{\"accepted\":0,\"clients\":1,\"entries\":1,\"faults\":[],\"lines\":1,\"records\":24,\"refused\":1,\"roots\":2,\"status\":0}\n",
        )
    };
    assert!(rt; runs(rt.alloc(), &session)?);
    Ok(())
}

/// The last undo leaves r and s joined through p.
#[test]
fn undone_and_joined_otherwise(rt: HostRuntime) -> Result<(), Fail> {
    let session = Session {
        log: concat!(
            "{\"at\":1010,\"changed\":[[\"`r`\",\"`s`\",true]],\"client\":1,\"line\":1,\"made\":[\"`811`\"],\"op\":1,\"request\":{\"a\":\"`r`\",\"b\":\"`s`\",\"do\":\"merge\"},\"retired\":[\"`809`\",\"`810`\"]}\n",
            "{\"at\":1020,\"changed\":[[\"`r`\",\"`s`\",false]],\"client\":1,\"line\":2,\"made\":[\"`812`\",\"`813`\"],\"op\":2,\"request\":{\"do\":\"undo\",\"op\":1},\"retired\":[\"`811`\"]}\n",
            "{\"at\":1030,\"changed\":[[\"`p`\",\"`s`\",true]],\"client\":1,\"line\":3,\"made\":[\"`814`\"],\"op\":3,\"request\":{\"a\":\"`p`\",\"b\":\"`s`\",\"do\":\"merge\"},\"retired\":[\"`812`\",\"`813`\"]}\n",
            "{\"at\":1040,\"changed\":[[\"`r`\",\"`s`\",true]],\"client\":1,\"line\":4,\"made\":[\"`815`\"],\"op\":4,\"request\":{\"do\":\"redo\",\"op\":1},\"retired\":[\"`814`\"]}\n",
            "{\"at\":1050,\"changed\":[[\"`r`\",\"`s`\",false]],\"client\":1,\"line\":5,\"made\":[\"`816`\"],\"op\":5,\"request\":{\"do\":\"undo\",\"op\":1},\"retired\":[\"`815`\"]}\n",
        ),
        ..alone(
            concat!(
                "{\"do\":\"merge\",\"a\":\"`r`\",\"b\":\"`s`\"}\n",
                "{\"do\":\"undo\",\"op\":1}\n",
                "{\"do\":\"merge\",\"a\":\"`p`\",\"b\":\"`s`\"}\n",
                "{\"do\":\"redo\",\"op\":1}\n",
                "{\"do\":\"undo\",\"op\":1}\n",
                "{\"do\":\"leaves\",\"root\":\"`816`\"}\n",
            ),
            concat!(
                "{\"at\":1010,\"made\":[\"`811`\"],\"ok\":true,\"op\":1,\"retired\":[\"`809`\",\"`810`\"],\"seen\":2}\n",
                "{\"at\":1020,\"made\":[\"`812`\",\"`813`\"],\"ok\":true,\"op\":2,\"retired\":[\"`811`\"],\"seen\":3}\n",
                "{\"at\":1030,\"made\":[\"`814`\"],\"ok\":true,\"op\":3,\"retired\":[\"`812`\",\"`813`\"],\"seen\":4}\n",
                "{\"at\":1040,\"made\":[\"`815`\"],\"ok\":true,\"op\":4,\"retired\":[\"`814`\"],\"seen\":5}\n",
                "{\"at\":1050,\"made\":[\"`816`\"],\"ok\":true,\"op\":5,\"retired\":[\"`815`\"],\"seen\":6}\n",
                "{\"leaves\":[\"`p`\",\"`q`\",\"`r`\",\"`s`\"],\"ok\":true,\"seen\":6}\n",
            ),
            "{\"accepted\":5,\"clients\":1,\"entries\":6,\"faults\":[],\"lines\":6,\"records\":77,\"refused\":0,\"roots\":1,\"status\":0}\n",
        )
    };
    assert!(rt; runs(rt.alloc(), &session)?);
    Ok(())
}

/// Without a schedule client 1 goes first, and client 2 finds the roots merged.
#[test]
fn two_clients_merge_the_same(rt: HostRuntime) -> Result<(), Fail> {
    let session = Session {
        words: TWO,
        supervoxels: SUPERVOXELS,
        edges: EDGES,
        schedule: "",
        requests: [
            concat!("{\"do\":\"merge\",\"a\":\"`r`\",\"b\":\"`s`\"}\n",),
            concat!("{\"do\":\"merge\",\"a\":\"`r`\",\"b\":\"`s`\"}\n",),
            "",
        ],
        answers: [
            Some(concat!(
                "{\"at\":1010,\"made\":[\"`811`\"],\"ok\":true,\"op\":1,\"retired\":[\"`809`\",\"`810`\"],\"seen\":2}\n",
            )),
            Some(concat!(
                "{\"ok\":false,\"refusal\":\"SameRoot\",\"root\":\"`811`\",\"seen\":2}\n",
            )),
            None,
        ],
        ingest: INGEST,
        log: MERGED,
        summary: "{\"accepted\":1,\"clients\":2,\"entries\":2,\"faults\":[],\"lines\":2,\"records\":34,\"refused\":1,\"roots\":1,\"status\":0}\n",
        status: 0,
    };
    assert!(rt; runs(rt.alloc(), &session)?);
    Ok(())
}

/// Client 2 looks first and waits for a lock; client 1 is logged first. Client 2 finds at its pin
/// that its roots have gone, begins again, and is logged second. Client 3 reads in between.
#[test]
fn a_schedule_used_up(rt: HostRuntime) -> Result<(), Fail> {
    let session = Session {
        words: "rehearse --bits 8 --grid 2,1,1 --supervoxels supervoxels.csv --edges edges.csv --merge-affinity 1 --clock 1000,10 --schedule schedule.txt first second third",
        supervoxels: b"supervoxel\n72057594037927937\n72057594037927938\n72339069014638593\n72339069014638594\n72339069014638595\n",
        edges: EDGES,
        schedule: "2  1 1 1 1 1 1 1  3 3  2  1  3 3  1 1 1 1  2 2 2 2 2 2 2 2 2 2  3 3  2 2 2  3 3  2 2 2 2",
        requests: [
            concat!("{\"do\":\"merge\",\"a\":\"`r`\",\"b\":\"`s`\"}\n",),
            concat!("{\"do\":\"merge\",\"a\":\"`p`\",\"b\":\"`t`\"}\n",),
            concat!(
                "{\"do\":\"root\",\"sv\":\"`p`\"}\n",
                "{\"do\":\"root\",\"sv\":\"`p`\"}\n",
                "{\"do\":\"root\",\"sv\":\"`p`\"}\n",
                "{\"do\":\"root\",\"sv\":\"`p`\"}\n",
            ),
        ],
        answers: [
            Some(concat!(
                "{\"at\":1010,\"made\":[\"`812`\"],\"ok\":true,\"op\":1,\"retired\":[\"`809`\",\"`810`\"],\"seen\":2}\n",
            )),
            Some(concat!(
                "{\"at\":1020,\"made\":[\"`813`\"],\"ok\":true,\"op\":2,\"retired\":[\"`811`\",\"`812`\"],\"seen\":3}\n",
            )),
            Some(concat!(
                "{\"ok\":true,\"root\":\"`809`\",\"seen\":1}\n",
                "{\"ok\":true,\"root\":\"`812`\",\"seen\":2}\n",
                "{\"ok\":true,\"root\":\"`812`\",\"seen\":2}\n",
                "{\"ok\":true,\"root\":\"`813`\",\"seen\":3}\n",
            )),
        ],
        ingest: "{\"at\":1000,\"changed\":[],\"client\":0,\"line\":0,\"made\":[\"`809`\",\"`810`\",\"`811`\"],\"op\":0,\"request\":{\"do\":\"ingest\"},\"retired\":[]}\n",
        log: concat!(
            "{\"at\":1010,\"changed\":[[\"`r`\",\"`s`\",true]],\"client\":1,\"line\":1,\"made\":[\"`812`\"],\"op\":1,\"request\":{\"a\":\"`r`\",\"b\":\"`s`\",\"do\":\"merge\"},\"retired\":[\"`809`\",\"`810`\"]}\n",
            "{\"at\":1020,\"changed\":[[\"`p`\",\"`t`\",true]],\"client\":2,\"line\":1,\"made\":[\"`813`\"],\"op\":2,\"request\":{\"a\":\"`p`\",\"b\":\"`t`\",\"do\":\"merge\"},\"retired\":[\"`811`\",\"`812`\"]}\n",
        ),
        summary: "{\"accepted\":2,\"clients\":3,\"entries\":3,\"faults\":[],\"lines\":6,\"records\":53,\"refused\":0,\"roots\":1,\"status\":0}\n",
        status: 0,
    };
    assert!(rt; runs(rt.alloc(), &session)?);
    Ok(())
}

/// The third reply of client 1 isn't written; its edit stays, and client 2 goes on.
#[test]
fn a_reply_that_is_not_written(rt: HostRuntime) -> Result<(), Fail> {
    let session = Session {
        words: TWO,
        supervoxels: SUPERVOXELS,
        edges: EDGES,
        schedule: "",
        requests: [
            concat!(
                "{\"do\":\"merge\",\"a\":\"`r`\",\"b\":\"`s`\"}\n",
                "{\"do\":\"root\",\"sv\":\"`p`\"}\n",
                "{\"do\":\"root\",\"sv\":\"`p`\"}\n",
            ),
            concat!("{\"do\":\"root\",\"sv\":\"`s`\"}\n",),
            "",
        ],
        answers: [
            Some(concat!(
                "{\"at\":1010,\"made\":[\"`811`\"],\"ok\":true,\"op\":1,\"retired\":[\"`809`\",\"`810`\"],\"seen\":2}\n",
                "{\"ok\":true,\"root\":\"`811`\",\"seen\":2}\n",
            )),
            Some(concat!("{\"ok\":true,\"root\":\"`811`\",\"seen\":2}\n",)),
            None,
        ],
        ingest: INGEST,
        log: MERGED,
        summary: "{\"accepted\":1,\"clients\":2,\"entries\":2,\"faults\":[[1,\"WriteFault\"]],\"lines\":3,\"records\":34,\"refused\":0,\"roots\":1,\"status\":4}\n",
        status: 4,
    };
    let third = Fault {
        at: "first.ans",
        flush: false,
        number: 3,
    };
    let faults = [third];
    let outside = Outside {
        single: false,
        old: "old",
        faults: faults.as_slice(),
    };
    assert!(rt; runs_with(rt.alloc(), &session, &outside)?);
    Ok(())
}

/// A schedule whose second word is no client's number.
#[test]
fn a_word_that_is_no_client(rt: HostRuntime) -> Result<(), Fail> {
    let session = Session {
        words: "rehearse --bits 8 --grid 2,1,1 --supervoxels supervoxels.csv --edges edges.csv --merge-affinity 1 --clock 1000,10 --schedule schedule.txt first",
        supervoxels: SUPERVOXELS,
        edges: EDGES,
        schedule: "1 x",
        requests: [concat!("{\"do\":\"root\",\"sv\":\"`s`\"}\n",), "", ""],
        answers: [None; 3],
        ingest: "",
        log: "",
        summary: "{\"fault\":\"BadSchedule\",\"word\":2}\n",
        status: 3,
    };
    assert!(rt; runs(rt.alloc(), &session)?);
    Ok(())
}

/// Two clients whose merges need one record more than there is.
#[test]
fn two_clients_without_room(rt: HostRuntime) -> Result<(), Fail> {
    let merge = "{\"do\":\"merge\",\"a\":\"`r`\",\"b\":\"`s`\"}\n";
    let full = "{\"need\":10,\"ok\":false,\"refusal\":\"StoreFull\",\"seen\":1,\"spare\":9}\n";
    let session = Session {
        words: "rehearse --bits 8 --grid 2,1,1 --supervoxels supervoxels.csv --edges edges.csv --merge-affinity 1 --records 33 --clock 1000,10 first second",
        supervoxels: SUPERVOXELS,
        edges: EDGES,
        schedule: "",
        requests: [merge, merge, ""],
        answers: [Some(full), Some(full), None],
        ingest: INGEST,
        log: "",
        summary: "{\"accepted\":0,\"clients\":2,\"entries\":1,\"faults\":[],\"lines\":2,\"records\":24,\"refused\":2,\"roots\":2,\"status\":0}\n",
        status: 0,
    };
    assert!(rt; runs(rt.alloc(), &session)?);
    Ok(())
}

/// A request of so many bytes, of which spaces fill the end.
fn padded(alloc: Global, bytes: usize) -> Result<String, Fail> {
    let mut line = String::from_str(alloc, "{\"do\":\"root\",\"sv\":\"72057594037927937\"}")?;
    for _ in line.len()..bytes {
        line.push_str(" ")?;
    }
    Ok(line)
}

/// A line of 65,536 bytes is answered, one of a byte more isn't, and the line behind it is.
#[test]
fn the_longest_line(rt: HostRuntime) -> Result<(), Fail> {
    let mut requests = padded(rt.alloc(), 65536)?;
    requests.push_str("\n")?;
    requests.push_str(padded(rt.alloc(), 65537)?.as_str())?;
    requests.push_str("\n{\"do\":\"root\",\"sv\":\"`s`\"}")?;
    let session = alone(
        requests.as_str(),
        "{\"ok\":true,\"root\":\"`809`\",\"seen\":1}\n{\"bytes\":65537,\"ok\":false,\"refusal\":\"LineTooLong\"}\n{\"ok\":true,\"root\":\"`810`\",\"seen\":1}\n",
        "{\"accepted\":0,\"clients\":1,\"entries\":1,\"faults\":[],\"lines\":3,\"records\":24,\"refused\":1,\"roots\":2,\"status\":0}\n",
    );
    assert!(rt; runs(rt.alloc(), &session)?);
    Ok(())
}
