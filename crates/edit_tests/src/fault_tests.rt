//! Two clients that edit, while each single call of a device fails in turn.

use crate::broken_calls::{Wanted, before, both, calls_of, served, text_at, wanted_at, whole_out};
use crate::sessions::{Fault, Outside, Ran, call_of};
use std::alloc::Global;
use std::test::Fail;

/// Whether a call's place has these bytes at a name.
fn holds(ran: &Ran, name: &str, want: &[u8]) -> bool {
    match ran.place.bytes_at(name) {
        Some(bytes) => bytes == want,
        None => false,
    }
}

/// Whether a call came to this.
fn is_so(ran: &Ran, want: &Wanted) -> bool {
    ran.status == want.status
        && holds(ran, "first.ans", want.first.as_slice())
        && holds(ran, "second.ans", want.second.as_slice())
        && ran.out.bytes() == want.out.as_slice()
}

/// Whether all files but the answers are as they were.
fn are_kept(alloc: Global, ran: &Ran) -> Result<bool, Fail> {
    for at in [
        "supervoxels.csv",
        "edges.csv",
        "schedule.txt",
        "first.req",
        "second.req",
    ] {
        let text = text_at(alloc, at)?;
        if !holds(ran, at, text.as_slice()) {
            return Ok(false);
        }
    }
    Ok(holds(ran, "other.txt", b"other") && holds(ran, "third.req", b""))
}

/// Whether the counts beside a name are these.
fn counts(ran: &Ran, name: &str, reads: u64, writes: u64) -> bool {
    ran.place.source_faults_at(name) == reads && ran.place.sink_faults_at(name) == writes
}

/// Whether the one count beside the name of this file rose by one, and no other did.
fn are_counted(ran: &Ran, at: &str) -> bool {
    for name in [
        "supervoxels.csv",
        "edges.csv",
        "schedule.txt",
        "first.req",
        "second.req",
    ] {
        if !counts(ran, name, if name == at { 1 } else { 0 }, 0) {
            return false;
        }
    }
    for name in ["first.ans", "second.ans", "other.txt"] {
        if !counts(ran, name, 0, if name == at { 1 } else { 0 }) {
            return false;
        }
    }
    ran.out.faults() == if at == "out" { 1 } else { 0 }
}

/// Whether a call with one fault ends as it should, and one whose fault never came.
fn ends_so(alloc: Global, fault: &Fault<'_>, single: bool, is_met: bool) -> Result<bool, Fail> {
    let faults = [*fault];
    let outside = Outside {
        single,
        old: "old",
        faults: faults.as_slice(),
    };
    let ran = call_of(alloc, &both(), &outside)?;
    let text = text_at(alloc, fault.at)?;
    let want = if is_met {
        wanted_at(alloc, fault, before(text.as_slice(), fault, single))?
    } else {
        served(alloc, 0, whole_out(alloc)?.as_slice())?
    };
    let counted = are_counted(&ran, if is_met { fault.at } else { "" });
    Ok(is_so(&ran, &want) && counted && are_kept(alloc, &ran)?)
}

/// Fails each call of a device in turn, and three that no run makes, and answers the first number
/// at which a run doesn't end as it should.
fn first_wrong(alloc: Global, at: &str, flush: bool, single: bool) -> Result<Option<u32>, Fail> {
    let text = text_at(alloc, at)?;
    let calls = calls_of(text.as_slice(), at, flush, single).min(65535) as u32;
    for number in 1..=calls.saturating_add(3) {
        let fault = Fault { at, flush, number };
        if !ends_so(alloc, &fault, single, number <= calls)? {
            return Ok(Some(number));
        }
    }
    Ok(None)
}

/// Whether each call fails rightly, of devices that take a byte a call and of ones that take all.
fn is_swept(alloc: Global, at: &str) -> Result<bool, Fail> {
    Ok(
        first_wrong(alloc, at, false, false)?.is_none()
            && first_wrong(alloc, at, false, true)?.is_none(),
    )
}

#[test]
fn each_read_of_a_table_fails(rt: HostRuntime) -> Result<(), Fail> {
    for at in ["supervoxels.csv", "edges.csv", "schedule.txt"] {
        assert!(rt; is_swept(rt.alloc(), at)?, "{at}");
    }
    Ok(())
}

#[test]
fn each_read_of_requests_fails(rt: HostRuntime) -> Result<(), Fail> {
    for at in ["first.req", "second.req"] {
        assert!(rt; is_swept(rt.alloc(), at)?, "{at}");
    }
    Ok(())
}

#[test]
fn each_write_of_answers_fails(rt: HostRuntime) -> Result<(), Fail> {
    for at in ["first.ans", "second.ans"] {
        assert!(rt; is_swept(rt.alloc(), at)?, "{at}");
    }
    Ok(())
}

#[test]
fn each_write_of_the_output_fails(rt: HostRuntime) -> Result<(), Fail> {
    assert!(rt; is_swept(rt.alloc(), "out")?);
    Ok(())
}

#[test]
fn each_flush_fails(rt: HostRuntime) -> Result<(), Fail> {
    for at in ["first.ans", "second.ans", "out"] {
        assert_eq!(rt; first_wrong(rt.alloc(), at, true, false)?, None, "{at}");
    }
    Ok(())
}

/// Whether a call that meets two faults ends with this status, and prints a text that ends so.
fn ends_with_two(alloc: Global, faults: &[Fault<'_>], status: u8, end: &str) -> Result<bool, Fail> {
    let outside = Outside {
        single: false,
        old: "old",
        faults,
    };
    let ran = call_of(alloc, &both(), &outside)?;
    Ok(ran.status == status && ran.out.bytes().ends_with(end.as_bytes()))
}

/// The first step that failed decides; of the sessions that do, the least client.
#[test]
fn two_calls_fail(rt: HostRuntime) -> Result<(), Fail> {
    let supervoxels = "{\"client\":0,\"fault\":\"ReadFault\",\"file\":\"supervoxels\"}\n";
    let edges = "{\"client\":0,\"fault\":\"ReadFault\",\"file\":\"edges\"}\n";
    let two =
        "\"faults\":[[1,\"WriteFault\"],[2,\"ReadFault\"]],\"lines\":0,\"records\":39,\"refused\":0,\"roots\":2,\"status\":4}\n";
    let written =
        "\"faults\":[[1,\"WriteFault\"]],\"lines\":2,\"records\":65,\"refused\":0,\"roots\":2,\"status\":4}\n";
    for (one, number, other, status, end) in [
        ("edges.csv", 1, "supervoxels.csv", 2, supervoxels),
        ("schedule.txt", 2, "edges.csv", 2, edges),
        ("first.req", 1, "edges.csv", 2, edges),
        ("supervoxels.csv", 1, "out", 2, ""),
        ("second.req", 1, "out", 2, ""),
        ("second.req", 1, "first.ans", 4, two),
        ("first.req", 2, "first.ans", 4, written),
    ] {
        let flush = false;
        let faults = [
            Fault {
                at: one,
                flush,
                number,
            },
            Fault {
                at: other,
                flush,
                number: 1,
            },
        ];
        assert!(rt;
            ends_with_two(rt.alloc(), faults.as_slice(), status, end)?,
            "{one} {other}"
        );
    }
    Ok(())
}
