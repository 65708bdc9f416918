//! One run over devices that take a byte a call, and with each single call of a device failing in
//! turn.

use crate::calls::{Outside, Ran, call, ends_so, usual};
use crate::samples::{LOG, REPLIES, SUMMARY};
use std::alloc::Global;
use std::test::Fail;

/// Whether a text is a front of what a whole run prints.
fn is_front(out: &[u8]) -> bool {
    match out.strip_prefix(LOG) {
        Some(rest) => SUMMARY.starts_with(rest),
        None => LOG.starts_with(out),
    }
}

/// Whether a run ended as one does in which a call of this device failed.
fn is_broken(ran: &Ran, at: &str) -> bool {
    let answers = ran.answers.as_slice();
    let out = ran.out.as_slice();
    match at {
        "supervoxels.csv" => {
            ran.status == 2
                && answers == b"old".as_slice()
                && out
                    == b"{\"client\":0,\"fault\":\"ReadFault\",\"file\":\"supervoxels\"}\n".as_slice()
        }
        "edges.csv" => {
            ran.status == 2
                && answers == b"old".as_slice()
                && out == b"{\"client\":0,\"fault\":\"ReadFault\",\"file\":\"edges\"}\n".as_slice()
        }
        "first.req" => ran.status == 2 && REPLIES.starts_with(answers) && out.starts_with(LOG),
        "first.ans" => ran.status == 4 && REPLIES.starts_with(answers) && out.starts_with(LOG),
        _ => ran.status == 4
            && answers == REPLIES
            && is_front(out)
            && out.len() < LOG.len() + SUMMARY.len(),
    }
}

/// Fails each call of a device in turn, of which a whole run makes so many, and calls that no run
/// makes, and answers the first number at which a run doesn't end as it should.
fn first_wrong(alloc: Global, single: bool, at: &str, calls: u32) -> Result<Option<u32>, Fail> {
    for number in 1..=calls.saturating_add(6) {
        let outside = Outside {
            single,
            failing: at,
            number,
            ..usual()
        };
        let ran = call(alloc, &outside)?;
        let fits = if number <= calls {
            is_broken(&ran, at)
        } else {
            ends_so(&ran, 0, REPLIES, SUMMARY)
        };
        if !fits {
            return Ok(Some(number));
        }
    }
    Ok(None)
}

#[test]
fn each_call_fails(rt: HostRuntime) -> Result<(), Fail> {
    for (single, at, calls) in [
        (false, "supervoxels.csv", 2),
        (false, "edges.csv", 2),
        (false, "first.req", 2),
        (false, "first.ans", 2),
        (false, "out", 2),
        (true, "supervoxels.csv", 84),
        (true, "edges.csv", 142),
        (true, "first.req", 79),
        (true, "first.ans", 98),
        (true, "out", 249),
    ] {
        let wrong = first_wrong(rt.alloc(), single, at, calls)?;
        assert_eq!(rt; wrong, None, "{at} {single}");
    }
    Ok(())
}

/// A reply whose flush fails is its client's fault, and a failed flush of the output ends with
/// status 4.
#[test]
fn each_flush_fails(rt: HostRuntime) -> Result<(), Fail> {
    let first = b"{\"ok\":true,\"root\":\"216172782113783809\",\"seen\":1}\n".as_slice();
    for (failing, number, answers, summary) in [
        (
            "first.ans",
            1,
            first,
            b"{\"accepted\":0,\"clients\":1,\"entries\":1,\"faults\":[[1,\"WriteFault\"]],\"lines\":0,\"records\":24,\"refused\":0,\"roots\":2,\"status\":4}\n".as_slice(),
        ),
        (
            "first.ans",
            2,
            REPLIES,
            b"{\"accepted\":0,\"clients\":1,\"entries\":1,\"faults\":[[1,\"WriteFault\"]],\"lines\":1,\"records\":24,\"refused\":0,\"roots\":2,\"status\":4}\n",
        ),
        ("out", 1, REPLIES, b""),
        ("out", 2, REPLIES, SUMMARY),
    ] {
        let outside = Outside {
            failing,
            number,
            flush: true,
            ..usual()
        };
        let ran = call(rt.alloc(), &outside)?;
        assert!(rt; ends_so(&ran, 4, answers, summary), "{failing} {number}");
    }
    Ok(())
}

/// The lines that came whole before a read failed are answered, and what was written stays.
#[test]
fn answers_before_a_fault(rt: HostRuntime) -> Result<(), Fail> {
    let first = b"{\"ok\":true,\"root\":\"216172782113783809\",\"seen\":1}\n".as_slice();
    for (at, number, answers) in [
        ("first.req", 39, b"".as_slice()),
        ("first.req", 40, first),
        ("first.req", 78, first),
        ("first.req", 79, REPLIES),
        ("first.ans", 1, b""),
        ("first.ans", 50, first),
    ] {
        let outside = Outside {
            single: true,
            failing: at,
            number,
            ..usual()
        };
        let ran = call(rt.alloc(), &outside)?;
        assert_eq!(rt; ran.answers.as_slice(), answers, "{at} {number}");
    }
    Ok(())
}
