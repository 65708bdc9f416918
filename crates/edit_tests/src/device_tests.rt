//! Sessions of which a device fails: one client's reads beside another client, the write of an
//! edit's reply, and the output behind a read.

use crate::sessions::{Fault, MERGED, Outside, Session, TWO, alone, runs_with};
use std::test::Fail;

/// The first read of client 1 fails, and client 2 is served.
#[test]
fn reads_that_fail_beside_a_client(rt: HostRuntime) -> Result<(), Fail> {
    let session = Session {
        words: TWO,
        requests: [
            "{\"do\":\"root\",\"sv\":\"`p`\"}\n",
            "{\"do\":\"root\",\"sv\":\"`s`\"}\n",
            "",
        ],
        answers: [
            Some(""),
            Some("{\"ok\":true,\"root\":\"`810`\",\"seen\":1}\n"),
            None,
        ],
        summary: "{\"accepted\":0,\"clients\":2,\"entries\":1,\"faults\":[[1,\"ReadFault\"]],\"lines\":1,\"records\":24,\"refused\":0,\"roots\":2,\"status\":2}\n",
        status: 2,
        ..alone("", "", "")
    };
    let faults = [Fault {
        at: "first.req",
        flush: false,
        number: 1,
    }];
    let outside = Outside {
        single: false,
        old: "old",
        faults: faults.as_slice(),
    };
    assert!(rt; runs_with(rt.alloc(), &session, &outside)?);
    Ok(())
}

/// The reply of a merge isn't written, and the merge stays.
#[test]
fn a_merge_whose_reply_is_lost(rt: HostRuntime) -> Result<(), Fail> {
    let session = Session {
        answers: [Some(""), Some("old"), None],
        log: MERGED,
        status: 4,
        ..alone(
            "{\"do\":\"merge\",\"a\":\"`r`\",\"b\":\"`s`\"}\n",
            "",
            "{\"accepted\":1,\"clients\":1,\"entries\":2,\"faults\":[[1,\"WriteFault\"]],\"lines\":0,\"records\":34,\"refused\":0,\"roots\":1,\"status\":4}\n",
        )
    };
    let faults = [Fault {
        at: "first.ans",
        flush: false,
        number: 1,
    }];
    let outside = Outside {
        single: false,
        old: "old",
        faults: faults.as_slice(),
    };
    assert!(rt; runs_with(rt.alloc(), &session, &outside)?);
    Ok(())
}

/// A read fails, and the output's first write: the client's fault decides, and nothing is printed.
#[test]
fn an_output_that_fails_behind_a_read(rt: HostRuntime) -> Result<(), Fail> {
    let session = Session {
        ingest: "",
        status: 2,
        ..alone("{\"do\":\"root\",\"sv\":\"`p`\"}\n", "", "")
    };
    let faults = [
        Fault {
            at: "first.req",
            flush: false,
            number: 1,
        },
        Fault {
            at: "out",
            flush: false,
            number: 1,
        },
    ];
    let outside = Outside {
        single: false,
        old: "",
        faults: faults.as_slice(),
    };
    assert!(rt; runs_with(rt.alloc(), &session, &outside)?);
    Ok(())
}
