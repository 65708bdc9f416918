//! What a call answers and prints that came past its sessions.

use crate::calls::{Outside, call, call_with, ends_so, usual};
use crate::samples::{REPLIES, SUMMARY};
use std::alloc::Global;
use std::test::Fail;

/// A line for each reply, and the reply.
const LINES: [(&str, &str); 19] = [
    (
        "{\"do\":\"root\",\"sv\":\"72057594037927937\"}",
        "{\"ok\":true,\"root\":\"216172782113783809\",\"seen\":1}",
    ),
    (
        "{\"do\":\"root\",\"sv\":\"72057594037927937\",\"at\":1000}",
        "{\"ok\":true,\"root\":\"216172782113783809\",\"seen\":1}",
    ),
    (
        "{\"do\":\"root\",\"sv\":\"72057594037927937\",\"at\":999}",
        "{\"first\":1000,\"ok\":false,\"refusal\":\"TooEarly\",\"seen\":1}",
    ),
    (
        "{\"do\":\"root\",\"sv\":\"72057594037927937\",\"at\":1001}",
        "{\"latest\":1000,\"ok\":false,\"refusal\":\"Unpublished\",\"seen\":1}",
    ),
    (
        "{\"do\":\"root\", \"sv\":\"5\"}",
        "{\"id\":\"5\",\"ok\":false,\"refusal\":\"NoSuchSupervoxel\",\"seen\":1}",
    ),
    (
        "{\"do\":\"path\",\"sv\":\"72339069014638594\"}",
        "{\"ok\":true,\"path\":[\"144396663052566530\",\"216172782113783810\"],\"seen\":1}",
    ),
    (
        "{\"do\":\"leaves\",\"root\":\"216172782113783809\"}",
        "{\"leaves\":[\"72057594037927937\",\"72057594037927938\",\"72339069014638593\"],\"ok\":true,\"seen\":1}",
    ),
    (
        "{\"do\":\"leaves\",\"root\":\"72057594037927937\"}",
        "{\"id\":\"72057594037927937\",\"ok\":false,\"refusal\":\"NotARoot\",\"seen\":1}",
    ),
    (
        "{\"do\":\"leaves\",\"root\":\"216172782113783899\"}",
        "{\"id\":\"216172782113783899\",\"ok\":false,\"refusal\":\"NoSuchRoot\",\"seen\":1}",
    ),
    ("", "{\"ok\":false,\"refusal\":\"NotJson\"}"),
    ("{", "{\"ok\":false,\"refusal\":\"NotJson\"}"),
    ("[1]", "{\"ok\":false,\"refusal\":\"NotObject\"}"),
    (
        "{\"do\":\"fly\"}",
        "{\"ok\":false,\"refusal\":\"NoSuchCommand\"}",
    ),
    (
        "{\"do\":\"merge\"}",
        "{\"name\":\"a\",\"ok\":false,\"refusal\":\"MissingField\"}",
    ),
    (
        "{\"do\":\"root\"}",
        "{\"name\":\"sv\",\"ok\":false,\"refusal\":\"MissingField\"}",
    ),
    (
        "{\"do\":\"root\",\"sv\":true}",
        "{\"name\":\"sv\",\"ok\":false,\"refusal\":\"BadField\"}",
    ),
    (
        "{\"do\":\"undo\",\"op\":1}",
        "{\"ok\":false,\"op\":1,\"refusal\":\"NoSuchOp\",\"seen\":1}",
    ),
    (
        "{\"do\":\"changes\",\"root\":\"216172782113783809\"}",
        "{\"changes\":[{\"at\":1000,\"do\":\"ingest\",\"op\":0}],\"ok\":true,\"seen\":1}",
    ),
    (
        "{\"do\":\"root\",\"sv\":\"72057594037927938\"}",
        "{\"ok\":true,\"root\":\"216172782113783809\",\"seen\":1}",
    ),
];

/// All lines as one stream, of which no line feed ends the last, and the replies to them.
fn asked(alloc: Global) -> Result<(Vec<u8>, Vec<u8>), Fail> {
    let mut requests = Vec::new(alloc);
    let mut replies = Vec::new(alloc);
    for (line, reply) in LINES {
        if !replies.is_empty() {
            requests.push(b'\n')?;
        }
        requests.extend_from_slice(line.as_bytes())?;
        replies.extend_from_slice(reply.as_bytes())?;
        replies.push(b'\n')?;
    }
    Ok((requests, replies))
}

#[test]
fn each_reply(rt: HostRuntime) -> Result<(), Fail> {
    let (requests, replies) = asked(rt.alloc())?;
    let outside = Outside {
        requests: requests.as_slice(),
        ..usual()
    };
    let ran = call(rt.alloc(), &outside)?;
    let summary =
        b"{\"accepted\":0,\"clients\":1,\"entries\":1,\"faults\":[],\"lines\":19,\"records\":24,\"refused\":13,\"roots\":2,\"status\":0}\n";
    assert!(rt; ends_so(&ran, 0, replies.as_slice(), summary));
    Ok(())
}

/// One supervoxel in one chunk: its root is its only node.
#[test]
fn a_base_of_one(rt: HostRuntime) -> Result<(), Fail> {
    let words =
        "rehearse --bits 8 --grid 1,1,1 --supervoxels supervoxels.csv --edges edges.csv --merge-affinity 1 --clock 1000,10 first";
    let outside = Outside {
        supervoxels: b"supervoxel\n72057594037927937\n",
        edges: b"a,b,affinity,active\n",
        requests: b"{\"do\":\"path\",\"sv\":\"72057594037927937\"}\n{\"do\":\"root\",\"sv\":\"72057594037927937\"}\n",
        ..usual()
    };
    let ran = call_with(rt.alloc(), words, &outside)?;
    assert_eq!(rt; ran.status, 0);
    assert_eq!(rt;
        ran.answers.as_slice(),
        b"{\"ok\":true,\"path\":[\"144115188075855873\"],\"seen\":1}\n{\"ok\":true,\"root\":\"144115188075855873\",\"seen\":1}\n".as_slice()
    );
    assert_eq!(rt;
        ran.out.as_slice(),
        b"{\"at\":1000,\"changed\":[],\"client\":0,\"line\":0,\"made\":[\"144115188075855873\"],\"op\":0,\"request\":{\"do\":\"ingest\"},\"retired\":[]}\n{\"accepted\":0,\"clients\":1,\"entries\":1,\"faults\":[],\"lines\":2,\"records\":6,\"refused\":0,\"roots\":1,\"status\":0}\n".as_slice()
    );
    Ok(())
}

/// Records in another order, quoted fields, carriage returns, an empty line, and no line feed at
/// the end.
#[test]
fn tables_of_another_form(rt: HostRuntime) -> Result<(), Fail> {
    let outside = Outside {
        supervoxels: b"supervoxel\r\n72339069014638594\r\n\"72057594037927938\"\r\n\r\n72057594037927937\r\n72339069014638593",
        edges: b"a,b,affinity,\"active\"\r\n72339069014638594,72339069014638593,5,0\r\n72339069014638593,\"72057594037927938\",7,1\r\n72057594037927937,72057594037927938,10,1\r\n",
        ..usual()
    };
    let ran = call(rt.alloc(), &outside)?;
    assert!(rt; ends_so(&ran, 0, REPLIES, SUMMARY));
    Ok(())
}

/// The first entry has the clock's start as its time.
#[test]
fn clocks_of_other_starts(rt: HostRuntime) -> Result<(), Fail> {
    for (words, out) in [
        (
            "rehearse --bits 8 --grid 1,1,1 --supervoxels supervoxels.csv --edges edges.csv --merge-affinity 1 --clock 0,10 first",
            b"{\"at\":0,\"changed\":[],\"client\":0,\"line\":0,\"made\":[\"144115188075855873\"],\"op\":0,\"request\":{\"do\":\"ingest\"},\"retired\":[]}\n{\"accepted\":0,\"clients\":1,\"entries\":1,\"faults\":[],\"lines\":0,\"records\":6,\"refused\":0,\"roots\":1,\"status\":0}\n".as_slice(),
        ),
        (
            "rehearse --bits 8 --grid 1,1,1 --supervoxels supervoxels.csv --edges edges.csv --merge-affinity 1 --clock 4611686018427387903,1 first",
            b"{\"at\":4611686018427387903,\"changed\":[],\"client\":0,\"line\":0,\"made\":[\"144115188075855873\"],\"op\":0,\"request\":{\"do\":\"ingest\"},\"retired\":[]}\n{\"accepted\":0,\"clients\":1,\"entries\":1,\"faults\":[],\"lines\":0,\"records\":6,\"refused\":0,\"roots\":1,\"status\":0}\n",
        ),
    ] {
        let outside = Outside {
            supervoxels: b"supervoxel\n72057594037927937\n",
            edges: b"a,b,affinity,active\n",
            requests: b"",
            ..usual()
        };
        let ran = call_with(rt.alloc(), words, &outside)?;
        assert_eq!(rt; ran.status, 0);
        assert!(rt; ran.out.as_slice() == out, "{words}");
    }
    Ok(())
}

/// Requests that break off at once, within their last line and behind it, and answers that do.
#[test]
fn sessions_that_break_off(rt: HostRuntime) -> Result<(), Fail> {
    let first = b"{\"ok\":true,\"root\":\"216172782113783809\",\"seen\":1}\n".as_slice();
    for (failing, number, status, answers, summary) in [
        (
            "first.req",
            1,
            2,
            b"".as_slice(),
            b"{\"accepted\":0,\"clients\":1,\"entries\":1,\"faults\":[[1,\"ReadFault\"]],\"lines\":0,\"records\":24,\"refused\":0,\"roots\":2,\"status\":2}\n".as_slice(),
        ),
        (
            "first.req",
            78,
            2,
            first,
            b"{\"accepted\":0,\"clients\":1,\"entries\":1,\"faults\":[[1,\"ReadFault\"]],\"lines\":1,\"records\":24,\"refused\":0,\"roots\":2,\"status\":2}\n",
        ),
        (
            "first.req",
            79,
            2,
            REPLIES,
            b"{\"accepted\":0,\"clients\":1,\"entries\":1,\"faults\":[[1,\"ReadFault\"]],\"lines\":2,\"records\":24,\"refused\":0,\"roots\":2,\"status\":2}\n",
        ),
        (
            "first.ans",
            1,
            4,
            b"",
            b"{\"accepted\":0,\"clients\":1,\"entries\":1,\"faults\":[[1,\"WriteFault\"]],\"lines\":0,\"records\":24,\"refused\":0,\"roots\":2,\"status\":4}\n",
        ),
    ] {
        let outside = Outside {
            single: true,
            failing,
            number,
            ..usual()
        };
        let ran = call(rt.alloc(), &outside)?;
        assert!(rt;
            ends_so(&ran, status, answers, summary),
            "{failing} {number}"
        );
    }
    Ok(())
}
