//! What a call prints that stops before its sessions.

use crate::calls::{Outside, call, call_with, stops_so, usual, words_of};
use crate::samples::WORDS;
use crate::shut_place::ShutPlace;
use memory_devices::MemSink;
use pcg_base::{OpenGate, StepClock};
use pcg_serve::run;
use std::alloc::Global;
use std::test::Fail;

/// Files that aren't there, and tables with faults: the supervoxel table comes first, then the edge
/// table, then what both spell, and the requests last.
#[test]
fn files_and_tables(rt: HostRuntime) -> Result<(), Fail> {
    let cases = [
        (
            Outside {
                missing: ("supervoxels.csv", ""),
                edges: b"a,b\n",
                ..usual()
            },
            2,
            b"{\"client\":0,\"fault\":\"ReadFault\",\"file\":\"supervoxels\"}\n".as_slice(),
        ),
        (
            Outside {
                missing: ("edges.csv", "first.req"),
                supervoxels: b"",
                ..usual()
            },
            2,
            b"{\"client\":0,\"fault\":\"ReadFault\",\"file\":\"edges\"}\n",
        ),
        (
            Outside {
                missing: ("first.req", ""),
                edges: b"a,b\n72057594037927937,72057594037927938\n",
                ..usual()
            },
            3,
            b"{\"cause\":\"BadHeader\",\"fault\":\"BadTable\",\"row\":0,\"table\":\"edges\"}\n",
        ),
        (
            Outside {
                supervoxels: b"supervoxel\n72057594037927937\n72057594037927937\n",
                edges: b"",
                ..usual()
            },
            3,
            b"{\"cause\":\"DoubleSupervoxel\",\"fault\":\"BadTable\",\"row\":2,\"table\":\"supervoxels\"}\n",
        ),
        (
            Outside {
                missing: ("first.req", ""),
                edges: b"a,b,affinity,active\n72057594037927937,72057594037927938,10,1\n72057594037927938,72057594037927938,7,1\n",
                ..usual()
            },
            3,
            b"{\"cause\":\"SelfEdge\",\"fault\":\"BadTable\",\"row\":2,\"table\":\"edges\"}\n",
        ),
        (
            Outside {
                missing: ("first.req", ""),
                ..usual()
            },
            2,
            b"{\"client\":1,\"fault\":\"ReadFault\",\"file\":\"requests\"}\n",
        ),
    ];
    for (outside, status, line) in cases {
        assert!(rt; stops_so(&call(rt.alloc(), &outside)?, status, line));
    }
    Ok(())
}

#[test]
fn words(rt: HostRuntime) -> Result<(), Fail> {
    let wrong = b"{\"fault\":\"BadWords\"}\n".as_slice();
    for (words, status, line) in [
        ("", 1, wrong),
        (
            "rehearse --bits 17 --grid 2,1,1 --supervoxels supervoxels.csv --edges edges.csv --merge-affinity 1 --clock 1000,10 first",
            1,
            wrong,
        ),
        (
            "rehearse --bits 8 --supervoxels supervoxels.csv --edges edges.csv --merge-affinity 1 --clock 1000,10 first",
            1,
            wrong,
        ),
        (
            "rehearse --bits 8 --grid 2,1,1 --supervoxels supervoxels.csv --edges edges.csv --merge-affinity 1 --clock 1000,10 first second",
            2,
            b"{\"client\":2,\"fault\":\"ReadFault\",\"file\":\"requests\"}\n",
        ),
        (
            "rehearse --bits 8 --grid 2,1,1 --supervoxels supervoxels.csv --edges edges.csv --merge-affinity 1 --records 23 --clock 1000,10 first",
            6,
            b"{\"fault\":\"TooSmall\",\"given\":23,\"need\":24}\n",
        ),
    ] {
        assert!(rt;
            stops_so(&call_with(rt.alloc(), words, &usual())?, status, line),
            "{words}"
        );
    }
    Ok(())
}

/// A table of the supervoxels with segments 1 to 200 in each of two chunks, of ids with 16 bits a
/// coordinate.
fn two_chunks(alloc: Global) -> Result<Vec<u8>, Fail> {
    let mut text = Vec::from_slice(alloc, b"supervoxel\n")?;
    for chunk in [72057594037927936u64, 72058693549555712] {
        for segment in 1..201 {
            text.extend_from_slice((chunk + segment).to_string(alloc)?.as_bytes())?;
            text.push(b'\n')?;
        }
    }
    Ok(text)
}

/// 400 roots in a chunk whose ids have 255 numbers.
#[test]
fn a_chunk_without_numbers(rt: HostRuntime) -> Result<(), Fail> {
    let words =
        "rehearse --bits 16 --grid 2,1,1 --supervoxels supervoxels.csv --edges edges.csv --merge-affinity 1 --clock 1000,10 first";
    let supervoxels = two_chunks(rt.alloc())?;
    let outside = Outside {
        supervoxels: supervoxels.as_slice(),
        edges: b"a,b,affinity,active\n",
        ..usual()
    };
    let line = b"{\"fault\":\"IdsSpent\",\"layer\":3,\"x\":0,\"y\":0,\"z\":0}\n";
    assert!(rt; stops_so(&call_with(rt.alloc(), words, &outside)?, 6, line));
    Ok(())
}

#[test]
fn answers_that_do_not_open(rt: HostRuntime) -> Result<(), Fail> {
    let mut place = ShutPlace { alloc: rt.alloc() };
    let words = words_of(rt.alloc(), WORDS)?;
    let mut out = MemSink::new(rt.alloc(), 65536, 65536, Vec::new(rt.alloc()))?;
    let clock = StepClock::new(5, 5);
    let status = run(
        rt.alloc(),
        words.as_slice(),
        &mut place,
        &clock,
        &OpenGate,
        &mut out,
    )
    .code();
    assert_eq!(rt; status, 4);
    assert_eq!(rt;
        out.into_bytes().as_slice(),
        b"{\"client\":1,\"fault\":\"WriteFault\",\"file\":\"answers\"}\n".as_slice()
    );
    Ok(())
}
