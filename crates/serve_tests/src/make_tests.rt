//! Tables and requests that a call of the program makes from a number. What is wanted was made by a
//! second program, in Python.

use crate::calls::words_of;
use memory_devices::{MemFile, MemPlace, MemSink};
use pcg_base::{OpenGate, StepClock};
use pcg_serve::run;
use std::alloc::Global;
use std::test::Fail;

const WORDS: &str =
    "make --from 14 --size 4 --requests 4 --bits 8 --grid 2,1,1 --supervoxels sv.csv --edges edges.csv first second";

const FILES: [(&str, &str); 4] = [
    (
        "sv.csv",
        "supervoxel\n72057594037927937\n72339069014638593\n72057594037927938\n72339069014638594\n",
    ),
    (
        "edges.csv",
        "a,b,affinity,active\n72057594037927937,72339069014638593,91,0\n72057594037927937,72057594037927938,10,1\n72339069014638593,72339069014638594,45,1\n",
    ),
    (
        "first.req",
        "{\"a\":\"72339069014638593\",\"b\":\"72339069014638594\",\"do\":\"merge\"}\n{\"a\":\"72057594037927938\",\"b\":\"72057594037927937\",\"do\":\"merge\"}\n{\"a\":\"72057594037927938\",\"b\":\"72339069014638593\",\"do\":\"merge\"}\n{\"do\":\"undo\",\"op\":5}\n",
    ),
    (
        "second.req",
        "{\"do\":\"root\",\"sv\":\"72057594037927938\"}\n{\"do\":\"path\",\"sv\":\"72057594037927937\"}\n{\"a\":\"72057594037927938\",\"b\":\"72057594037927938\",\"do\":\"merge\"}\n{\"do\":\"split\",\"sinks\":[\"72057594037927938\"],\"sources\":[\"72057594037927937\"]}\n",
    ),
];

/// Whether the place has just the first of these files, and the next one at most without a byte.
fn has_files(place: &MemPlace, whole: usize) -> bool {
    for i in 0..FILES.len() {
        let (name, text) = FILES[i];
        let is_so = match place.bytes_at(name) {
            Some(held) => (i < whole && held == text.as_bytes()) || (i == whole && held.is_empty()),
            None => i >= whole,
        };
        if !is_so {
            return false;
        }
    }
    true
}

/// A place whose file of this name fails at its first write, if it is one of those.
fn place_of(alloc: Global, failing: &str) -> Result<MemPlace, Fail> {
    let mut files = Vec::new(alloc);
    if failing != "" {
        let mut write_fails = Vec::new(alloc);
        write_fails.push(1)?;
        files.push(MemFile {
            name: String::from_str(alloc, failing)?,
            bytes: Vec::new(alloc),
            read_fails: Vec::new(alloc),
            write_fails,
            flush_fails: Vec::new(alloc),
        })?;
    }
    Ok(MemPlace::new(alloc, files, 65536, 65536)?)
}

/// Whether a call that makes input at such a place comes to this.
fn makes(
    alloc: Global,
    failing: &str,
    status: u8,
    line: &[u8],
    whole: usize,
) -> Result<bool, Fail> {
    let words = words_of(alloc, WORDS)?;
    let mut place = place_of(alloc, failing)?;
    let mut out = MemSink::new(alloc, 65536, 65536, Vec::new(alloc))?;
    let clock = StepClock::new(5, 5);
    let found = run(
        alloc,
        words.as_slice(),
        &mut place,
        &clock,
        &OpenGate,
        &mut out,
    )
    .code();
    let fits = has_files(&place, whole);
    let printed = out.into_bytes();
    Ok(found == status && fits && printed.as_slice() == line)
}

#[test]
fn input_is_made(rt: HostRuntime) -> Result<(), Fail> {
    let line = b"{\"edges\":3,\"lines\":8,\"status\":0,\"supervoxels\":4}\n".as_slice();
    assert!(rt; makes(rt.alloc(), "", 0, line, 4)?);
    Ok(())
}

/// A file fails: those before it are whole, it is empty, and those behind it aren't there.
#[test]
fn a_file_fails(rt: HostRuntime) -> Result<(), Fail> {
    let edges = b"{\"client\":0,\"fault\":\"WriteFault\",\"file\":\"edges\"}\n".as_slice();
    let second = b"{\"client\":2,\"fault\":\"WriteFault\",\"file\":\"requests\"}\n".as_slice();
    assert!(rt; makes(rt.alloc(), "edges.csv", 4, edges, 1)?);
    assert!(rt; makes(rt.alloc(), "second.req", 4, second, 3)?);
    Ok(())
}
