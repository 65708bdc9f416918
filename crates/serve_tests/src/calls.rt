//! One call of the program, over a place and an output in memory.

use crate::samples::{EDGES, LOG, ROOTS, SUPERVOXELS, WORDS};
use memory_devices::{MemFile, MemPlace, MemSink};
use pcg_base::{OpenGate, StepClock};
use pcg_serve::run;
use std::alloc::Global;
use std::test::Fail;

/// What a call meets: its files, of which two may be missing, whether each device goes by single
/// bytes, and the one call that fails, of the file so named, or of the output where that is `out`:
/// one of its reads and writes, or one of its flushes.
#[derive(Clone, Copy)]
pub struct Outside<'a> {
    pub supervoxels: &'a [u8],
    pub edges: &'a [u8],
    pub requests: &'a [u8],
    pub missing: (&'a str, &'a str),
    pub single: bool,
    pub failing: &'a str,
    pub number: u32,
    pub flush: bool,
}

/// The usual tables and requests, with devices that don't fail.
pub fn usual<'a>() -> Outside<'a> {
    Outside {
        supervoxels: SUPERVOXELS,
        edges: EDGES,
        requests: ROOTS,
        missing: ("", ""),
        single: false,
        failing: "",
        number: 0,
        flush: false,
    }
}

/// What a call came to.
#[derive(Drop)]
pub struct Ran {
    pub status: u8,
    pub answers: Vec<u8>,
    pub out: Vec<u8>,
}

/// The words of a command line.
pub fn words_of(alloc: Global, text: &str) -> Result<Vec<Vec<u8>>, Fail> {
    let mut words = Vec::new(alloc);
    for word in text.split(' ') {
        words.push(Vec::from_slice(alloc, word.as_bytes())?)?;
    }
    Ok(words)
}

/// The reads and writes of a device that fail, or its flushes that do.
fn fails_of(
    alloc: Global,
    outside: &Outside<'_>,
    name: &str,
    flush: bool,
) -> Result<Vec<u32>, Fail> {
    let mut fails = Vec::new(alloc);
    if name == outside.failing && flush == outside.flush {
        fails.push(outside.number)?;
    }
    Ok(fails)
}

fn files_of(alloc: Global, outside: &Outside<'_>) -> Result<Vec<MemFile>, Fail> {
    let mut files = Vec::new(alloc);
    for (name, bytes) in [
        ("supervoxels.csv", outside.supervoxels),
        ("edges.csv", outside.edges),
        ("first.req", outside.requests),
        ("first.ans", b"old".as_slice()),
    ] {
        if name != outside.missing.0 && name != outside.missing.1 {
            files.push(MemFile {
                name: String::from_str(alloc, name)?,
                bytes: Vec::from_slice(alloc, bytes)?,
                read_fails: fails_of(alloc, outside, name, false)?,
                write_fails: fails_of(alloc, outside, name, false)?,
                flush_fails: fails_of(alloc, outside, name, true)?,
            })?;
        }
    }
    Ok(files)
}

fn place_of(alloc: Global, outside: &Outside<'_>) -> Result<MemPlace, Fail> {
    let files = files_of(alloc, outside)?;
    if outside.single {
        Ok(MemPlace::new(alloc, files, 1, 65536)?)
    } else {
        Ok(MemPlace::new(alloc, files, 65536, 65536)?)
    }
}

fn out_of(alloc: Global, outside: &Outside<'_>) -> Result<MemSink, Fail> {
    let fails = fails_of(alloc, outside, "out", false)?;
    let flush_fails = fails_of(alloc, outside, "out", true)?;
    let piece = if outside.single { 1 } else { 65536 };
    Ok(MemSink::with_flush_fails(alloc, piece, 65536, fails, flush_fails)?)
}

/// One call of the program with these words.
pub fn call_with(alloc: Global, words: &str, outside: &Outside<'_>) -> Result<Ran, Fail> {
    let words = words_of(alloc, words)?;
    let mut place = place_of(alloc, outside)?;
    let mut out = out_of(alloc, outside)?;
    let clock = StepClock::new(5, 5);
    let status = run(
        alloc,
        words.as_slice(),
        &mut place,
        &clock,
        &OpenGate,
        &mut out,
    )
    .code();
    let answers = place.bytes_at("first.ans").unwrap_or(b"none");
    Ok(Ran {
        status,
        answers: Vec::from_slice(alloc, answers)?,
        out: out.into_bytes(),
    })
}

/// One call of the program with the usual words.
pub fn call(alloc: Global, outside: &Outside<'_>) -> Result<Ran, Fail> {
    call_with(alloc, WORDS, outside)
}

/// Whether a call came to this status, these answers, and the log with this summary.
pub fn ends_so(ran: &Ran, status: u8, answers: &[u8], summary: &[u8]) -> bool {
    match ran.out.as_slice().strip_prefix(LOG) {
        Some(rest) => ran.status == status && ran.answers.as_slice() == answers && rest == summary,
        None => false,
    }
}

/// Whether a call stopped with this status and this fault line, and left the answers as they were.
pub fn stops_so(ran: &Ran, status: u8, line: &[u8]) -> bool {
    ran.status == status
        && ran.answers.as_slice() == b"old".as_slice()
        && ran.out.as_slice() == line
}
