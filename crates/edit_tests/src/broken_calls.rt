//! Two clients that edit: their texts, and what a call comes to where one call of a device fails.
//! Client 2 looks first, but client 1 is logged first.

use crate::sessions::{EDGES, Fault, Session, spelled};
use std::alloc::Global;
use std::test::Fail;

const WORDS: &str =
    "rehearse --bits 8 --grid 2,1,1 --supervoxels supervoxels.csv --edges edges.csv --merge-affinity 1 --clock 1000,10 --schedule schedule.txt first second";

const TABLE: &[u8] =
    b"supervoxel\n72057594037927937\n72057594037927938\n72339069014638593\n72339069014638594\n72339069014638595\n";

const SCHEDULE: &str = "2 1\n";

const REQUESTS: [&str; 2] = [
    "{\"do\":\"merge\",\"a\":\"`r`\",\"b\":\"`s`\"}\n{\"do\":\"root\",\"sv\":\"`t`\"}\n",
    "{\"do\":\"merge\",\"a\":\"`p`\",\"b\":\"`t`\"}\n{\"do\":\"undo\",\"op\":1}\n",
];

/// The answers where all lines are served.
const ANSWERS: [&str; 2] = [
    "{\"at\":1010,\"made\":[\"`812`\"],\"ok\":true,\"op\":1,\"retired\":[\"`809`\",\"`810`\"],\"seen\":2}\n{\"ok\":true,\"root\":\"`811`\",\"seen\":2}\n",
    "{\"at\":1020,\"made\":[\"`813`\"],\"ok\":true,\"op\":2,\"retired\":[\"`811`\",\"`812`\"],\"seen\":3}\n{\"at\":1030,\"made\":[\"`814`\",\"`815`\"],\"ok\":true,\"op\":3,\"retired\":[\"`813`\"],\"seen\":4}\n",
];

const LOG: &str =
    "{\"at\":1000,\"changed\":[],\"client\":0,\"line\":0,\"made\":[\"`809`\",\"`810`\",\"`811`\"],\"op\":0,\"request\":{\"do\":\"ingest\"},\"retired\":[]}\n{\"at\":1010,\"changed\":[[\"`r`\",\"`s`\",true]],\"client\":1,\"line\":1,\"made\":[\"`812`\"],\"op\":1,\"request\":{\"a\":\"`r`\",\"b\":\"`s`\",\"do\":\"merge\"},\"retired\":[\"`809`\",\"`810`\"]}\n{\"at\":1020,\"changed\":[[\"`p`\",\"`t`\",true]],\"client\":2,\"line\":1,\"made\":[\"`813`\"],\"op\":2,\"request\":{\"a\":\"`p`\",\"b\":\"`t`\",\"do\":\"merge\"},\"retired\":[\"`811`\",\"`812`\"]}\n{\"at\":1030,\"changed\":[[\"`r`\",\"`s`\",false]],\"client\":2,\"line\":2,\"made\":[\"`814`\",\"`815`\"],\"op\":3,\"request\":{\"do\":\"undo\",\"op\":1},\"retired\":[\"`813`\"]}\n";

const SUMMARY: &str =
    "{\"accepted\":3,\"clients\":2,\"entries\":4,\"faults\":[],\"lines\":4,\"records\":65,\"refused\":0,\"roots\":2,\"status\":0}\n";

/// Client 2's answers where no line of client 1 is served.
const ALONE: &str =
    "{\"at\":1010,\"made\":[\"`812`\"],\"ok\":true,\"op\":1,\"retired\":[\"`809`\",\"`811`\"],\"seen\":2}\n{\"at\":1020,\"made\":[\"`813`\",\"`814`\"],\"ok\":true,\"op\":2,\"retired\":[\"`812`\"],\"seen\":3}\n";

const ALONE_LOG: &str =
    "{\"at\":1000,\"changed\":[],\"client\":0,\"line\":0,\"made\":[\"`809`\",\"`810`\",\"`811`\"],\"op\":0,\"request\":{\"do\":\"ingest\"},\"retired\":[]}\n{\"at\":1010,\"changed\":[[\"`p`\",\"`t`\",true]],\"client\":2,\"line\":1,\"made\":[\"`812`\"],\"op\":1,\"request\":{\"a\":\"`p`\",\"b\":\"`t`\",\"do\":\"merge\"},\"retired\":[\"`809`\",\"`811`\"]}\n{\"at\":1020,\"changed\":[[\"`p`\",\"`t`\",false]],\"client\":2,\"line\":2,\"made\":[\"`813`\",\"`814`\"],\"op\":2,\"request\":{\"do\":\"undo\",\"op\":1},\"retired\":[\"`812`\"]}\n";

/// Where a client's file fails behind so many lines or replies: how many entries the log has, and
/// the summary.
const ROWS: [(&str, usize, usize, &str); 10] = [
    (
        "first.req",
        0,
        3,
        "{\"accepted\":2,\"clients\":2,\"entries\":3,\"faults\":[[1,\"ReadFault\"]],\"lines\":2,\"records\":55,\"refused\":0,\"roots\":3,\"status\":2}\n",
    ),
    (
        "first.req",
        1,
        4,
        "{\"accepted\":3,\"clients\":2,\"entries\":4,\"faults\":[[1,\"ReadFault\"]],\"lines\":3,\"records\":65,\"refused\":0,\"roots\":2,\"status\":2}\n",
    ),
    (
        "first.req",
        2,
        4,
        "{\"accepted\":3,\"clients\":2,\"entries\":4,\"faults\":[[1,\"ReadFault\"]],\"lines\":4,\"records\":65,\"refused\":0,\"roots\":2,\"status\":2}\n",
    ),
    (
        "second.req",
        0,
        2,
        "{\"accepted\":1,\"clients\":2,\"entries\":2,\"faults\":[[2,\"ReadFault\"]],\"lines\":2,\"records\":39,\"refused\":0,\"roots\":2,\"status\":2}\n",
    ),
    (
        "second.req",
        1,
        3,
        "{\"accepted\":2,\"clients\":2,\"entries\":3,\"faults\":[[2,\"ReadFault\"]],\"lines\":3,\"records\":53,\"refused\":0,\"roots\":1,\"status\":2}\n",
    ),
    (
        "second.req",
        2,
        4,
        "{\"accepted\":3,\"clients\":2,\"entries\":4,\"faults\":[[2,\"ReadFault\"]],\"lines\":4,\"records\":65,\"refused\":0,\"roots\":2,\"status\":2}\n",
    ),
    (
        "first.ans",
        0,
        4,
        "{\"accepted\":3,\"clients\":2,\"entries\":4,\"faults\":[[1,\"WriteFault\"]],\"lines\":2,\"records\":65,\"refused\":0,\"roots\":2,\"status\":4}\n",
    ),
    (
        "first.ans",
        1,
        4,
        "{\"accepted\":3,\"clients\":2,\"entries\":4,\"faults\":[[1,\"WriteFault\"]],\"lines\":3,\"records\":65,\"refused\":0,\"roots\":2,\"status\":4}\n",
    ),
    (
        "second.ans",
        0,
        3,
        "{\"accepted\":2,\"clients\":2,\"entries\":3,\"faults\":[[2,\"WriteFault\"]],\"lines\":2,\"records\":53,\"refused\":0,\"roots\":1,\"status\":4}\n",
    ),
    (
        "second.ans",
        1,
        4,
        "{\"accepted\":3,\"clients\":2,\"entries\":4,\"faults\":[[2,\"WriteFault\"]],\"lines\":3,\"records\":65,\"refused\":0,\"roots\":2,\"status\":4}\n",
    ),
];

/// The session, of which a call knows its words, tables, schedule and requests.
pub fn both<'a>() -> Session<'a> {
    Session {
        words: WORDS,
        supervoxels: TABLE,
        edges: EDGES,
        schedule: SCHEDULE,
        requests: [REQUESTS[0], REQUESTS[1], ""],
        answers: [None; 3],
        ingest: "",
        log: "",
        summary: "",
        status: 0,
    }
}

/// What a call comes to: its status, both clients' answers, and what it prints.
#[derive(Drop)]
pub struct Wanted {
    pub status: u8,
    pub first: Vec<u8>,
    pub second: Vec<u8>,
    pub out: Vec<u8>,
}

/// What is read from a file, or written to it, where nothing fails.
pub fn text_at(alloc: Global, at: &str) -> Result<Vec<u8>, Fail> {
    let text = match at {
        "supervoxels.csv" => return Ok(Vec::from_slice(alloc, TABLE)?),
        "edges.csv" => return Ok(Vec::from_slice(alloc, EDGES)?),
        "schedule.txt" => SCHEDULE,
        "first.req" => REQUESTS[0],
        "second.req" => REQUESTS[1],
        "first.ans" => ANSWERS[0],
        "second.ans" => ANSWERS[1],
        _ => return whole_out(alloc),
    };
    spelled(alloc, text)
}

/// What is printed where nothing fails.
pub fn whole_out(alloc: Global) -> Result<Vec<u8>, Fail> {
    let mut out = spelled(alloc, LOG)?;
    out.extend_from_slice(SUMMARY.as_bytes())?;
    Ok(out)
}

/// Whether a file is one that is read.
fn is_read(at: &str) -> bool {
    at.ends_with(".csv") || at.ends_with(".txt") || at.ends_with(".req")
}

/// How many lines a text has.
fn line_count(text: &[u8]) -> usize {
    let mut count = 0usize;
    for byte in text {
        if *byte == b'\n' {
            count = count.saturating_add(1);
        }
    }
    count
}

/// The first bytes of a text.
fn front(text: &[u8], count: usize) -> &[u8] {
    let (front, _) = text.split_at(count.min(text.len()));
    front
}

/// The first lines of a text.
fn lines_of(text: &[u8], count: usize) -> &[u8] {
    let mut left = count;
    for i in 0..text.len() {
        if left == 0 {
            return front(text, i);
        }
        if text[i] == b'\n' {
            left = left.saturating_sub(1);
        }
    }
    text
}

/// How many calls of a kind a whole run makes: a read for each piece of a file and one at its end,
/// a write for each piece of a text, and a flush for each line.
pub fn calls_of(text: &[u8], at: &str, flush: bool, single: bool) -> usize {
    if flush || (!single && !is_read(at)) {
        line_count(text)
    } else if !single {
        2
    } else if is_read(at) {
        text.len().saturating_add(1)
    } else {
        text.len()
    }
}

/// What of a text was read or written before a call failed, or before its flush did.
pub fn before<'a>(text: &'a [u8], fault: &Fault<'_>, single: bool) -> &'a [u8] {
    let number = fault.number as usize;
    if fault.flush {
        lines_of(text, number)
    } else if single {
        front(text, number.saturating_sub(1))
    } else if !is_read(fault.at) {
        lines_of(text, number.saturating_sub(1))
    } else if number == 1 {
        front(text, 0)
    } else {
        text
    }
}

/// What a call comes to that stops before its sessions.
fn stopped(alloc: Global, file: &str) -> Result<Wanted, Fail> {
    let mut out = Vec::from_slice(alloc, b"{\"client\":0,\"fault\":\"ReadFault\",\"file\":\"")?;
    out.extend_from_slice(file.as_bytes())?;
    out.extend_from_slice(b"\"}\n")?;
    Ok(Wanted {
        status: 2,
        first: Vec::from_slice(alloc, b"old")?,
        second: Vec::from_slice(alloc, b"old")?,
        out,
    })
}

/// What a call comes to that prints this and whose sessions end well.
pub fn served(alloc: Global, status: u8, out: &[u8]) -> Result<Wanted, Fail> {
    Ok(Wanted {
        status,
        first: spelled(alloc, ANSWERS[0])?,
        second: spelled(alloc, ANSWERS[1])?,
        out: Vec::from_slice(alloc, out)?,
    })
}

/// The answers of a client whose files have this stem: its first ones where one of them failed, and
/// else all.
fn answers_in(
    alloc: Global,
    whole: &str,
    stem: &str,
    at: &str,
    front: &[u8],
    done: usize,
) -> Result<Vec<u8>, Fail> {
    let whole = spelled(alloc, whole)?;
    if !at.starts_with(stem) {
        Ok(whole)
    } else if is_read(at) {
        Ok(Vec::from_slice(alloc, lines_of(whole.as_slice(), done))?)
    } else {
        Ok(Vec::from_slice(alloc, front)?)
    }
}

/// What a call prints where a client's file failed behind so many lines or replies.
fn broken_out(alloc: Global, at: &str, done: usize) -> Result<Vec<u8>, Fail> {
    let is_alone = at == "first.req" && done == 0;
    let log = spelled(alloc, if is_alone { ALONE_LOG } else { LOG })?;
    let mut out = Vec::new(alloc);
    for (name, lines, entries, summary) in ROWS {
        if name == at && lines == done {
            out.extend_from_slice(lines_of(log.as_slice(), entries))?;
            out.extend_from_slice(summary.as_bytes())?;
        }
    }
    Ok(out)
}

/// What a call comes to where a client's file failed.
fn broken(alloc: Global, fault: &Fault<'_>, front: &[u8]) -> Result<Wanted, Fail> {
    let at = fault.at;
    let done = if fault.flush {
        line_count(front).saturating_sub(1)
    } else {
        line_count(front)
    };
    let is_alone = at == "first.req" && done == 0;
    let second = if is_alone { ALONE } else { ANSWERS[1] };
    Ok(Wanted {
        status: if is_read(at) { 2 } else { 4 },
        first: answers_in(alloc, ANSWERS[0], "first", at, front, done)?,
        second: answers_in(alloc, second, "second", at, front, done)?,
        out: broken_out(alloc, at, done)?,
    })
}

/// What a call comes to where one call of a device failed, before which this went through.
pub fn wanted_at(alloc: Global, fault: &Fault<'_>, front: &[u8]) -> Result<Wanted, Fail> {
    match fault.at {
        "supervoxels.csv" => stopped(alloc, "supervoxels"),
        "edges.csv" => stopped(alloc, "edges"),
        "schedule.txt" => stopped(alloc, "schedule"),
        "out" => served(alloc, 4, front),
        _ => broken(alloc, fault, front),
    }
}
