//! Sessions of clients that edit: their answers, the log and the summary, byte by byte. A text has
//! names of ids between backquotes: `p`, `q`, `r`, `s` and `t` are supervoxels, and three digits a
//! root.

use memory_devices::{MemFile, MemPlace, MemSink};
use pcg_base::{OpenGate, StepClock};
use pcg_serve::run;
use std::alloc::Global;
use std::test::Fail;

/// The usual tables: three edges in a row, of which the last isn't active.
pub const SUPERVOXELS: &[u8] =
    b"supervoxel\n72057594037927937\n72057594037927938\n72339069014638593\n72339069014638594\n";

pub const EDGES: &[u8] =
    b"a,b,affinity,active\n72057594037927937,72057594037927938,10,1\n72057594037927938,72339069014638593,7,1\n72339069014638593,72339069014638594,5,0\n";

/// The ingest's line of the log over the usual tables.
pub const INGEST: &str =
    "{\"at\":1000,\"changed\":[],\"client\":0,\"line\":0,\"made\":[\"`809`\",\"`810`\"],\"op\":0,\"request\":{\"do\":\"ingest\"},\"retired\":[]}\n";

/// The line of the log of a merge of r and s that is the first line of client 1.
pub const MERGED: &str =
    "{\"at\":1010,\"changed\":[[\"`r`\",\"`s`\",true]],\"client\":1,\"line\":1,\"made\":[\"`811`\"],\"op\":1,\"request\":{\"a\":\"`r`\",\"b\":\"`s`\",\"do\":\"merge\"},\"retired\":[\"`809`\",\"`810`\"]}\n";

/// The words of a job of one client over the usual tables.
pub const ONE: &str =
    "rehearse --bits 8 --grid 2,1,1 --supervoxels supervoxels.csv --edges edges.csv --merge-affinity 1 --clock 1000,10 first";

/// The words of a job of two clients over them.
pub const TWO: &str =
    "rehearse --bits 8 --grid 2,1,1 --supervoxels supervoxels.csv --edges edges.csv --merge-affinity 1 --clock 1000,10 first second";

/// A session: its words and tables, each client's requests, and the whole of what it comes to. That
/// is what the answer files hold, where there are any, and what is printed: the ingest's line, the
/// lines of the other entries, and the summary.
#[derive(Clone, Copy)]
pub struct Session<'a> {
    pub words: &'a str,
    pub supervoxels: &'a [u8],
    pub edges: &'a [u8],
    pub schedule: &'a str,
    pub requests: [&'a str; 3],
    pub answers: [Option<&'a str>; 3],
    pub ingest: &'a str,
    pub log: &'a str,
    pub summary: &'a str,
    pub status: u8,
}

/// A session of one client over the usual tables that ends well, and whose log is the ingest alone.
pub fn alone<'a>(requests: &'a str, answers: &'a str, summary: &'a str) -> Session<'a> {
    Session {
        words: ONE,
        supervoxels: SUPERVOXELS,
        edges: EDGES,
        schedule: "",
        requests: [requests, "", ""],
        answers: [Some(answers), None, None],
        ingest: INGEST,
        log: "",
        summary,
        status: 0,
    }
}

/// Puts the digits of an id behind a text.
fn put_id(text: &mut Vec<u8>, name: &str) -> Result<(), Fail> {
    let digits = match name {
        "p" => "72057594037927937",
        "q" => "72057594037927938",
        "r" => "72339069014638593",
        "s" => "72339069014638594",
        "t" => "72339069014638595",
        _ => {
            text.extend_from_slice(b"216172782113783")?;
            name
        }
    };
    text.extend_from_slice(digits.as_bytes())?;
    Ok(())
}

/// A text with its ids written out.
pub fn spelled(alloc: Global, text: &str) -> Result<Vec<u8>, Fail> {
    let mut out = Vec::new(alloc);
    let mut named = false;
    for piece in text.split('`') {
        if named {
            put_id(&mut out, piece)?;
        } else {
            out.extend_from_slice(piece.as_bytes())?;
        }
        named = !named;
    }
    Ok(out)
}

/// A call that fails: the one of this number of the reads and writes of a file, or of its flushes.
/// The output's name is `out`.
#[derive(Clone, Copy)]
pub struct Fault<'a> {
    pub at: &'a str,
    pub flush: bool,
    pub number: u32,
}

/// What a session meets: whether each device goes by single bytes, what the answer files of the
/// first two clients hold at the start, and the calls that fail. Where `old` is empty there are no
/// such files.
#[derive(Clone, Copy)]
pub struct Outside<'a> {
    pub single: bool,
    pub old: &'a str,
    pub faults: &'a [Fault<'a>],
}

/// What a call came to.
#[derive(Drop)]
pub struct Ran {
    pub status: u8,
    pub place: MemPlace,
    pub out: MemSink,
}

/// The numbers of the calls that fail at a name.
fn fails_at(
    alloc: Global,
    faults: &[Fault<'_>],
    name: &str,
    flush: bool,
) -> Result<Vec<u32>, Fail> {
    let mut fails = Vec::new(alloc);
    for fault in faults {
        if fault.at == name && fault.flush == flush {
            fails.push(fault.number)?;
        }
    }
    Ok(fails)
}

/// A file that fails at the calls that are named.
pub fn file_of(
    alloc: Global,
    faults: &[Fault<'_>],
    name: &str,
    bytes: Vec<u8>,
) -> Result<MemFile, Fail> {
    Ok(MemFile {
        name: String::from_str(alloc, name)?,
        bytes,
        read_fails: fails_at(alloc, faults, name, false)?,
        write_fails: fails_at(alloc, faults, name, false)?,
        flush_fails: fails_at(alloc, faults, name, true)?,
    })
}

/// Puts a file behind others.
fn put_file(
    alloc: Global,
    files: &mut Vec<MemFile>,
    faults: &[Fault<'_>],
    name: &str,
    bytes: &[u8],
) -> Result<(), Fail> {
    let bytes = Vec::from_slice(alloc, bytes)?;
    files.push(file_of(alloc, faults, name, bytes)?)?;
    Ok(())
}

/// Puts a client's requests behind other files.
fn put_requests(
    alloc: Global,
    files: &mut Vec<MemFile>,
    faults: &[Fault<'_>],
    name: &str,
    text: &str,
) -> Result<(), Fail> {
    let bytes = spelled(alloc, text)?;
    files.push(file_of(alloc, faults, name, bytes)?)?;
    Ok(())
}

/// Puts the tables, the schedule and a file that is none of the job's.
fn put_tables(
    alloc: Global,
    files: &mut Vec<MemFile>,
    session: &Session<'_>,
    faults: &[Fault<'_>],
) -> Result<(), Fail> {
    put_file(alloc, files, faults, "supervoxels.csv", session.supervoxels)?;
    put_file(alloc, files, faults, "edges.csv", session.edges)?;
    put_file(
        alloc,
        files,
        faults,
        "schedule.txt",
        session.schedule.as_bytes(),
    )?;
    put_file(alloc, files, faults, "other.txt", b"other".as_slice())
}

/// Puts what the clients' files hold before the call.
fn put_clients(
    alloc: Global,
    files: &mut Vec<MemFile>,
    session: &Session<'_>,
    outside: &Outside<'_>,
) -> Result<(), Fail> {
    let old = outside.old.as_bytes();
    if !old.is_empty() {
        put_file(alloc, files, outside.faults, "first.ans", old)?;
        put_file(alloc, files, outside.faults, "second.ans", old)?;
    }
    put_requests(
        alloc,
        files,
        outside.faults,
        "first.req",
        session.requests[0],
    )?;
    put_requests(
        alloc,
        files,
        outside.faults,
        "second.req",
        session.requests[1],
    )?;
    put_requests(
        alloc,
        files,
        outside.faults,
        "third.req",
        session.requests[2],
    )
}

/// The files of a session, and one that is none of its job.
fn files_of(
    alloc: Global,
    session: &Session<'_>,
    outside: &Outside<'_>,
) -> Result<Vec<MemFile>, Fail> {
    let mut files = Vec::new(alloc);
    put_tables(alloc, &mut files, session, outside.faults)?;
    put_clients(alloc, &mut files, session, outside)?;
    Ok(files)
}

/// The words of a command line.
fn words_of(alloc: Global, text: &str) -> Result<Vec<Vec<u8>>, Fail> {
    let mut words = Vec::new(alloc);
    for word in text.split(' ') {
        words.push(Vec::from_slice(alloc, word.as_bytes())?)?;
    }
    Ok(words)
}

/// One call of the program.
pub fn call(
    alloc: Global,
    words: &str,
    mut place: MemPlace,
    mut out: MemSink,
) -> Result<Ran, Fail> {
    let words = words_of(alloc, words)?;
    let clock = StepClock::new(5, 5);
    let status = run(
        alloc,
        words.as_slice(),
        &mut place,
        &clock,
        &OpenGate,
        &mut out,
    )
    .code();
    Ok(Ran { status, place, out })
}

/// The place of a session.
fn place_of(alloc: Global, session: &Session<'_>, outside: &Outside<'_>) -> Result<MemPlace, Fail> {
    let files = files_of(alloc, session, outside)?;
    if outside.single {
        Ok(MemPlace::new(alloc, files, 1, 65536)?)
    } else {
        Ok(MemPlace::new(alloc, files, 65536, 65536)?)
    }
}

/// The output of a session.
fn out_of(alloc: Global, outside: &Outside<'_>) -> Result<MemSink, Fail> {
    let fails = fails_at(alloc, outside.faults, "out", false)?;
    let flush_fails = fails_at(alloc, outside.faults, "out", true)?;
    let piece = if outside.single { 1 } else { 65536 };
    Ok(MemSink::with_flush_fails(alloc, piece, 65536, fails, flush_fails)?)
}

/// The call that a session asks for.
pub fn call_of(alloc: Global, session: &Session<'_>, outside: &Outside<'_>) -> Result<Ran, Fail> {
    let place = place_of(alloc, session, outside)?;
    let out = out_of(alloc, outside)?;
    call(alloc, session.words, place, out)
}

/// Whether an answer file holds this, or isn't there where nothing is wanted.
fn answered(
    alloc: Global,
    place: &MemPlace,
    name: &str,
    answers: Option<&str>,
) -> Result<bool, Fail> {
    let want = spelled(alloc, answers.unwrap_or(""))?;
    Ok(match place.bytes_at(name) {
        Some(bytes) => answers.is_some() && bytes == want.as_slice(),
        None => answers.is_none(),
    })
}

/// Whether all answer files are the session's.
fn all_answered(alloc: Global, place: &MemPlace, session: &Session<'_>) -> Result<bool, Fail> {
    for (name, answers) in [
        ("first.ans", session.answers[0]),
        ("second.ans", session.answers[1]),
        ("third.ans", session.answers[2]),
    ] {
        if !answered(alloc, place, name, answers)? {
            return Ok(false);
        }
    }
    Ok(true)
}

/// Whether a call printed the session's text.
fn printed(alloc: Global, ran: &Ran, session: &Session<'_>) -> Result<bool, Fail> {
    let mut want = spelled(alloc, session.ingest)?;
    want.extend_from_slice(spelled(alloc, session.log)?.as_slice())?;
    want.extend_from_slice(session.summary.as_bytes())?;
    Ok(ran.out.bytes() == want.as_slice())
}

/// Whether a session runs as it says where these calls fail.
pub fn runs_with(
    alloc: Global,
    session: &Session<'_>,
    outside: &Outside<'_>,
) -> Result<bool, Fail> {
    let ran = call_of(alloc, session, outside)?;
    let fits = printed(alloc, &ran, session)? && all_answered(alloc, &ran.place, session)?;
    Ok(fits && ran.status == session.status)
}

/// Whether a session runs as it says.
pub fn runs(alloc: Global, session: &Session<'_>) -> Result<bool, Fail> {
    let outside = Outside {
        single: false,
        old: "",
        faults: &[],
    };
    runs_with(alloc, session, &outside)
}
