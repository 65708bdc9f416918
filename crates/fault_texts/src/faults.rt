//! The sentence of each fault.

use crate::reading::{FaultText, digits_behind, fault_at, text_behind};
use crate::texts::{cause_text, file_text, header_text, session_text};
use call_lines::Status;
use node_ids::read_digits;
use usage_texts::{Sentence, stem_of, value_of};

/// What a call came to that went wrong.
#[derive(Clone, Copy)]
pub struct Ended<'a> {
    /// The words behind the mode.
    pub words: &'a [Vec<u8>],
    /// The status.
    pub status: Status,
    /// The last line of the output, or a front of it.
    pub line: &'a [u8],
}

/// The name of a client's file, by the digits of the client's number.
fn client_file<'a>(words: &'a [Vec<u8>], client: &[u8], ending: &'a [u8]) -> Option<Sentence<'a>> {
    let stem = stem_of(words, read_digits(client)?)?;
    Some(Sentence::new(stem).and(ending))
}

/// The name of a file that a fault line speaks of.
fn file_of<'a>(words: &'a [Vec<u8>], client: &[u8], file: &'a [u8]) -> Option<Sentence<'a>> {
    if file == b"requests".as_slice() {
        return client_file(words, client, b".req");
    }
    if file == b"answers".as_slice() {
        return client_file(words, client, b".ans");
    }
    Some(Sentence::new(value_of(words, file)?))
}

/// A file that can't be opened, read or written, or is too long.
fn of_file<'a>(ended: Ended<'a>, fault: &str) -> Option<Sentence<'a>> {
    let client = digits_behind(ended.line, b"\"client\":")?;
    let file = text_behind(ended.line, b"\"file\":\"")?;
    Some(file_of(ended.words, client, file)?.and(file_text(fault, file)))
}

/// A record of a table with a cause.
fn of_table(ended: Ended<'_>) -> Option<Sentence<'_>> {
    let table = text_behind(ended.line, b"\"table\":\"")?;
    let row = digits_behind(ended.line, b"\"row\":")?;
    let cause = str::from_utf8(text_behind(ended.line, b"\"cause\":\"")?).ok()?;
    let file = Sentence::new(value_of(ended.words, table)?);
    if cause == "BadHeader" {
        return Some(file.and(header_text(table)));
    }
    Some(file.and(b": record ").and(row).and(cause_text(cause)))
}

/// A word of the schedule that is no client's number.
fn of_word(ended: Ended<'_>) -> Option<Sentence<'_>> {
    let word = digits_behind(ended.line, b"\"word\":")?;
    let file = Sentence::new(value_of(ended.words, b"schedule")?);
    Some(
        file.and(b": word ").and(word).and(
            b": it isn't the number of a client, from 1 to how many stems there are",
        ),
    )
}

/// A chunk with more nodes than its ids have numbers.
fn of_chunk(line: &[u8]) -> Option<Sentence<'_>> {
    let x = digits_behind(line, b"\"x\":")?;
    let y = digits_behind(line, b"\"y\":")?;
    let z = digits_behind(line, b"\"z\":")?;
    let layer = digits_behind(line, b"\"layer\":")?;
    let chunk = Sentence::new(b"chunk (")
        .and(x)
        .and(b",")
        .and(y)
        .and(b",")
        .and(z);
    Some(
        chunk
            .and(b") of layer ")
            .and(layer)
            .and(b" has more nodes than its ids have numbers"),
    )
}

/// A base that needs more records than there may be.
fn of_capacity(line: &[u8]) -> Option<Sentence<'_>> {
    let need = digits_behind(line, b"\"need\":")?;
    let given = digits_behind(line, b"\"given\":")?;
    let front = Sentence::new(b"the base needs ").and(need);
    Some(front.and(b" records, and --records gives ").and(given))
}

/// The fault that stopped a call before its sessions.
fn of_stop(ended: Ended<'_>) -> Option<Sentence<'_>> {
    let fault = str::from_utf8(text_behind(ended.line, b"\"fault\":\"")?).ok()?;
    match fault {
        "BadTable" => of_table(ended),
        "BadSchedule" => of_word(ended),
        "IdsSpent" => of_chunk(ended.line),
        "TooSmall" => of_capacity(ended.line),
        _ => of_file(ended, fault),
    }
}

/// The fault of a client's session.
fn of_session<'a>(words: &'a [Vec<u8>], found: FaultText<'a>) -> Option<Sentence<'a>> {
    let fault = str::from_utf8(found.fault).ok()?;
    let ending = if fault == "WriteFault" {
        b".ans".as_slice()
    } else {
        b".req".as_slice()
    };
    Some(client_file(words, found.client, ending)?.and(session_text(fault)))
}

/// The sentence of a fault, by its number from 0, if there are so many.
pub fn sentence_at(ended: Ended<'_>, number: usize) -> Option<Sentence<'_>> {
    if let Some(found) = fault_at(ended.line, number) {
        return of_session(ended.words, found);
    }
    if number > 0 {
        return None;
    }
    if ended.status == Status::NoMemory {
        return Some(Sentence::new(b"memory ran out"));
    }
    of_stop(ended)
}
