//! Edits that a chunk has no numbers for, and one that the log has no records for.

use crate::sessions::{Session, alone, runs};
use std::alloc::Global;
use std::test::Fail;

/// The words of a job of one client with 16 bits a coordinate and one chunk, whose ids have 255
/// numbers.
const FEW: &str =
    "rehearse --bits 16 --grid 1,1,1 --supervoxels supervoxels.csv --edges edges.csv --merge-affinity 1 --clock 1000,10 first";

/// A turn's request, reply and line of the log, with what differs between backquotes.
const ASKED: &str = "{\"do\":\"`do`\",\"op\":1}\n";

const ANSWERED: &str =
    "{\"at\":`at`,\"made\":[`made`],\"ok\":true,\"op\":`op`,\"retired\":[`retired`],\"seen\":`seen`}\n";

const LOGGED: &str =
    "{\"at\":`at`,\"changed\":[[\"72057594037927937\",\"72057594037927938\",`state`]],\"client\":1,\"line\":`op`,\"made\":[`made`],\"op\":`op`,\"request\":{\"do\":\"`do`\",\"op\":1},\"retired\":[`retired`]}\n";

/// The split's request, reply and line of the log.
const SPLIT: [&str; 3] = [
    "{\"do\":\"split\",\"sources\":[\"72057594037927937\"],\"sinks\":[\"72057594037927938\"]}\n",
    "{\"at\":1010,\"cut\":[[\"72057594037927937\",\"72057594037927938\"]],\"flow\":[[\"72057594037927937\",\"72057594037927938\",1]],\"made\":[\"144115188075855874\",\"144115188075855875\"],\"ok\":true,\"op\":1,\"retired\":[\"144115188075855873\"],\"seen\":2,\"total\":1}\n",
    "{\"at\":1010,\"changed\":[[\"72057594037927937\",\"72057594037927938\",false]],\"client\":1,\"line\":1,\"made\":[\"144115188075855874\",\"144115188075855875\"],\"op\":1,\"request\":{\"do\":\"split\",\"sinks\":[\"72057594037927938\"],\"sources\":[\"72057594037927937\"]},\"retired\":[\"144115188075855873\"]}\n",
];

/// The last two requests, and their replies.
const LAST: [&str; 2] = [
    "{\"do\":\"undo\",\"op\":1}\n{\"do\":\"root\",\"sv\":\"72057594037927937\"}\n",
    "{\"layer\":2,\"ok\":false,\"refusal\":\"IdsSpent\",\"seen\":170,\"x\":0,\"y\":0,\"z\":0}\n{\"ok\":true,\"root\":\"144115188075856126\",\"seen\":170}\n",
];

/// An undo of the split, or a redo: its line, whose number its operation has too, and the number of
/// the first node that it makes.
#[derive(Clone, Copy)]
struct Turn {
    line: u64,
    is_undo: bool,
    first: u64,
}

/// A node of the chunk in quotes, or that one and the next.
fn nodes(alloc: Global, first: u64, is_pair: bool) -> Result<String, Fail> {
    let id = first.saturating_add(144115188075855872);
    let mut text = String::from_str(alloc, "\"")?;
    let digits = id.to_string(alloc)?;
    text.push_str(digits.as_str())?;
    if is_pair {
        let next = id.saturating_add(1).to_string(alloc)?;
        text.push_str("\",\"")?;
        text.push_str(next.as_str())?;
    }
    text.push_str("\"")?;
    Ok(text)
}

/// The number at a name.
fn number_at(turn: &Turn, name: &str) -> u64 {
    match name {
        "at" => turn.line.saturating_mul(10).saturating_add(1000),
        "seen" => turn.line.saturating_add(1),
        _ => turn.line,
    }
}

/// The word at a name.
fn word_at(turn: &Turn, name: &str) -> &'static str {
    match (name == "do", turn.is_undo) {
        (true, true) => "undo",
        (true, false) => "redo",
        (false, true) => "true",
        (false, false) => "false",
    }
}

/// What a turn's text has at a name.
fn text_at(alloc: Global, turn: &Turn, name: &str) -> Result<String, Fail> {
    match name {
        "do" | "state" => Ok(String::from_str(alloc, word_at(turn, name))?),
        "made" => nodes(alloc, turn.first, !turn.is_undo),
        "retired" => {
            let back = if turn.is_undo { 2 } else { 1 };
            nodes(alloc, turn.first.saturating_sub(back), turn.is_undo)
        }
        _ => Ok(number_at(turn, name).to_string(alloc)?),
    }
}

/// Puts a turn's text.
fn put_turn(alloc: Global, text: &mut String, form: &str, turn: Turn) -> Result<(), Fail> {
    let mut named = false;
    for piece in form.split('`') {
        if named {
            let digits = text_at(alloc, &turn, piece)?;
            text.push_str(digits.as_str())?;
        } else {
            text.push_str(piece)?;
        }
        named = !named;
    }
    Ok(())
}

/// The split's text, and those of 84 undos and as many redos.
fn played(alloc: Global, split: &str, form: &str) -> Result<String, Fail> {
    let mut text = String::from_str(alloc, split)?;
    for turn in 1..85u64 {
        let undo = Turn {
            line: 2 * turn,
            is_undo: true,
            first: 3 * turn + 1,
        };
        put_turn(alloc, &mut text, form, undo)?;
        let redo = Turn {
            line: 2 * turn + 1,
            is_undo: false,
            first: 3 * turn + 2,
        };
        put_turn(alloc, &mut text, form, redo)?;
    }
    Ok(text)
}

/// What a session asks, what it is answered, and the lines of its log behind the ingest's.
#[derive(Drop)]
struct Texts {
    requests: String,
    answers: String,
    log: String,
}

/// The split, the turns, an undo more, and a root.
fn texts_of(alloc: Global) -> Result<Texts, Fail> {
    let mut requests = played(alloc, SPLIT[0], ASKED)?;
    requests.push_str(LAST[0])?;
    let mut answers = played(alloc, SPLIT[1], ANSWERED)?;
    answers.push_str(LAST[1])?;
    let log = played(alloc, SPLIT[2], LOGGED)?;
    Ok(Texts {
        requests,
        answers,
        log,
    })
}

/// One pair is split, and undone and redone until its chunk's 255 numbers are taken. The next undo
/// is refused, and the newest roots stay.
#[test]
fn numbers_that_are_taken(rt: HostRuntime) -> Result<(), Fail> {
    let texts = texts_of(rt.alloc())?;
    let session = Session {
        words: FEW,
        supervoxels: b"supervoxel\n72057594037927937\n72057594037927938\n",
        edges: b"a,b,affinity,active\n72057594037927937,72057594037927938,1,1\n",
        ingest: "{\"at\":1000,\"changed\":[],\"client\":0,\"line\":0,\"made\":[\"144115188075855873\"],\"op\":0,\"request\":{\"do\":\"ingest\"},\"retired\":[]}\n",
        log: texts.log.as_str(),
        ..alone(
            texts.requests.as_str(),
            texts.answers.as_str(),
            "{\"accepted\":169,\"clients\":1,\"entries\":170,\"faults\":[],\"lines\":171,\"records\":941,\"refused\":1,\"roots\":2,\"status\":0}\n",
        )
    };
    assert!(rt; runs(rt.alloc(), &session)?);
    Ok(())
}

/// The usual job with a record less than its merge needs.
#[test]
fn a_merge_without_room(rt: HostRuntime) -> Result<(), Fail> {
    let session = Session {
        words: "rehearse --bits 8 --grid 2,1,1 --supervoxels supervoxels.csv --edges edges.csv --merge-affinity 1 --records 33 --clock 1000,10 first",
        ..alone(
            "{\"do\":\"merge\",\"a\":\"`r`\",\"b\":\"`s`\"}\n",
            "{\"need\":10,\"ok\":false,\"refusal\":\"StoreFull\",\"seen\":1,\"spare\":9}\n",
            "{\"accepted\":0,\"clients\":1,\"entries\":1,\"faults\":[],\"lines\":1,\"records\":24,\"refused\":1,\"roots\":2,\"status\":0}\n",
        )
    };
    assert!(rt; runs(rt.alloc(), &session)?);
    Ok(())
}
