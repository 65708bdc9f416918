//! The requests of lines, and the answers to lines that are none.

use crate::replies::{logs, writes};
use op_model::{Asked, ChangedPairs, Entry, Ids, Read, Reply, Request};
use request_lines::{read_line, split_line};
use std::alloc::Global;

#[test]
fn lines_of_a_stream(rt: HostRuntime) {
    let mut rest: &[u8] = b"{}\n05\n\n {}";
    let lines: [&[u8]; 4] = [b"{}", b"05", b"", b" {}"];
    for wanted in lines {
        let (line, more) = split_line(rest).unwrap_or((b"none", b""));
        assert_eq!(rt; line, wanted);
        rest = more;
    }
    assert!(rt; split_line(rest).is_none());
}

/// Whether this is printed in answer to a line that is no request.
fn refuses(alloc: Global, line: &[u8], text: &str) -> bool {
    match read_line(alloc, line) {
        Ok(_) => false,
        Err(error) => writes(alloc, &Reply::BadLine { error }, text),
    }
}

#[test]
fn lines_that_are_no_requests(rt: HostRuntime) {
    for (line, text) in [
        ("", "{\"ok\":false,\"refusal\":\"NotJson\"}\n"),
        ("\"root\"", "{\"ok\":false,\"refusal\":\"NotObject\"}\n"),
        (
            "{\"do\":\"fly\"}",
            "{\"ok\":false,\"refusal\":\"NoSuchCommand\"}\n",
        ),
        (
            "{}",
            "{\"name\":\"do\",\"ok\":false,\"refusal\":\"MissingField\"}\n",
        ),
        (
            "{\"do\":\"root\",\"sv\":\"01\"}",
            "{\"name\":\"sv\",\"ok\":false,\"refusal\":\"BadField\"}\n",
        ),
        (
            "{\"do\":\"path\",\"sv\":1,\"at\":\"1000\"}",
            "{\"name\":\"at\",\"ok\":false,\"refusal\":\"BadField\"}\n",
        ),
        (
            "{\"do\":\"leaves\",\"sv\":1}",
            "{\"name\":\"root\",\"ok\":false,\"refusal\":\"MissingField\"}\n",
        ),
        (
            "{\"do\":\"merge\",\"a\":1}",
            "{\"name\":\"b\",\"ok\":false,\"refusal\":\"MissingField\"}\n",
        ),
        (
            "{\"do\":\"merge\",\"pairs\":[[1,2,3]]}",
            "{\"name\":\"pairs\",\"ok\":false,\"refusal\":\"BadField\"}\n",
        ),
        (
            "{\"do\":\"split\",\"sources\":[]}",
            "{\"name\":\"sinks\",\"ok\":false,\"refusal\":\"MissingField\"}\n",
        ),
        (
            "{\"do\":\"undo\",\"op\":1.0}",
            "{\"name\":\"op\",\"ok\":false,\"refusal\":\"BadField\"}\n",
        ),
    ] {
        assert!(rt; refuses(rt.alloc(), line.as_bytes(), text));
    }
}

/// The name, the id and the time of a read.
fn parts(read: &Read) -> (&'static str, u64, Option<u64>) {
    match read {
        Read::Root { sv, at } => ("root", sv.0, *at),
        Read::Path { sv, at } => ("path", sv.0, *at),
        Read::Leaves { root, at } => ("leaves", root.0, *at),
        Read::Changes { root, at } => ("changes", root.0, *at),
    }
}

/// The parts of a request's read, if it is one.
fn asked_parts(request: &Request) -> Option<(&'static str, u64, Option<u64>)> {
    match request {
        Request::Read(read) => Some(parts(read)),
        Request::Edit(_) => None,
    }
}

/// What is read, if a line asks for that.
fn read_of(alloc: Global, line: &[u8]) -> Option<(&'static str, u64, Option<u64>)> {
    let Ok(request) = read_line(alloc, line) else {
        return None;
    };
    asked_parts(&request)
}

#[test]
fn reads(rt: HostRuntime) {
    for (line, name, id, at) in [
        (
            "{\"at\":1000,\"sv\":18446744073709551615,\"do\":\"root\"}",
            "root",
            18446744073709551615,
            Some(1000),
        ),
        (
            " { \"do\" : \"path\" , \"sv\" : \"0\" } \r",
            "path",
            0,
            None,
        ),
        (
            "{\"do\":\"leaves\",\"root\":\"5\",\"at\":7}",
            "leaves",
            5,
            Some(7),
        ),
        // of a key that stands twice the last value counts
        (
            "{\"do\":\"root\",\"do\":\"changes\",\"root\":5}",
            "changes",
            5,
            None,
        ),
    ] {
        assert!(rt; read_of(rt.alloc(), line.as_bytes()) == Some((name, id, at)));
    }
}

/// Whether a line asks an edit of which this is the entry.
fn edits(alloc: Global, line: &[u8], text: &str) -> bool {
    let Ok(Request::Edit(edit)) = read_line(alloc, line) else {
        return false;
    };
    let entry = Entry {
        number: 0,
        client: 0,
        line: 0,
        at: 0,
        asked: Asked::Edit(edit),
        changed: ChangedPairs {
            list: Vec::new(alloc),
        },
        retired: Ids {
            list: Vec::new(alloc),
        },
        made: Ids {
            list: Vec::new(alloc),
        },
    };
    logs(alloc, &entry, text)
}

#[test]
fn edits_of_lines(rt: HostRuntime) {
    for (line, text) in [
        (
            "{\"do\":\"merge\",\"a\":[],\"pairs\":[[3,2],[1,\"4\"]]}",
            "{\"at\":0,\"changed\":[],\"client\":0,\"line\":0,\"made\":[],\"op\":0,\"request\":{\"do\":\"merge\",\"pairs\":[[\"3\",\"2\"],[\"1\",\"4\"]]},\"retired\":[]}\n",
        ),
        (
            "{\"do\":\"split\",\"sources\":[2,\"1\",2],\"sinks\":[\"5\"],\"at\":\"x\"}",
            "{\"at\":0,\"changed\":[],\"client\":0,\"line\":0,\"made\":[],\"op\":0,\"request\":{\"do\":\"split\",\"sinks\":[\"5\"],\"sources\":[\"2\",\"1\",\"2\"]},\"retired\":[]}\n",
        ),
        (
            "{\"do\":\"redo\",\"op\":18446744073709551615}",
            "{\"at\":0,\"changed\":[],\"client\":0,\"line\":0,\"made\":[],\"op\":0,\"request\":{\"do\":\"redo\",\"op\":18446744073709551615},\"retired\":[]}\n",
        ),
    ] {
        assert!(rt; edits(rt.alloc(), line.as_bytes(), text));
    }
}
