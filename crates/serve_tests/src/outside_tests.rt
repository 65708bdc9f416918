//! What the server meets of the outside, in memory.

use memory_devices::{MemFile, MemPlace, MemSink, MemSource};
use pcg_base::{
    Clock, Gate, OpenGate, Place, Point, ReadError, Sink, StepClock, VecWords, Words, read_all,
    read_name, write_all,
};
use std::alloc::Global;
use std::test::Fail;

/// Whether bytes were read, or this error came where none are wanted.
fn is_so(found: &Result<Vec<u8>, ReadError>, want: Result<&[u8], ReadError>) -> bool {
    match (found, want) {
        (Ok(bytes), Ok(want)) => bytes.as_slice() == want,
        (Err(error), Err(want)) => *error == want,
        _ => false,
    }
}

/// A source of five bytes, two a read, whose first and third read fail, is read three times.
#[test]
fn a_failed_read_loses_nothing(rt: HostRuntime) -> Result<(), Fail> {
    let alloc = rt.alloc();
    let fails = vec![in alloc; 1, 3]?;
    let mut source = MemSource::new(Vec::from_slice(alloc, b"hello")?, 2, fails);
    for (limit, want, faults) in [
        (5, Err(ReadError::Failed), 1),
        (5, Err(ReadError::Failed), 2),
        (3, Ok(b"llo".as_slice()), 2),
        (0, Ok(b""), 2),
    ] {
        let found = read_all(alloc, &mut source, limit);
        assert!(rt; is_so(&found, want), "{limit}");
        assert_eq!(rt; source.faults(), faults);
    }
    Ok(())
}

#[test]
fn writes_in_pieces(rt: HostRuntime) -> Result<(), Fail> {
    let alloc = rt.alloc();
    let mut sink = MemSink::with_flush_fails(alloc, 2, 7, vec![in alloc; 5]?, vec![in alloc; 2]?)?;
    for (piece, written) in [
        (b"".as_slice(), true),
        (b"hello", true),
        (b"x", true),
        (b"y", false),
        (b"zz", false),
    ] {
        assert_eq!(rt; write_all(&mut sink, piece).is_ok(), written);
    }
    for flushed in [true, false, true] {
        assert_eq!(rt; sink.flush().is_ok(), flushed);
    }
    assert_eq!(rt; sink.faults(), 3);
    assert_eq!(rt; sink.bytes(), b"helloxz".as_slice());
    Ok(())
}

/// A place with two files, of which one fails at its second read and at its first write.
fn two_files(alloc: Global) -> Result<MemPlace, Fail> {
    let files = vec![in alloc;
        MemFile {
            name: String::from_str(alloc, "a")?,
            bytes: Vec::from_slice(alloc, b"one")?,
            read_fails: Vec::new(alloc),
            write_fails: Vec::new(alloc),
            flush_fails: Vec::new(alloc),
        },
        MemFile {
            name: String::from_str(alloc, "b")?,
            bytes: Vec::from_slice(alloc, b"two")?,
            read_fails: vec![in alloc; 2]?,
            write_fails: vec![in alloc; 1]?,
            flush_fails: Vec::new(alloc),
        },
    ]?;
    Ok(MemPlace::new(alloc, files, 1, 16)?)
}

#[test]
fn a_place_reads(rt: HostRuntime) -> Result<(), Fail> {
    let alloc = rt.alloc();
    let mut place = two_files(alloc)?;
    for (name, limit, want) in [
        ("a", 3, Ok(b"one".as_slice())),
        ("a", 2, Err(ReadError::TooLong)),
        ("b", 3, Err(ReadError::Failed)),
        ("c", 3, Err(ReadError::Failed)),
    ] {
        let found = read_name(alloc, &mut place, name, limit);
        assert!(rt; is_so(&found, want), "{name} {limit}");
    }
    Ok(())
}

/// Whether a place has these bytes at a name.
fn holds(place: &MemPlace, name: &str, want: &[u8]) -> bool {
    match place.bytes_at(name) {
        Some(bytes) => bytes == want,
        None => false,
    }
}

#[test]
fn a_place_writes(rt: HostRuntime) -> Result<(), Fail> {
    let alloc = rt.alloc();
    let mut place = two_files(alloc)?;
    for (name, written, held) in [
        ("c", true, b"four".as_slice()),
        ("b", false, b"".as_slice()),
    ] {
        let Ok(mut sink) = place.sink_of(name) else {
            panic!(rt; "no memory");
        };
        assert!(rt; holds(&place, name, b""), "{name}");
        assert_eq!(rt; write_all(&mut sink, b"four").is_ok(), written, "{name}");
        place.keep_out(name, sink);
        assert!(rt; holds(&place, name, held), "{name}");
    }
    assert!(rt; holds(&place, "a", b"one"));
    assert!(rt; place.bytes_at("d").is_none());
    Ok(())
}

#[test]
fn a_clock_goes_by_steps(rt: HostRuntime) {
    let clock = StepClock::new(4611686018427387896, 5);
    for want in [
        4611686018427387896,
        4611686018427387901,
        4611686018427387903,
        4611686018427387903,
    ] {
        assert_eq!(rt; clock.now(), want);
    }
}

#[test]
fn an_open_gate_holds_nobody(rt: HostRuntime) {
    OpenGate.pass(&rt, Point::Planned, 1, 1);
}

#[test]
fn words_are_appended_and_overwritten(rt: HostRuntime) -> Result<(), Fail> {
    let mut words = VecWords::new(vec![in rt.alloc(); 7, 8]?, 2)?;
    words.push(9);
    words.set(0, 18446744073709551615);
    words.push(10);
    assert_eq!(rt; words.len(), 4);
    let read = [words.word(0), words.word(1), words.word(2), words.word(3)];
    assert_eq!(rt; read, [18446744073709551615, 8, 9, 10]);
    Ok(())
}
