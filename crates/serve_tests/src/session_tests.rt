//! A client's session over streams in memory.

ghost use Rattle.std.specs.Prelude.{◌≡◌, ◌<◌, true, false, IfOk};
ghost use Rattle.client_session.specs.Sessions.{is_stopped};

use client_session::{LineRead, Session, Tally};
use memory_devices::{MemSink, MemSource};
use pcg_base::NoMemory;
use std::alloc::Global;
use std::test::Fail;

/// A session over a source that gives these bytes by pieces.
fn session_of(
    alloc: Global,
    bytes: Vec<u8>,
    piece: usize,
    fails: Vec<u32>,
) -> Result<Session<MemSource, MemSink>, Fail>
    requires { 0 < piece }
    ensures { IfOk result (λ s. is_stopped s ≡ false) }
{
    let sink = MemSink::new(alloc, 10, 10, Vec::new(alloc))?;
    match Session::new(alloc, 1, MemSource::new(bytes, piece, fails), sink) {
        Ok(session) => Ok(session),
        Err(_) => Err(Fail::from(NoMemory)),
    }
}

/// Whether the next line is this one. Of a long one only its length is told.
fn gives_line(session: &mut Session<MemSource, MemSink>, want: &[u8]) -> bool
    requires { is_stopped session.old ≡ false }
    ensures { result ≡ true → is_stopped session.new ≡ false }
{
    match session.next_line() {
        LineRead::Line(line) => line == want,
        LineRead::Long(size) => size == want.len() as u64 && size > 65536,
        LineRead::End | LineRead::ReadFault | LineRead::TooLong => false,
    }
}

/// Whether the next lines are these.
fn gives_lines(session: &mut Session<MemSource, MemSink>, want: &[&[u8]]) -> bool
    requires { is_stopped session.old ≡ false }
    ensures { result ≡ true → is_stopped session.new ≡ false }
{
    for line in want {
        if !gives_line(session, line) {
            return false;
        }
    }
    true
}

/// Whether the next lines are these, and then the stream is at its end.
fn gives_all(mut session: Session<MemSource, MemSink>, want: &[&[u8]]) -> bool
    requires { is_stopped session ≡ false }
{
    gives_lines(&mut session, want) && matches!(session.next_line(), LineRead::End)
}

/// So many bytes.
fn bytes_of(alloc: Global, byte: u8, size: usize) -> Result<Vec<u8>, Fail> {
    Ok(vec![in alloc; byte; size]?)
}

/// These lines, with a line feed behind each but the last.
fn text_of(alloc: Global, lines: &[&[u8]]) -> Result<Vec<u8>, Fail> {
    let mut text = Vec::new(alloc);
    for line in lines {
        if !text.is_empty() {
            text.push(b'\n')?;
        }
        text.extend_from_slice(line)?;
    }
    Ok(text)
}

/// Whether a line of the most bytes, an empty one, one of a byte more, and a last one without a
/// line feed are given, from a source that gives so many bytes a read.
fn gives_sample(alloc: Global, piece: usize) -> Result<bool, Fail>
    requires { 0 < piece }
{
    let most = bytes_of(alloc, b'x', 65536)?;
    let more = bytes_of(alloc, b'y', 65537)?;
    let lines = [most.as_slice(), b"", more.as_slice(), b"ab"];
    let text = text_of(alloc, lines.as_slice())?;
    let session = session_of(alloc, text, piece, Vec::new(alloc))?;
    Ok(gives_all(session, lines.as_slice()))
}

#[test]
fn lines_are_given_in_pieces(rt: HostRuntime) -> Result<(), Fail> {
    assert!(rt; gives_sample(rt.alloc(), 1)?);
    assert!(rt; gives_sample(rt.alloc(), 7)?);
    assert!(rt; gives_sample(rt.alloc(), 100000)?);
    Ok(())
}

/// Of a stream whose second read fails, the line before it is given, and the rest isn't.
#[test]
fn a_fault_ends_the_lines(rt: HostRuntime) -> Result<(), Fail> {
    let alloc = rt.alloc();
    let bytes = Vec::from_slice(alloc, b"ab\nc\nde\n")?;
    let mut session = session_of(alloc, bytes, 4, vec![in alloc; 2]?)?;
    assert!(rt; gives_lines(&mut session, [b"ab".as_slice()].as_slice()));
    assert!(rt; matches!(session.next_line(), LineRead::ReadFault));
    let none = Tally {
        lines: 0,
        accepted: 0,
        refused: 0,
    };
    assert!(rt; session.tally() == none);
    assert_eq!(rt; session.parts().source.faults(), 1);
    Ok(())
}
