//! The next line of a stream, kept.

ghost use Rattle.std.specs.Prelude.{◌≡◌, ◌≤◌, ◌<◌, ◌^◌, ◌++◌, ◌∷◌, [], length, false, IfOk, None};
ghost use Rattle.client_session.specs.Sessions.{client_of, is_stopped, sink_of, source_of};
ghost use Rattle.pcg_base.specs.Told.{LosesFront};
ghost use Rattle.stream_lines.specs.Keeping.{IsTaken, Keeps};

use client_events::LineText;
use client_session::{LineRead, Session};
use pcg_base::{Failed, NoMemory, Sink, Source, StreamEnd};
use std::alloc::Global;

/// Where no answer goes. It takes all bytes and keeps none.
#[derive(Drop)]
pub struct NoAnswers;

impl Sink for NoAnswers {
    ghost state = { λ _. record { held = None; flushed = None; faults = 0 } };

    fn write(&mut self, piece: &[u8]) -> Result<usize, Failed> {
        Ok(piece.len())
    }

    fn flush(&mut self) -> Result<(), Failed> {
        Ok(())
    }
}

/// Puts a line behind others, where they are fewer than 4,294,967,295.
fn put(lines: &mut Vec<LineText>, line: LineText) -> Result<(), NoMemory>
    ensures put { IfOk result (λ u. lines.new.items ≡ lines.old.items ++ line ∷ []) }
    ensures few { length lines.old.items < 2 ^ 32 → length lines.new.items < 2 ^ 32 }
{
    if lines.len() >= 4_294_967_295 {
        return Err(NoMemory);
    }
    let Ok(()) = lines.push(line) else {
        return Err(NoMemory);
    };
    Ok(())
}

/// Puts what was read of a stream behind its lines, if it is one.
fn keep(
    alloc: Global,
    read: LineRead<'_>,
    lines: &mut Vec<LineText>,
) -> Result<Option<StreamEnd>, NoMemory>
    ensures keeps { IfOk result (Keeps read.entry lines.old.items lines.new.items) }
    ensures few { length lines.old.items < 2 ^ 32 → length lines.new.items < 2 ^ 32 }
{
    match read {
        LineRead::Line(bytes) => {
            let Ok(copy) = Vec::from_slice(alloc, bytes) else {
                return Err(NoMemory);
            };
            put(lines, LineText::Bytes(copy))?;
            Ok(None)
        }
        LineRead::Long(count) => {
            put(lines, LineText::Long(count))?;
            Ok(None)
        }
        LineRead::End => Ok(Some(StreamEnd::Whole)),
        LineRead::ReadFault => Ok(Some(StreamEnd::Broken)),
        LineRead::TooLong => Ok(Some(StreamEnd::TooLong)),
    }
}

/// Takes the next line of a stream, or tells how it ended.
pub(crate) fn take<S: Source + Drop, K: Sink + Drop>(
    alloc: Global,
    session: &mut Session<S, K>,
    lines: &mut Vec<LineText>,
) -> Result<Option<StreamEnd>, NoMemory>
    requires { is_stopped session.old ≡ false }
    ensures client { client_of session.new ≡ client_of session.old }
    ensures sink { sink_of session.new ≡ sink_of session.old }
    ensures front { LosesFront (S.left (source_of session.old)) (S.left (source_of session.new)) }
    ensures later { S.faults (source_of session.old) ≤ S.faults (source_of session.new) }
    ensures few { length lines.old.items < 2 ^ 32 → length lines.new.items < 2 ^ 32 }
    ensures taken { IfOk result (IsTaken S.left S.faults session.old session.new lines.old.items lines.new.items) }
{
    let read = session.next_line();
    keep(alloc, read, lines)
}
