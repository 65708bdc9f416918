//! All lines of a stream.

ghost use Rattle.std.specs.Prelude.{◌≡◌, ◌≤◌, ◌<◌, ◌^◌, [], length, false, IfOk};
ghost use Rattle.client_session.specs.Sessions.{client_of, is_over, is_stopped, sink_of, source_of, taken_by, tally_of, waiting_in};
ghost use Rattle.pcg_base.specs.Told.{LosesFront};
ghost use Rattle.stream_lines.specs.Streams.{HasLines};

use crate::taking::{NoAnswers, take};
use client_events::LineText;
use client_session::{Session, SessionParts, lines_are_given};
use pcg_base::{NoMemory, Sink, Source, StreamEnd};
use std::alloc::Global;

/// All lines of a stream, and how it ended.
#[derive(Drop)]
pub struct StreamLines {
    /// The lines, in order.
    pub lines: Vec<LineText>,
    /// How the stream ended. Of one that broke off, or is longer than 1,073,741,824 bytes, the lines
    /// are those that a line feed ended, within these bytes.
    pub end: StreamEnd,
}

/// What came of the reading of a source.
#[derive(Drop)]
pub struct SourceRead<S: Drop> {
    /// The source, of which a front was taken.
    pub source: S,
    /// Its lines, or `NoMemory` where there was none for them.
    pub lines: Result<StreamLines, NoMemory>,
}

/// All lines of a session's stream, of which nothing was taken yet. Memory is that of the lines. Its
/// client and its sink stay, also where memory runs out.
///
/// # Errors
///
/// `NoMemory` where there is none for them.
pub fn read_lines<S: Source + Drop, K: Sink + Drop>(
    alloc: Global,
    session: &mut Session<S, K>,
) -> Result<StreamLines, NoMemory>
    requires open { is_stopped session.old ≡ false }
    requires fresh { (taken_by session.old ≡ 0) × (waiting_in session.old ≡ []) × (is_over session.old ≡ false) }
    ensures lines { IfOk result (λ x. HasLines (S.left (source_of session.old)) (S.left (source_of session.new)) (S.faults (source_of session.old)) (S.faults (source_of session.new)) x.lines.items x.end) }
    ensures few { IfOk result (λ x. length x.lines.items < 2 ^ 32) }
    ensures front { LosesFront (S.left (source_of session.old)) (S.left (source_of session.new)) }
    ensures later { S.faults (source_of session.old) ≤ S.faults (source_of session.new) }
    ensures client { client_of session.new ≡ client_of session.old }
    ensures sink { sink_of session.new ≡ sink_of session.old }
{
    lines_are_given();
    let mut lines = Vec::new(alloc);
    for _ in 0..u64::MAX {
        let end = take(alloc, session, &mut lines)?;
        if let Some(end) = end {
            return Ok(StreamLines { lines, end });
        }
    }
    Err(NoMemory)
}

/// All lines of a source of which nothing was taken yet, and the source back. Memory is that of the
/// lines and of one line's buffer. The lines are fewer than 4,294,967,296: a longer list counts as
/// memory that isn't there.
pub fn read_source<S: Source + Drop>(alloc: Global, source: S) -> SourceRead<S>
    ensures lines { IfOk result.lines (λ x. HasLines (S.left source) (S.left result.source) (S.faults source) (S.faults result.source) x.lines.items x.end) }
    ensures few { IfOk result.lines (λ x. length x.lines.items < 2 ^ 32) }
    ensures front { LosesFront (S.left source) (S.left result.source) }
    ensures later { S.faults source ≤ S.faults result.source }
{
    let mut session = match Session::new(alloc, 1, source, NoAnswers) {
        Ok(session) => session,
        Err(parts) => {
            let SessionParts { source, .. } = parts;
            return SourceRead {
                source,
                lines: Err(NoMemory),
            };
        }
    };
    let lines = read_lines(alloc, &mut session);
    let SessionParts { source, .. } = session.parts();
    SourceRead { source, lines }
}
