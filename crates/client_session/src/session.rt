//! A client's session.

ghost use Rattle.std.specs.Prelude.{⊤, ◌≡◌, ◌==◌, ◌≤◌, ◌+◌, ℕ, List, [], ◌++◌, length, Bool, true, false, IfOk, IfErr};
ghost use Rattle.std.specs.Borrow.{sem};
ghost use Rattle.std.specs.List.{list_any};
ghost use Rattle.std.specs.Io.KnownBytes.{Consumes};
ghost use Rattle.client_session.specs.Finding.{Finds, is_fault, stops_at};

use crate::buffer::LineBuffer;
use crate::found::{Found, stops};
use pcg_base::{Sink, Source};
use std::alloc::Global;

/// The next line of a stream, or why none comes any more.
#[derive(Clone, Copy, Debug, Drop)]
pub enum LineRead<'a> {
    /// A line of at most 65,536 bytes, without its line feed.
    Line(&'a [u8]),
    /// A line of more than 65,536 bytes, and how many it has. None of them is kept.
    Long(u64),
    /// The stream was read to its end, and all its lines were given. A last line that has a byte
    /// needs no line feed.
    End,
    /// The source failed, and all lines were given that a line feed ended. What stands behind the
    /// last line feed is no line.
    ReadFault,
    /// More than 1,073,741,824 bytes were taken. All lines were given whose line feed stands within
    /// the first 1,073,741,824.
    TooLong,
}

/// How many replies a session wrote.
#[derive(Clone, Copy, Debug, PartialEq, Eq)]
pub struct Tally {
    /// All replies, one for each line.
    pub lines: u32,
    /// Those that accept their line.
    pub accepted: u32,
    /// Those that refuse it.
    pub refused: u32,
}

/// What a session was made of.
#[derive(Debug, Drop)]
pub struct SessionParts<S: Drop, K: Drop> {
    /// Where the lines come from.
    pub source: S,
    /// Where the replies go.
    pub sink: K,
}

/// A client's session: its request stream, and where its replies go.
#[derive(Debug, Drop)]
pub struct Session<S: Drop, K: Drop> {
    client: u32,
    source: S,
    sink: K,
    buffer: LineBuffer,
    stopped: bool,
    tally: Tally,
}

impl<S: Source + Drop, K: Sink + Drop> Session<S, K> {
    ghost use Rattle.client_session.specs.contracts.session.Session.{the_row};
    ghost use mathlib.Core.Option.{none};
    ghost use denote.Follow.{follows_so};
    ghost use Rattle.client_session.specs.Sessions.{client_of, source_of, sink_of, taken_by, waiting_in, given_by, is_over, is_stopped, tally_of, no_replies, bytes_in, NextLine};

    /// A session of this client, which has taken no byte of the source. All memory that it ever
    /// takes is taken here. If there is none, both source and sink are given back.
    pub fn new(
        alloc: Global,
        client: u32,
        source: S,
        sink: K,
    ) -> Result<Session<S, K>, SessionParts<S, K>>
        ensures client { IfOk result (λ s. client_of s ≡ client) }
        ensures source { IfOk result (λ s. source_of s ≡ source) }
        ensures sink { IfOk result (λ s. sink_of s ≡ sink) }
        ensures taken { IfOk result (λ s. taken_by s ≡ 0) }
        ensures waiting { IfOk result (λ s. waiting_in s ≡ []) }
        ensures over { IfOk result (λ s. is_over s ≡ false) }
        ensures stopped { IfOk result (λ s. is_stopped s ≡ false) }
        ensures tally { IfOk result (λ s. tally_of s ≡ no_replies) }
        ensures back_source { IfErr result (λ p. p.source ≡ source) }
        ensures back_sink { IfErr result (λ p. p.sink ≡ sink) }
    {
        let Ok(buffer) = LineBuffer::new(alloc) else {
            return Err(SessionParts { source, sink });
        };
        Ok(Session {
            client,
            source,
            sink,
            buffer,
            stopped: false,
            tally: Tally {
                lines: 0,
                accepted: 0,
                refused: 0,
            },
        })
    }

    /// What the session was made of.
    pub fn parts(self) -> SessionParts<S, K>
        ensures source { result.source ≡ source_of self }
        ensures sink { result.sink ≡ sink_of self }
    {
        SessionParts {
            source: self.source,
            sink: self.sink,
        }
    }

    /// How many replies were written.
    pub fn tally(&self) -> Tally
        ensures { result ≡ tally_of self.now }
    {
        self.tally
    }

    /// Looks for the next line of the stream, and says where it stands.
    fn advance(&mut self) -> Found
        requires { is_stopped self.old ≡ false }
        ensures answers { (read : List ℕ) × Consumes (S.left (source_of self.old)) (S.left (source_of self.new)) read
            × (taken_by self.new ≡ taken_by self.old + length read)
            × Finds result (bytes_in self.new) (given_by self.old) (waiting_in self.old ++ read) (waiting_in self.new) (is_over self.old) (is_over self.new)
            (S.left (source_of self.new)) (S.faults (source_of self.old)) (S.faults (source_of self.new)) }
        ensures stopped { is_stopped self.new ≡ stops_at result }
        ensures closed { is_over self.old ≡ true → result ≡ Found.End }
        ensures first { list_any (λ b. b == 10) (waiting_in self.old) ≡ true → source_of self.new ≡ source_of self.old }
        ensures later { S.faults (source_of self.old) ≤ S.faults (source_of self.new) }
        ensures still { is_fault result ≡ false → S.faults (source_of self.new) ≡ S.faults (source_of self.old) }
        ensures client { client_of self.new ≡ client_of self.old }
        ensures sink { sink_of self.new ≡ sink_of self.old }
        ensures tally { tally_of self.new ≡ tally_of self.old }
    {
        let found = self.buffer.next(&mut self.source);
        self.stopped = stops(found);
        found
    }

    /// The next line of the stream, or why none comes any more, after which it may not be called
    /// again. Lines that were taken already are given before more is read. No memory is taken.
    pub fn next_line(&mut self) -> LineRead<'_>
        requires { is_stopped self.old ≡ false }
        ensures* next { sem 𝓛 (follows_so (the_row S.row K.row) (the_row S.row K.row) self.entry.ghost_name none (λ _ _. ⊤)
            (λ after. NextLine S.left S.faults result self.old after)) }
    {
        match self.advance() {
            Found::Line { from, to } => LineRead::Line(self.buffer.part(from, to)),
            Found::Long(count) => LineRead::Long(count),
            Found::End => LineRead::End,
            Found::ReadFault => LineRead::ReadFault,
            Found::TooLong => LineRead::TooLong,
        }
    }
}
