//! What a search for the next line finds.

ghost use Rattle.std.specs.Prelude.{◌≡◌};
ghost use Rattle.client_session.specs.Finding.{stops_at};

/// The next line of a stream, or why there is none.
#[derive(Clone, Copy, Debug, PartialEq, Eq)]
pub(crate) enum Found {
    /// A line, which stands in the buffer from one index to another.
    Line { from: usize, to: usize },
    /// A line that is too long, and how many bytes it has.
    Long(u64),
    /// The stream was read to its end.
    End,
    /// The source failed.
    ReadFault,
    /// The stream is too long.
    TooLong,
}

/// Whether no line comes after this.
pub(crate) fn stops(found: Found) -> bool
    ensures { result ≡ stops_at found }
{
    matches!(found, Found::End | Found::ReadFault | Found::TooLong)
}
