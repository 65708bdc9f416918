//! What a call comes to.

ghost use Rattle.std.specs.Prelude.{◌≡◌};
ghost use Rattle.call_lines.specs.Statuses.{code};

/// What a call of the program comes to.
#[derive(Clone, Copy, Debug, PartialEq, Eq)]
pub enum Status {
    /// All was done.
    Done,
    /// The words are no job.
    BadWords,
    /// A read or an opening for reading failed.
    ReadFault,
    /// A record of a table has a cause, or a word of the schedule is no client's number.
    BadInput,
    /// A write or an opening for writing failed.
    WriteFault,
    /// Memory ran out.
    NoMemory,
    /// A chunk of the base has more nodes than its ids have numbers, or the base needs more records
    /// than the capacity.
    Full,
    /// A table, the schedule or a client's requests have more bytes than they may have.
    TooLong,
}

impl Status {
    /// The number that the process ends with, from 0 to 7.
    pub fn code(&self) -> u8
        ensures { result ≡ code self.now }
    {
        match self {
            Status::Done => 0,
            Status::BadWords => 1,
            Status::ReadFault => 2,
            Status::BadInput => 3,
            Status::WriteFault => 4,
            Status::NoMemory => 5,
            Status::Full => 6,
            Status::TooLong => 7,
        }
    }
}
