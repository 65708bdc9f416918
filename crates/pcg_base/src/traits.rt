ghost use Rattle.std.specs.Prelude.{◌≡◌, ◌≤◌, ◌<◌, ℕ, List, length, IfOk, OnOk, OnErr, Option};
ghost use Rattle.std.specs.Io.{ReadsAtMost};
ghost use Rattle.std.specs.Io.KnownBytes.{ReadConsumes, WriteAppends, Keeps};
ghost use Rattle.pcg_base.specs.Causes.{HasCause};
ghost use Rattle.pcg_base.specs.States.{SinkState};
ghost use Rattle.pcg_base.specs.Told.{IsFlushed};

/// A read or a write failed. It comes only where the count of faults of the object that was
/// called rose in the same call.
#[derive(Clone, Copy, Debug, PartialEq, Eq)]
pub struct Failed;

/// Memory was refused.
#[derive(Clone, Copy, Debug, PartialEq, Eq)]
pub struct NoMemory;

/// A stream of bytes that come in.
pub trait Source {
    /// The bytes that are left, where the source tells them.
    ghost left: { Self → Option (List ℕ) };

    /// How often it has failed.
    ghost faults: { Self → ℕ };

    /// Takes bytes off the front of what is left, and answers how many. Into a slice that isn't
    /// empty, 0 means the end. After `Failed` what is left is as it was. The count of faults rises
    /// where it answers `Failed` and nowhere else.
    fn read(&mut self, into: &mut [u8]) -> Result<usize, Failed>
        ensures bound { ReadsAtMost result into.new }
        ensures bytes { ReadConsumes (left self.old) (left self.new) result into.new }
        ensures cause { HasCause (faults self.old) (faults self.new) result };
}

/// A stream of bytes that go out.
pub trait Sink {
    /// What contracts see of the sink: the bytes that it holds and those that it held at its last
    /// flush that did not fail, where it tells them, and how often it has failed. A sink that tells
    /// what it holds tells the flushed bytes after such a flush.
    ghost state: { Self → SinkState };

    /// Takes bytes off the front of the piece, and answers how many: at least one of a piece that
    /// isn't empty. After `Failed` what is held is as it was. It flushes nothing, and the count of
    /// faults rises where it answers `Failed` and nowhere else.
    fn write(&mut self, piece: &[u8]) -> Result<usize, Failed>
        ensures bound { IfOk result (λ n. n ≤ length piece.now) }
        ensures some { 0 < length piece.now → IfOk result (λ n. 0 < n) }
        ensures bytes { WriteAppends (state self.old).held (state self.new).held result piece.now }
        ensures unflushed { (state self.new).flushed ≡ (state self.old).flushed }
        ensures cause { HasCause (state self.old).faults (state self.new).faults result };

    /// Hands on all that was written, or fails. It changes no byte that is held. The count of faults
    /// rises where it answers `Failed` and nowhere else.
    fn flush(&mut self) -> Result<(), Failed>
        ensures bytes { Keeps (state self.old).held (state self.new).held }
        ensures flushed { OnOk result (IsFlushed (state self.new).held (state self.new).flushed) }
        ensures unflushed { OnErr result ((state self.new).flushed ≡ (state self.old).flushed) }
        ensures cause { HasCause (state self.old).faults (state self.new).faults result };
}
