ghost use Rattle.std.specs.Prelude.{◌≡◌, ◌+◌, ◌==◌, ◌≤◌, ◌<◌, min, length, take, drop, ◌++◌};
ghost use Rattle.std.specs.List.{list_any};
ghost use Rattle.std.specs.Io.{ReadsAtMost};
ghost use Rattle.std.specs.Io.KnownBytes.{ReadConsumes};
ghost use Rattle.pcg_base.specs.Causes.{HasCause, added};

use pcg_base::{Failed, Source};

/// Copies at most so many bytes from the front of one slice into another.
#[tactic(auto, using(crate::proofs::Pieces::given))]
fn give(from: &[u8], into: &mut [u8], most: usize) -> usize
    ensures count { result ≡ min (min (length from.now) most) (length into.new) }
    ensures bytes { from.now ≡ take result into.new ++ drop result from.now }
{
    let count = from.len().min(most).min(into.len());
    into[..count].copy_from_slice(&from[..count]);
    count
}

/// Whether a call's number is among those that fail.
pub(crate) fn is_named(fails: &[u32], call: u64) -> bool
    ensures { result ≡ list_any (λ f. f == call) fails.now }
{
    fails.iter().any(|fail| u64::from(*fail) == call)
}

/// Bytes in memory that are given in pieces, by calls of which chosen ones fail.
#[derive(Drop)]
pub struct MemSource {
    bytes: Vec<u8>,
    at: usize,
    piece: usize,
    fails: Vec<u32>,
    calls: u64,
    faults: u64,
    ghost within: { at ≤ length bytes.items },
    ghost some: { 0 < piece },
}

impl MemSource {
    ghost use Rattle.memory_devices.specs.Sources.{left_in, piece_of, fails_of, calls_of, faults_of};

    /// A source of these bytes that gives at most `piece` bytes a read, and whose reads fail exactly
    /// at the numbers in `fails`, counted from 1.
    pub fn new(bytes: Vec<u8>, piece: usize, fails: Vec<u32>) -> MemSource
        requires { 0 < piece }
        ensures left { left_in result ≡ bytes.items }
        ensures piece { piece_of result ≡ piece }
        ensures fails { fails_of result ≡ fails.items }
        ensures calls { calls_of result ≡ 0 }
        ensures faults { faults_of result ≡ 0 }
    {
        MemSource {
            bytes,
            at: 0,
            piece,
            fails,
            calls: 0,
            faults: 0,
        }
    }

    /// How often it has failed.
    pub fn faults(&self) -> u64
        ensures { result ≡ faults_of self.now }
    {
        self.faults
    }
}

impl Source for MemSource {
    ghost use Rattle.std.specs.Prelude.{◌≡◌, ◌==◌, min, length, IfOk, is_err, Some};
    ghost use Rattle.memory_devices.specs.Sources.{left_in, piece_of, fails_of, calls_of, faults_of};

    ghost left = { λ s. Some (left_in s) };

    ghost faults = { λ s. faults_of s };

    fn read(&mut self, into: &mut [u8]) -> Result<usize, Failed>
        ensures bound { ReadsAtMost result into.new }
        ensures bytes { ReadConsumes (Some (left_in self.old)) (Some (left_in self.new)) result
            into.new }
        ensures cause { HasCause (faults_of self.old) (faults_of self.new) result }
        ensures call { calls_of self.new ≡ added (calls_of self.old) 1 }
        ensures fails { is_err result ≡ list_any (λ f. f == calls_of self.new) (fails_of self.old) }
        ensures count { IfOk result (λ n. n
            ≡ min (min (length (left_in self.old)) (piece_of self.old)) (length into.new)) }
        ensures same_piece { piece_of self.new ≡ piece_of self.old }
        ensures same_fails { fails_of self.new ≡ fails_of self.old }
    {
        self.calls = self.calls.saturating_add(1);
        if is_named(&self.fails, self.calls) {
            self.faults = self.faults.saturating_add(1);
            return Err(Failed);
        }
        let count = give(&self.bytes[self.at..], into, self.piece);
        self.at += count;
        Ok(count)
    }
}
