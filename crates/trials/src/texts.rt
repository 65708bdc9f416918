//! The lines of texts that are held in memory.

ghost use Rattle.std.specs.Prelude.{◌≡◌, ◌≤◌, ◌++◌, drop, length, map, min, take, IfOk};
ghost use Rattle.trials.specs.Starts.{AreWhole, IsWhole};

use pcg_base::{Failed, NoMemory, Source};
use std::alloc::Global;
use stream_lines::{SourceRead, StreamLines, read_source};

/// A text that is read from its beginning on. No read fails.
#[derive(Drop)]
struct Text {
    /// All bytes.
    bytes: Vec<u8>,
    /// How many of them were read.
    at: usize,
    ghost within: { at ≤ length bytes.items },
}

impl Source for Text {
    ghost use Rattle.std.specs.Prelude.{drop, Some};

    ghost left = { λ t. Some (drop t.at t.bytes.items) };

    ghost faults = { λ _. 0 };

    fn read(&mut self, into: &mut [u8]) -> Result<usize, Failed> {
        let count = give(&self.bytes[self.at..], into);
        self.at += count;
        Ok(count)
    }
}

/// Copies bytes from the front of one slice into another, as many as fit.
fn give(from: &[u8], into: &mut [u8]) -> usize
    ensures count { result ≡ min (length from.now) (length into.new) }
    ensures bytes { from.now ≡ take result into.new ++ drop result from.now }
{
    let count = from.len().min(into.len());
    into[..count].copy_from_slice(&from[..count]);
    count
}

/// All lines of a text. One of more than 1,073,741,824 bytes counts as memory that isn't there; no
/// stream that is made is that long.
fn lines_of(alloc: Global, bytes: Vec<u8>) -> Result<StreamLines, NoMemory>
    ensures { IfOk result (IsWhole bytes.items) }
{
    if bytes.len() > 1_073_741_824 {
        return Err(NoMemory);
    }
    let SourceRead { lines, .. } = read_source(alloc, Text { bytes, at: 0 });
    lines
}

/// All lines of each of these texts. A text is let go when its lines were read.
pub(crate) fn all_lines(alloc: Global, texts: Vec<Vec<u8>>) -> Result<Vec<StreamLines>, NoMemory>
    ensures { IfOk result (λ read. AreWhole (map (λ v. v.items) texts.items) read.items) }
{
    let mut list = Vec::new(alloc);
    for bytes in texts {
        let lines = lines_of(alloc, bytes)?;
        let Ok(()) = list.push(lines) else {
            return Err(NoMemory);
        };
    }
    Ok(list)
}
