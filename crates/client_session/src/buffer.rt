//! The bytes of a stream that were taken and not yet given.

ghost use Rattle.std.specs.Prelude.{◌≡◌, ◌==◌, ◌+◌, ◌-◌, ◌*◌, ◌^◌, ◌<◌, ◌≤◌, ◌⊎◌, ℕ, List, [], ◌++◌, length, take, drop, Bool, true, false, slice_range, IfOk, OnErr, IfSome, IfNone};
ghost use Rattle.std.specs.List.{list_any};
ghost use Rattle.std.specs.Io.KnownBytes.{Consumes, ReadConsumes, Keeps, IsAtEnd};
ghost use Rattle.pcg_base.specs.Causes.{Rose, HasCause};
ghost use Rattle.client_session.specs.Feeds.{NoFeed, FeedAt};
ghost use Rattle.client_session.specs.Finding.{Finds, is_fault};

use crate::feeds::first_feed;
use crate::found::Found;
use pcg_base::{Failed, NoMemory, Source};
use std::alloc::Global;

/// The bytes of the buffer: the longest line has room, and behind it as many more.
const SIZE: usize = 131072;

/// The most bytes of a line.
const LINE_LIMIT: u64 = 65536;

/// The most bytes of a stream.
const STREAM_LIMIT: u64 = 1073741824;

/// The bytes that were taken and not yet given stand from `start` to `end`. `taken` counts all that
/// were taken, and `over` says that the stream was read to its end and given.
#[derive(Debug, Drop)]
pub(crate) struct LineBuffer {
    bytes: Vec<u8>,
    start: usize,
    end: usize,
    taken: u64,
    over: bool,
    ghost size: { length bytes.items ≡ 131072 },
    ghost ordered: { start ≤ end },
    ghost within: { end ≤ 131072 },
    ghost counted: { end ≤ start + taken },
    ghost bounded: { taken ≤ 1073872896 },
    ghost emptied: { over ≡ true → start ≡ end },
}

/// Reads into the bytes from `end` on.
fn read_behind<S: Source>(bytes: &mut Vec<u8>, end: usize, source: &mut S) -> Result<usize, Failed>
    requires within { end ≤ length bytes.old.items }
    ensures size { length bytes.new.items ≡ length bytes.old.items }
    ensures front { take end bytes.new.items ≡ take end bytes.old.items }
    ensures bound { IfOk result (λ n. n ≤ length (drop end bytes.new.items)) }
    ensures read { ReadConsumes (S.left source.old) (S.left source.new) result (drop end bytes.new.items) }
    ensures cause { HasCause (S.faults source.old) (S.faults source.new) result }
{
    let (_, room) = bytes.as_mut_slice().split_at_mut(end);
    source.read(room)
}

impl LineBuffer {
    ghost use Rattle.client_session.specs.Buffers.{waiting, given};

    /// An empty buffer, with all the memory that it ever takes.
    pub(crate) fn new(alloc: Global) -> Result<LineBuffer, NoMemory>
        ensures waiting { IfOk result (λ b. waiting b ≡ []) }
        ensures taken { IfOk result (λ b. b.taken ≡ 0) }
        ensures over { IfOk result (λ b. b.over ≡ false) }
    {
        let Ok(bytes) = vec![in alloc; 0u8; SIZE] else {
            return Err(NoMemory);
        };
        Ok(LineBuffer {
            bytes,
            start: 0,
            end: 0,
            taken: 0,
            over: false,
        })
    }

    /// Some of the buffer's bytes.
    pub(crate) fn part(&self, from: usize, to: usize) -> &[u8]
        requires ordered { from ≤ to }
        requires within { to ≤ length self.now.bytes.items }
        ensures { result.now ≡ slice_range self.now.bytes.items from to }
    {
        &self.bytes[from..to]
    }

    /// The index of the first line feed in what waits, of which the first `looked` bytes have none.
    fn feed(&self, looked: usize) -> Option<usize>
        requires within { looked ≤ length (waiting self.now) }
        requires none { NoFeed (take looked (waiting self.now)) }
        ensures some { IfSome result (λ at. FeedAt at (waiting self.now)) }
        ensures none { IfNone result (NoFeed (waiting self.now)) }
    {
        first_feed(&self.bytes[self.start..self.end], looked)
    }

    /// Moves what waits to the front of the buffer.
    fn move_to_front(&mut self)
        ensures waiting { waiting self.new ≡ waiting self.old }
        ensures end { self.new.end ≡ self.old.end - self.old.start }
        ensures start { self.new.start ≡ 0 }
        ensures taken { self.new.taken ≡ self.old.taken }
        ensures over { self.new.over ≡ self.old.over }
    {
        let (start, end) = (self.start, self.end);
        self.bytes.copy_within(start..end, 0);
        self.start = 0;
        self.end = end - start;
    }

    /// Makes room for a read. What waits is let go if it is longer than a line may be. Answers how
    /// many bytes were let go.
    fn set_aside(&mut self) -> u64
        ensures kept { result ≡ 0 → waiting self.new ≡ waiting self.old }
        ensures gone { 0 < result → (waiting self.new ≡ []) × (result ≡ length (waiting self.old)) × (65536 < result) }
        ensures room { self.new.end ≤ 65536 }
        ensures taken { self.new.taken ≡ self.old.taken }
        ensures over { self.new.over ≡ self.old.over }
    {
        let count = (self.end - self.start) as u64;
        if count > LINE_LIMIT {
            self.start = 0;
            self.end = 0;
            return count;
        }
        if self.start > 0 {
            self.move_to_front();
        }
        0
    }

    /// Reads into the room behind what waits.
    fn take_more<S: Source>(&mut self, source: &mut S) -> Result<usize, Failed>
        requires room { self.old.end < 131072 }
        requires unended { self.old.over ≡ false }
        requires limit { self.old.taken ≤ 2 ^ 30 }
        ensures ok { IfOk result (λ n. (more : List ℕ) × (length more ≡ n) × (waiting self.new ≡ waiting self.old ++ more) × Consumes (S.left source.old) (S.left source.new) more) }
        ensures taken { IfOk result (λ n. self.new.taken ≡ self.old.taken + n) }
        ensures end { IfOk result (λ n. n ≡ 0 → IsAtEnd (S.left source.new)) }
        ensures err { OnErr result (self.new.taken ≡ self.old.taken) }
        ensures kept { OnErr result (waiting self.new ≡ waiting self.old) }
        ensures left { OnErr result (Keeps (S.left source.old) (S.left source.new)) }
        ensures over { self.new.over ≡ self.old.over }
        ensures start { self.new.start ≡ self.old.start }
        ensures cause { HasCause (S.faults source.old) (S.faults source.new) result }
    {
        let count = read_behind(&mut self.bytes, self.end, source)?;
        self.end += count;
        self.taken += count as u64;
        Ok(count)
    }

    /// Takes the line that ends at this index of what waits, behind `skipped` bytes that were let go.
    fn cut(&mut self, skipped: u64, at: usize) -> Found
        requires feed { FeedAt at (waiting self.old) }
        requires all { skipped ≤ given self.old }
        requires long { (skipped ≡ 0) ⊎ (65536 < skipped) }
        requires unended { self.old.over ≡ false }
        ensures taken { self.new.taken ≡ self.old.taken }
        ensures found { (gone left : _) (before now : ℕ) → length gone ≡ skipped → NoFeed gone
            → Finds result self.new.bytes.items (given self.old - skipped) (gone ++ waiting self.old) (waiting self.new) false self.new.over left before now }
    {
        let given = self.taken - (self.end - self.start) as u64;
        let from = self.start;
        let size = skipped + at as u64;
        if given + at as u64 >= STREAM_LIMIT {
            return Found::TooLong;
        }
        self.start = from + at + 1;
        if size > LINE_LIMIT {
            return Found::Long(size);
        }
        Found::Line {
            from,
            to: from + at,
        }
    }

    /// Takes what the end of the stream leaves, behind `skipped` bytes that were let go.
    fn last(&mut self, skipped: u64) -> Found
        requires none { NoFeed (waiting self.old) }
        requires all { skipped ≤ given self.old }
        requires limit { self.old.taken ≤ 2 ^ 30 }
        requires long { (skipped ≡ 0) ⊎ (65536 < skipped) }
        requires unended { self.old.over ≡ false }
        ensures taken { self.new.taken ≡ self.old.taken }
        ensures found { (gone left : _) (before now : ℕ) → length gone ≡ skipped → NoFeed gone → IsAtEnd left
            → Finds result self.new.bytes.items (given self.old - skipped) (gone ++ waiting self.old) (waiting self.new) false self.new.over left before now }
    {
        let (from, to) = (self.start, self.end);
        let count = skipped + (to - from) as u64;
        self.start = to;
        self.over = true;
        if count == 0 {
            return Found::End;
        }
        if count > LINE_LIMIT {
            return Found::Long(count);
        }
        Found::Line { from, to }
    }

    /// Looks for the next line in what waits, and then in what it reads.
    pub(crate) fn next<S: Source>(&mut self, source: &mut S) -> Found
        ensures found { (read : List ℕ) × Consumes (S.left source.old) (S.left source.new) read
            × (self.new.taken ≡ self.old.taken + length read)
            × Finds result self.new.bytes.items (given self.old) (waiting self.old ++ read) (waiting self.new) self.old.over self.new.over (S.left source.new) (S.faults source.old) (S.faults source.new) }
        ensures closed { self.old.over ≡ true → result ≡ Found.End }
        ensures first { list_any (λ b. b == 10) (waiting self.old) ≡ true → source.new ≡ source.old }
        ensures later { S.faults source.old ≤ S.faults source.new }
        ensures still { is_fault result ≡ false → S.faults source.new ≡ S.faults source.old }
    {
        if self.over {
            return Found::End;
        }
        if let Some(at) = self.feed(0) {
            return self.cut(0, at);
        }
        let mut skipped = 0;
        while self.taken <= STREAM_LIMIT {
            skipped += self.set_aside();
            let held = self.end - self.start;
            match self.take_more(source) {
                Err(_) => return Found::ReadFault,
                Ok(0) => return self.last(skipped),
                Ok(_) => {}
            }
            if let Some(at) = self.feed(held) {
                return self.cut(skipped, at);
            }
        }
        Found::TooLong
    }
}
