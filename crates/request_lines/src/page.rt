//! A page on which a text waits for its sink.

ghost use Rattle.std.specs.Prelude.{◌≡◌, ◌≤◌, ◌<◌, ◌++◌, [], length, take, false, true, codes, decimal, OnOk, OnErr};
ghost use Rattle.pcg_base.specs.Told.{IsFlushed};

use itoa::Buffer;
use node_ids::NodeId;
use pcg_base::{Failed, Sink, write_all};

/// How many bytes are written at once.
const PAGE: usize = 8192;

/// A text on its way to a sink, which is written in pieces of 8,192 bytes. Once a write has
/// failed nothing more is written, and `finish` says so.
#[derive(Drop)]
pub struct Page {
    bytes: [u8; 8192],
    len: usize,
    failed: bool,
    ghost within: { len ≤ 8192 },
}

impl Page {
    ghost use Rattle.request_lines.specs.Sent.{Puts, waiting};
    ghost use Rattle.request_lines.specs.Json.{id_text, quoted};

    /// An empty page.
    pub fn new() -> Page
        ensures empty { waiting result ≡ [] }
        ensures fresh { result.failed ≡ false }
    {
        Page {
            bytes: [0; PAGE],
            len: 0,
            failed: false,
        }
    }

    /// Copies what fits of a text, and answers how many bytes that was.
    fn fill(&mut self, text: &[u8]) -> usize
        ensures within { result ≤ length text.now }
        ensures waiting { waiting self.new ≡ waiting self.old ++ take result text.now }
        ensures failed { self.new.failed ≡ self.old.failed }
        ensures some { self.old.len < 8192 → 0 < length text.now → 0 < result }
    {
        let count = text.len().min(PAGE - self.len);
        self.bytes[self.len..self.len + count].copy_from_slice(&text[..count]);
        self.len += count;
        count
    }

    /// Sends what waits, if no write has failed.
    fn send<K: Sink>(&mut self, out: &mut K)
        ensures puts { Puts (K.state out.old) (K.state out.new) self.old self.new [] }
        ensures empty { self.new.failed ≡ false → waiting self.new ≡ [] }
        ensures room { self.new.failed ≡ false → self.new.len ≡ 0 }
    {
        if self.failed {
            return;
        }
        match write_all(out, &self.bytes[..self.len]) {
            Ok(()) => self.len = 0,
            Err(Failed) => self.failed = true,
        }
    }

    /// Sends a full page.
    #[tactic(auto, using(crate::proofs::Putting::puts_waiting))]
    fn make_room<K: Sink>(&mut self, out: &mut K)
        ensures puts { Puts (K.state out.old) (K.state out.new) self.old self.new [] }
        ensures room { self.new.failed ≡ false → self.new.len < 8192 }
    {
        if self.len == PAGE {
            self.send(out);
        }
    }

    /// Puts a piece of text behind what waits. A page that is full is sent.
    pub fn put<K: Sink>(&mut self, out: &mut K, piece: &[u8])
        ensures { Puts (K.state out.old) (K.state out.new) self.old self.new piece.now }
    {
        let mut at = 0;
        while at < piece.len() {
            self.make_room(out);
            if self.failed {
                return;
            }
            let (_, rest) = piece.split_at(at);
            at += self.fill(rest);
        }
    }

    /// Puts a piece of text and a number behind it.
    pub fn put_number<K: Sink>(&mut self, out: &mut K, piece: &[u8], number: u64)
        ensures { Puts (K.state out.old) (K.state out.new) self.old self.new (piece.now
            ++ decimal number) }
    {
        let mut digits = Buffer::new();
        self.put(out, piece);
        self.put(out, digits.format(number).as_bytes());
    }

    /// Puts a piece of text and an id, as a string, behind it.
    pub fn put_id<K: Sink>(&mut self, out: &mut K, piece: &[u8], id: NodeId)
        ensures { Puts (K.state out.old) (K.state out.new) self.old self.new (piece.now
            ++ id_text id) }
    {
        self.put(out, piece);
        self.put_number(out, b"\"", id.0);
        self.put(out, b"\"");
    }

    /// Puts a piece of text and a word, as a string, behind it.
    pub fn put_word<K: Sink>(&mut self, out: &mut K, piece: &[u8], word: &[u8])
        ensures { Puts (K.state out.old) (K.state out.new) self.old self.new (piece.now
            ++ quoted word.now) }
    {
        self.put(out, piece);
        self.put(out, b"\"");
        self.put(out, word);
        self.put(out, b"\"");
    }

    /// Sends what still waits, and flushes the sink. `Failed` says that a write or the flush failed.
    /// Else all that the sink holds is flushed.
    pub fn finish<K: Sink>(&mut self, out: &mut K) -> Result<(), Failed>
        ensures puts { Puts (K.state out.old) (K.state out.new) self.old self.new [] }
        ensures ok { OnOk result (self.new.failed ≡ false) }
        ensures err { OnErr result (self.new.failed ≡ true) }
        ensures flushed { OnOk result (IsFlushed (K.state out.new).held (K.state out.new).flushed) }
        ensures empty { self.new.failed ≡ false → waiting self.new ≡ [] }
    {
        self.send(out);
        if self.failed {
            return Err(Failed);
        }
        if out.flush().is_err() {
            self.failed = true;
            return Err(Failed);
        }
        Ok(())
    }
}
