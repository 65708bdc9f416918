//! The last line of what goes to a sink.

ghost use Rattle.std.specs.Prelude.{◌≡◌};
ghost use Rattle.fault_texts.specs.Inner.{inner};

use pcg_base::{Failed, Sink};

/// How many bytes of a line are kept.
const KEPT: usize = 2048;

/// The front of a line, at most 2,048 bytes.
#[derive(Drop)]
struct Front {
    bytes: [u8; 2048],
    len: usize,
    is_ended: bool,
}

impl Front {
    /// Goes on by bytes. A byte behind a line feed begins a new line.
    fn note(&mut self, piece: &[u8]) {
        for byte in piece {
            if self.is_ended {
                self.len = 0;
            }
            self.is_ended = *byte == b'\n';
            if self.len < KEPT {
                self.bytes[self.len] = *byte;
                self.len += 1;
            }
        }
    }
}

/// A sink that hands all on to another one. It keeps the front of the last line that it was given, whether
/// the other one took it or not.
#[derive(Drop)]
pub struct LastLine<K: Drop> {
    sink: K,
    front: Front,
    has_failed: bool,
}

impl<K: Drop> LastLine<K> {
    /// A sink that hands all on to this one, and was given nothing yet.
    pub fn new(sink: K) -> LastLine<K>
        ensures { inner result ≡ sink }
    {
        LastLine {
            sink,
            front: Front {
                bytes: [0; KEPT],
                len: 0,
                is_ended: false,
            },
            has_failed: false,
        }
    }

    /// The front of the last line, at most 2,048 bytes.
    pub fn line(&self) -> &[u8] {
        let (front, _) = self.front.bytes.split_at(self.front.len.min(KEPT));
        front
    }

    /// Whether the other sink has failed.
    pub fn has_failed(&self) -> bool {
        self.has_failed
    }
}

impl<K: Sink + Drop> Sink for LastLine<K> {
    ghost use Rattle.fault_texts.specs.Inner.{inner};

    ghost state = { λ k. K.state (inner k) };

    fn write(&mut self, piece: &[u8]) -> Result<usize, Failed> {
        match self.sink.write(piece) {
            Ok(count) => {
                let (taken, _) = piece.split_at(count);
                self.front.note(taken);
                Ok(count)
            }
            Err(Failed) => {
                self.front.note(piece);
                self.has_failed = true;
                Err(Failed)
            }
        }
    }

    fn flush(&mut self) -> Result<(), Failed> {
        if self.sink.flush().is_err() {
            self.has_failed = true;
            return Err(Failed);
        }
        Ok(())
    }
}
