//! What all threads of one round see, and the order in which they read.

ghost use Rattle.std.specs.Prelude.{◌<◌};

use std::sync::atomic::{AtomicU64, Ordering};

/// How much further on the next word is that is read.
pub const STRIDE: u64 = 4099;

/// What all threads of one round see.
#[derive(Drop)]
pub struct Round {
    /// How many threads read.
    pub readers: usize,
    /// How many words each of them reads.
    pub loads: u64,
    /// How many of them aren't done.
    left: AtomicU64,
    /// The sum of all words that were read, so that no read is left out.
    sum: AtomicU64,
}

impl Round {
    /// A round of so many readers.
    pub fn new(readers: usize, loads: u64) -> Round {
        Round {
            readers,
            loads,
            left: AtomicU64::new(readers as u64),
            sum: AtomicU64::new(0),
        }
    }

    /// A reader is done, with this sum of its words.
    pub fn finish(&self, sum: u64) {
        self.sum.fetch_add(sum, Ordering::SeqCst);
        self.left.fetch_sub(1, Ordering::SeqCst);
    }

    /// Whether all readers are done.
    pub fn is_over(&self) -> bool {
        self.left.load(Ordering::SeqCst) == 0
    }
}

/// The number of the word that is read behind the one at `at`, among `count`.
pub fn following(at: u64, count: u64) -> u64
    requires within { at < count }
    requires many { 4099 < count }
    ensures { result < count }
{
    let rest = count - at;
    if STRIDE < rest {
        at + STRIDE
    } else {
        STRIDE - rest
    }
}
