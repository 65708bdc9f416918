ghost use Rattle.std.specs.Prelude.{◌≡◌, ◌<◌, ◌-◌, ◌≤◌, ◌∷◌, ◌++◌, [], length, slice_set, IfOk};
ghost use Rattle.pcg_base.specs.WordStores.{word_store};

use crate::traits::NoMemory;
use crate::words::Words;
use std::marker::Model;

/// A vector of 64-bit words, with room for more that was taken beforehand. Contracts see its words
/// and, beside them, for how many more there is room. For each eight words there is room for one
/// hint of 32 bits, which no contract sees.
#[derive(Debug, Drop)]
pub struct VecWords {
    items: Vec<u64>,
    // the hints of the first records; those of the others are 0
    hints: Vec<u32>,
}

impl Model for VecWords {
    ghost use Rattle.std.specs.Prelude.{vec_capacity, length, ◌-◌};
    ghost use Rattle.pcg_base.specs.WordStores.{WordStore, word_store};

    ghost Value = { WordStore };

    ghost view = { λ v. word_store v.items.items (vec_capacity v.items - length v.items.items) };
}

impl VecWords {
    /// These words, with room for at least `spare` more, and for the hints of all records.
    ///
    /// # Errors
    ///
    /// `NoMemory` where the room can't be had.
    pub fn new(words: Vec<u64>, spare: u64) -> Result<VecWords, NoMemory>
        ensures words { IfOk result (λ v. v.words ≡ words.items) }
        ensures spare { IfOk result (λ v. spare ≤ v.spare) }
    {
        let mut items = words;
        if items.reserve(spare as usize).is_err() {
            return Err(NoMemory);
        }
        let mut hints = Vec::new(*items.allocator());
        if hints.reserve(items.capacity() / 8).is_err() {
            return Err(NoMemory);
        }
        Ok(VecWords { items, hints })
    }

    /// Puts a word behind the others, for which there must be room. It takes no memory.
    pub fn push(&mut self, word: u64)
        requires { 0 < self.old.spare }
        ensures { self.new ≡ word_store (self.old.words ++ word ∷ []) (self.old.spare - 1) }
    {
        self.items.push_reserved(word);
    }

    /// Writes the k-th word, counted from 0. It takes no memory.
    pub fn set(&mut self, k: u64, word: u64)
        requires { k < length self.old.words }
        ensures { self.new ≡ word_store (slice_set self.old.words k word) self.old.spare }
    {
        self.items[k as usize] = word;
    }

    /// Keeps the place `to` as the hint for the record at place `k`, if there is room for it. It
    /// changes nothing that a contract sees, and takes no memory.
    pub fn set_hint(&mut self, k: u64, to: u64)
        ensures { self.new ≡ self.old }
    {
        keep_hint(&mut self.hints, k as usize, to);
    }
}

// writes the k-th hint, if there is room for it; the hints before it that weren't set are 0
fn keep_hint(hints: &mut Vec<u32>, k: usize, to: u64) {
    while hints.len() <= k && hints.len() < hints.capacity() {
        hints.push_reserved(0);
    }
    if k < hints.len() && to < 4294967296 {
        hints[k] = to as u32;
    }
}

impl Words for VecWords {
    ghost words = { λ v. v.words };

    fn len(&self) -> u64 {
        self.items.len() as u64
    }

    fn word(&mut self, k: u64) -> u64 {
        self.items[k as usize]
    }

    fn hint(&self, k: u64) -> u64 {
        let k = k as usize;
        if k < self.hints.len() {
            self.hints[k] as u64
        } else {
            0
        }
    }
}
