//! Sentences, made of parts.

/// How many parts a sentence may have.
const MOST: usize = 12;

/// A sentence: at most 12 parts, one behind the other. It takes no memory.
#[derive(Clone, Copy)]
pub struct Sentence<'a> {
    parts: [&'a [u8]; 12],
    count: usize,
}

impl<'a> Sentence<'a> {
    /// A sentence of one part.
    pub fn new(part: &'a [u8]) -> Sentence<'a> {
        Sentence {
            parts: [part; MOST],
            count: 1,
        }
    }

    /// The sentence with a part behind it, or as it was if it has 12 parts.
    pub fn and(mut self, part: &'a [u8]) -> Sentence<'a> {
        if self.count < MOST {
            self.parts[self.count] = part;
            self.count += 1;
        }
        self
    }

    /// Its parts.
    pub fn parts(&self) -> &[&'a [u8]] {
        let (front, _) = self.parts.split_at(self.count.min(MOST));
        front
    }
}
