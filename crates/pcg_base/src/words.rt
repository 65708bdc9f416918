ghost use Rattle.std.specs.Prelude.{◌≡◌, ℕ, ◌<◌, List, length, slice_index};

/// A list of 64-bit words that can be read.
pub trait Words {
    // The words.
    ghost words: { Self → List ℕ };

    /// How many words there are.
    fn len(&self) -> u64
        ensures { result ≡ length (words self.now) };

    /// The k-th word, counted from 0. All that a contract sees stays as it was.
    fn word(&mut self, k: u64) -> u64
        requires { k < length (words self.old) }
        ensures word { result ≡ slice_index (words self.old) k }
        ensures same { self.new ≡ self.old };

    /// A hint that is kept for the record at place `k`: the place of another record, as of the newest
    /// link of a child. 0 where there is none. No clause tells of the answer: whoever takes a hint
    /// tests by the words whether it serves. So a wrong one costs time and nothing else.
    fn hint(&self, k: u64) -> u64;
}
