use row_words::Spot;

/// Where a chain ends: the one empty pointer along it. It is the owner's pointer to the first
/// member where the chain has none yet, else the last member's pointer to the next.
#[derive(Clone, Copy, PartialEq, Eq, Debug, Drop)]
pub struct Tail {
    /// The record that has the pointer.
    pub spot: Spot,
    /// Which of its words the pointer is, from 4 to 7.
    pub word: u8,
}
