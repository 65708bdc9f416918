//! Lines of a client's stream.

/// A line of a client's stream, without its line feed.
#[derive(Debug, Drop)]
pub enum LineText {
    /// Its bytes, at most 65,536.
    Bytes(Vec<u8>),
    /// How many bytes it has, which is over 65,536. They were skipped.
    Long(u64),
}
