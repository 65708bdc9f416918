//! Clients with their lines, and the table of what they hold.

use crate::lines::LineText;
use crate::phases::Phase;

/// A client with its lines.
#[derive(Drop)]
pub struct Client {
    /// All its lines.
    pub lines: Vec<LineText>,
    /// How many of them it has taken.
    pub taken: usize,
    /// Whether its stream ended in a fault.
    pub fault: bool,
    /// Where it is in its line.
    pub phase: Phase,
    /// How many entries of the log it has seen.
    pub seen: u32,
}

/// What clients hold: each lock and the turn is 0, or the number of the client that holds it.
#[derive(Drop)]
pub struct Table {
    /// The locks.
    pub locks: [u32; 64],
    /// The turn.
    pub turn: u32,
}
