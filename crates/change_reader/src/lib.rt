//! The history of a root: which entries of the operation log made or retired the root or one of its
//! ancestors, read from the records of memory.
//!
//! The walk goes back from the root. It meets only entries that belong to the answer, the newest
//! first, and looks at no other entry. An entry leads on to the roots that the ends of its changed
//! pairs had before it, if their roots after it are among those that were met.
//!
//! The promise: [`changes`] gives the entries that made or retired an ancestor of a root, as the
//! definitions answer them. It needs the whole image of a log, since it goes by changed pairs.
//!
//! - `walks`: the walk back from a root
//! - `steps`: one step of the walk
//! - `makers`: which entry made a root, and which one retired it
//! - `numbers`: ascending lists of entries and of roots
#![tactic(auto)]

mod makers;
mod numbers;
mod steps;
mod walks;

pub use walks::changes;
