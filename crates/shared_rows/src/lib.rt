//! Record rows that the clients of a running server share, over one table of atomic words.
//!
//! Each client has a [`Pass`]. Its `View` is what it knows: the log that it saw last, the words of
//! that log's records, the locks that it holds, and the entries that it published. Every load and
//! every store is one sequentially consistent step on one word of the table.
//!
//! The promise: between any two steps of all threads the rule of `specs/Rule.antt` holds. Its six
//! parts are read aloud in `docs/DEFINITIONS.md`.
//! - [`Shared::look`] is one load. The log that it sees begins with the one that the pass saw before,
//!   and the entries in between retired no root whose lock the pass had pinned.
//! - [`Shared::image`] gives the words of the log seen, whatever others store or publish meanwhile.
//! - What [`Shared::draft`] stores is seen by no other pass until [`Shared::publish`], which puts
//!   exactly one entry of the pass's number behind the whole log.
//! - A lock is held by one pass at most. [`Shared::look_pinned`] pins the locks that a pass holds.
//! - [`Shared::close`] gives the words of the one log: what each pass saw is a prefix of it, and its
//!   entries by number are those that the passes published.
//!
//! Only `take_turn` may wait, and only `start` takes memory.
//!
//! - `view`: what a pass knows
//! - `pass`: a pass, and the table
//! - `start`: the table and its passes are made
//! - `shared`: the calls
//! - `image`: the words that a pass saw
//! - `drafting`: the records of an entry are stored, word by word
//! - `steps`: the steps on the table; `plays`: what each of them tells
#![tactic(auto)]

mod drafting;
mod image;
mod pass;
mod plays;
mod shared;
mod start;
mod steps;
mod view;

pub use image::Image;
pub use pass::{About, Pass, Rows, Shared, Sharing};
pub use start::Started;
pub use view::{Old, View};
