//! Answers from the records of memory, at any prefix of the operation log: whole replies to reads,
//! and whole entries.
//!
//! For a read of a root, a path or leaves `answer` needs no more than the records of supervoxels,
//! chunks, nodes, links and entries tell (`ParentImage` of record_rows): what the records of edges,
//! changes and items hold counts for nothing but for their kinds, so no root is computed anew from
//! the edges. One of changes goes by changed pairs, and needs the whole image. A read that is
//! refused takes no memory, and nor does one of a root or a path.
//!
//! The promise: [`answer`] gives the whole reply to each read: its first refusal, or the defined
//! answer. [`entry`] gives a whole entry of the log, with the roots that it
//! retired and made, and [`entry_at_spot`] the one whose record stands at a place. The readers of
//! nodes that this crate stands on are handed on.
//!
//! - `answers`: whole replies to reads
//! - `entries`: whole entries of the log
//! - `first_roots`: the roots of the ingest
#![tactic(auto)]

mod answers;
mod entries;
mod first_roots;

pub use answers::answer;
pub use entries::{entry, entry_at_spot};
pub use node_reader::{leaves, path_at, root_at};
