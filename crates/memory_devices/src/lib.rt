//! What the server meets of the outside, in memory: sources and sinks that go by pieces and fail at the
//! calls that they are told to, and places of such files. Each failure is counted, and each call's
//! contract says which bytes it gives or takes, and when it fails.
//!
//! The promise: sources, sinks and places in memory tell their bytes, and meet the contracts of
//! [`pcg_base::Source`], [`pcg_base::Sink`] and [`pcg_base::Place`]. A source fails exactly at the
//! reads that are named, and a sink at the writes and the flushes that are named and at a write for
//! which it has no room left.
//!
//! - `mem_source`, `mem_sink`: streams in memory
//! - `mem_place`, `kept`: places in memory, and what they keep beside each name
#![tactic(auto)]

mod kept;
mod mem_place;
mod mem_sink;
mod mem_source;

pub use kept::MemFile;
pub use mem_place::MemPlace;
pub use mem_sink::MemSink;
pub use mem_source::MemSource;
