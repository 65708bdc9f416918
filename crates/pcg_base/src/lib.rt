//! What the server meets of the outside: streams of bytes that come in and go out, a place that
//! keeps bytes at names, a clock, and gates that a test can hold a client at; and the words of memory
//! that the server's state stands in. Each failure is counted by the object that failed, and no
//! answer `Failed` comes without its count.
//!
//! The promise: a source gives bytes from the front of what it has left, and a sink appends to
//! what it holds. After a flush that did not fail all that it holds is flushed. `Failed` comes only
//! if a count of faults rose in the same call, a call that does what was asked raises none, and no
//! count falls. A call of a place changes only its own name. [`read_all`] and [`read_name`] give all
//! bytes up to the end, or say that there are more than the limit; they end at the first fault.
//! [`write_all`] appends the whole piece, or a front of it if it fails.
//!
//! - `cutting`: texts that are cut at a byte
//! - `traits`: sources and sinks
//! - `place`: places
//! - `clock`, `gate`: times, and the points that a client passes
//! - `reading`, `writing`: whole streams and whole pieces
//! - `words`, `vec_words`: lists of words that are read, and those in a vector
#![tactic(auto)]

mod clock;
mod cutting;
mod gate;
mod place;
mod reading;
mod traits;
mod vec_words;
mod words;
mod writing;

pub use clock::{Clock, StepClock, Ticks};
pub use cutting::cut_at;
pub use gate::{Gate, OpenGate, Point};
pub use place::{Place, PlaceError};
pub use reading::{ReadError, Stream, StreamEnd, read_all, read_name, read_stream};
pub use traits::{Failed, NoMemory, Sink, Source};
pub use vec_words::VecWords;
pub use words::Words;
pub use writing::write_all;
