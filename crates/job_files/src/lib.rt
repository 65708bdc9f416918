//! The files of a job's clients at a place: requests are opened, read and kept back, and answers are
//! opened and kept back.
//!
//! The promise: all requests are opened before any answers are, and all answers before a request is
//! read. Each stream's lines are told, and each file that was opened is kept back, whatever comes
//! between. What a place has at each name afterwards is said by `specs/Kept.antt`.
//!
//! - `names`: the names of the files
//! - `opening`: requests and answers are opened
//! - `reading`: the lines of all requests
//! - `keeping`: files are kept back
//! - `laws`: what a place has behind files that were kept back
#![tactic(auto)]

mod keeping;
mod laws;
mod names;
mod opening;
mod reading;

pub use keeping::{keep_answers, keep_requests};
pub use laws::{answers_are_emptied, sinks_are_kept, sources_are_kept};
pub use names::{ClientFiles, client_files};
pub use opening::{OpenFault, open_answers, open_requests};
pub use reading::read_requests;
