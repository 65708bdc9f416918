//! What a call of the program writes to its output beside the log: one fault line, or the summary.
//!
//! The promise: each text is written exactly, or a front of it if the output failed, and behind it
//! all that the output holds is flushed. No memory is taken.
//!
//! - `status`: what a call comes to, and the number that the process ends with
//! - `stops`: why a call stops before its sessions, its status and its fault line
//! - `summary`: what a call came to that came past its sessions
#![tactic(auto)]

mod status;
mod stops;
mod summary;

pub use status::Status;
pub use stops::{FileName, Stop, write_stop};
pub use summary::{ClientFault, Fault, Summary, write_summary};
