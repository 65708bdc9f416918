//! Where the replies of many clients go: a sink for each client, and what was written to it.
//!
//! The promise: [`play`] runs the core to the end of all clients, and each client's replies are
//! written to its sink and to no other, in order, and counted. Once the writing of one has failed
//! that client has ended, so no more follow; where none has, each of its lines has its reply. Each
//! entry of the log but the first is of one of the clients.
//!
//! - `answers`: the answers of clients
//! - `playing`: a run of the core whose replies are written
#![tactic(auto)]

mod answers;
mod playing;

pub use answers::{AllAnswers, ClientAnswers};
pub use playing::play;
