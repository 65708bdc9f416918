//! Laws of whole histories.
//!
//! The promise: over any legal log, at each published time roots are components and their leaves
//! are that component, no id of a superseded node comes back, and the live roots are counted entry
//! by entry.
//!
//! - `laws`: the laws, each the contract of a function that does nothing
#![tactic(auto)]

mod laws;

pub use laws::{ids_stay, leaves_are_joined, live_roots_are_counted, roots_are_joined};
