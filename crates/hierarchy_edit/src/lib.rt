//! The record rows of one more entry: from a legal plan to its draft.
//!
//! The promise: over words that stand for a log at which a plan is legal, [`remake`] gives the draft with
//! which they stand for the log with the plan's entry, or exactly the refusal of the store, the ids or
//! the clock; the words stay as they are. [`commit`] applies it. All memory of the edit is taken by
//! [`remake`]. Of an edit that makes pairs active only the children of the retired nodes are looked at,
//! of another one the leaves and active pairs of the touched objects, and of both what the entry's
//! records are chained to.
//!
//! - `committing`: an entry put into the words
//! - `counting`: how many records an entry needs, and how many are left
//! - `drafting`: the draft of an entry that nothing refuses
//! - `listing`: what an entry is made of
//! - `refusing`: what the store, the ids or the clock refuse
//! - `remaking`: from a legal plan to the draft of its entry
//! - `standing`: what stands before an entry, and what it makes
#![tactic(auto)]

mod committing;
mod counting;
mod drafting;
mod listing;
mod refusing;
mod remaking;
mod standing;

pub use committing::commit;
pub use listing::{Listed, list_entry};
pub use remaking::{Remade, Stamp, remake};
