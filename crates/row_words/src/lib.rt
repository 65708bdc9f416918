//! The words of record rows: single words and pointers, the supervoxel of an id, and new records on
//! their way into the words.
//!
//! A record has eight words, four fixed ones and then four pointers to other records. A `Spot` is
//! a record's place: how many records stand before it.
//!
//! The promise: [`kind_of`], [`fixed`] and [`pointer`] tell the words of a record exactly.
//! [`find_sorted`] finds an id among ascending ones, or says that it isn't there. A [`Draft`]
//! holds exactly what was put into it. [`apply`] gives the words with the draft's links filled,
//! of which the last one of a pointer counts, and its rows behind them.
//!
//! - `applying`: the words with a draft applied
//! - `draft`: new records on their way into the words
//! - `probing`: where a search probes next
//! - `rows`: the words of one record
//! - `searching`: the id of a record, and the record of an id, where ids ascend
//! - `skips`: hints by which a reader skips along the links of one child
#![tactic(auto)]

mod applying;
mod draft;
mod probing;
mod rows;
mod searching;
mod skips;
mod spot;

pub use applying::apply;
pub use draft::{Draft, DraftLink};
pub use probing::probe;
pub use rows::{fixed, kind_of, pointer};
pub use searching::{find_sorted, id_of, supervoxel};
pub use spot::Spot;
