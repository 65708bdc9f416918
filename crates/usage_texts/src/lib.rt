//! What a person is told at a terminal whose words are no job: what is wrong with them, and how the
//! program is used. And the sentences that tell it.
//!
//! The promise: [`write_usage`] ends, and fails only if a count of the sink's faults rose. What the
//! texts say is promised nowhere.
//!
//! - `texts`: how the program is used, and what the values of its options are;
//! - `sentences`: sentences, made of parts;
//! - `uses`, `values`: what words give, and which values options may have;
//! - `wrong`: what is wrong with words;
//! - `writing`: the call.
#![tactic(auto)]

mod sentences;
mod texts;
mod uses;
mod values;
mod writing;
mod wrong;

pub use sentences::Sentence;
pub use uses::{stem_of, value_of};
pub use writing::{put_sentence, write_usage};
