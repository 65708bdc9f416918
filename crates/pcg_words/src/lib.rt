//! The words of the command line, and the job that they spell.
//!
//! [`read_words`] answers the job of the words exactly, or that they spell none. The first word is the
//! mode. Behind it stand the mode's options and stems in any order, in the grammar of `option_words`:
//! `--name value` or `--name=value`, each option at most once, `--` behind the last option. Words are
//! UTF-8. Numbers are decimal digits without a sign or a leading zero. No value and no stem is empty
//! or begins with a hyphen, and no two files of a job have one name.
//!
//! A mode that the program can't do yet spells no job.
#![tactic(auto)]

mod files;
mod job;
mod lines;
mod make;
mod rehearse;
mod trial;
mod values;
mod words;

pub use files::{answer_file, request_file};
pub use job::{Job, MakeJob, Name, Names, RehearseJob, TrialJob};
pub use make::make_options;
pub use option_words::WordsError;
pub use rehearse::rehearse_options;
pub use trial::trial_options;
pub use words::read_words;
