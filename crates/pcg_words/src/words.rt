//! The words of the command line.

ghost use Rattle.std.specs.Prelude.{◌≡◌, IfOk, map, option_map};
ghost use Rattle.std.specs.List.{list_all};
ghost use Rattle.std.specs.Result.{result_map_both};
ghost use Rattle.std.specs.Str.{is_utf8};
ghost use Rattle.clap.specs.Walk.{texts};
ghost use Rattle.option_words.specs.Grammar.{only_if};
ghost use Rattle.option_words.specs.Spelled.{Spells};
ghost use Rattle.pcg_words.specs.Words.{MeetsMode, job_of, mode_of};

use crate::job::Job;
use crate::make::make_of;
use crate::rehearse::rehearse_of;
use crate::trial::trial_of;
use option_words::WordsError;
use std::alloc::Global;

/// The text that bytes are, if they are UTF-8.
#[tactic(auto, using(crate::proofs::Texts::is_text, crate::proofs::Texts::is_no_text))]
fn text_of(word: &[u8]) -> Option<&str>
    ensures { option_map (λ s. s.now) result ≡ only_if is_utf8 word.now }
{
    match str::from_utf8(word) {
        Ok(text) => Some(text),
        Err(_) => None,
    }
}

/// The words as texts, if they are UTF-8.
fn texts_of<'a>(alloc: Global, words: &'a [Vec<u8>]) -> Result<Vec<&'a str>, WordsError>
    ensures { Spells (only_if (list_all is_utf8) (map (λ w. w.items) words.entry.now)) (result_map_both (λ v. texts v.items) (λ e. e) result) }
{
    let mut list = Vec::new(alloc);
    for word in words {
        let Some(text) = text_of(word.as_slice()) else {
            return Err(WordsError::BadWords);
        };
        let Ok(()) = list.push(text) else {
            return Err(WordsError::NoMemory);
        };
    }
    Ok(list)
}

/// The job that texts spell, of which the first is the mode.
#[tactic(auto, unfolding(crate::specs::Words::mode_of))]
fn mode_of(alloc: Global, words: &[&str]) -> Result<Job, WordsError>
    ensures spells { Spells (mode_of (texts words.now)) result }
    ensures meets { IfOk result (λ job. MeetsMode job) }
{
    let Some((mode, rest)) = words.split_first() else {
        return Err(WordsError::BadWords);
    };
    match *mode {
        "rehearse" => rehearse_of(alloc, rest),
        "make" => make_of(alloc, rest),
        "trial" => trial_of(alloc, rest),
        _ => Err(WordsError::BadWords),
    }
}

/// The job that the words of the command line spell, without the program's name.
/// `BadWords` comes exactly if they spell none.
#[tactic(auto, unfolding(crate::specs::Words::job_of))]
pub fn read_words(alloc: Global, words: &[Vec<u8>]) -> Result<Job, WordsError>
    ensures spells { Spells (job_of words.now) result }
    ensures meets { IfOk result (λ job. MeetsMode job) }
{
    let texts = texts_of(alloc, words)?;
    mode_of(alloc, texts.as_slice())
}
