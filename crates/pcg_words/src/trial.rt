//! The job of `trial`.

ghost use Rattle.std.specs.Prelude.{◌≡◌, IfOk, false};
ghost use Rattle.clap.specs.Walk.{texts};
ghost use Rattle.option_words.specs.Found.{known_of, stem_id};
ghost use Rattle.option_words.specs.Grammar.{is_known};
ghost use Rattle.option_words.specs.Spelled.{Spells, said};
ghost use Rattle.pcg_words.specs.Job.{IsTrial};
ghost use Rattle.pcg_words.specs.Words.{MeetsMode, trial_in, trial_of, trial_options};

use crate::job::{Job, TrialJob};
use crate::lines::{clock_in, grid_in, number_in, records_in, size_in};
use option_words::{Found, OptionRule, WordsError, read_line};
use std::alloc::Global;

/// The options of `trial`.
#[tactic(auto, unfolding(crate::specs::Words::trial_options))]
pub fn trial_options() -> [OptionRule; 9]
    ensures is { known_of result ≡ trial_options }
    ensures unnamed { is_known (known_of result) stem_id ≡ false }
{
    [
        OptionRule {
            name: "bits",
            is_required: true,
        },
        OptionRule {
            name: "grid",
            is_required: true,
        },
        OptionRule {
            name: "merge-affinity",
            is_required: true,
        },
        OptionRule {
            name: "records",
            is_required: false,
        },
        OptionRule {
            name: "clock",
            is_required: true,
        },
        OptionRule {
            name: "from",
            is_required: true,
        },
        OptionRule {
            name: "size",
            is_required: true,
        },
        OptionRule {
            name: "requests",
            is_required: true,
        },
        OptionRule {
            name: "clients",
            is_required: true,
        },
    ]
}

/// The job of `trial` that the values of a command line spell.
#[tactic(auto, unfolding(crate::specs::Words::trial_in))]
fn trial_in(found: &Found) -> Result<TrialJob, WordsError>
    ensures spells { Spells (trial_in (said found.now)) result }
    ensures ranges { IfOk result (λ job. IsTrial job) }
{
    let Some(bits) = number_in(found, "bits", 1, 16) else {
        return Err(WordsError::BadWords);
    };
    let Some(grid) = grid_in(found, bits) else {
        return Err(WordsError::BadWords);
    };
    let Some(merge_affinity) = number_in(found, "merge-affinity", 1, 4294967295) else {
        return Err(WordsError::BadWords);
    };
    let Some(records) = records_in(found) else {
        return Err(WordsError::BadWords);
    };
    let Some(clock) = clock_in(found) else {
        return Err(WordsError::BadWords);
    };
    let Some(from) = number_in(found, "from", 0, u64::MAX) else {
        return Err(WordsError::BadWords);
    };
    let Some(size) = size_in(found, bits, &grid) else {
        return Err(WordsError::BadWords);
    };
    let Some(requests) = number_in(found, "requests", 0, 100000) else {
        return Err(WordsError::BadWords);
    };
    let Some(clients) = number_in(found, "clients", 1, 64) else {
        return Err(WordsError::BadWords);
    };
    Ok(TrialJob {
        bits,
        grid,
        merge_affinity,
        records,
        clock,
        from,
        size,
        requests,
        clients,
    })
}

/// The job of `trial` that words spell.
#[tactic(auto, unfolding(crate::specs::Words::trial_of))]
pub fn trial_of(alloc: Global, words: &[&str]) -> Result<Job, WordsError>
    ensures spells { Spells (trial_of (texts words.now)) result }
    ensures meets { IfOk result (λ job. MeetsMode job) }
{
    let options = trial_options();
    let found = read_line(alloc, options.as_slice(), false, words)?;
    let job = trial_in(&found)?;
    Ok(Job::Trial(job))
}
