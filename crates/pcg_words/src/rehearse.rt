//! The job of a rehearsal.

ghost use Rattle.std.specs.Prelude.{◌≡◌, IfOk, Some, None, false, option_map};
ghost use Rattle.clap.specs.Walk.{texts};
ghost use Rattle.option_words.specs.Found.{known_of, stem_id};
ghost use Rattle.option_words.specs.Grammar.{is_known};
ghost use Rattle.option_words.specs.Spelled.{Spells, said};
ghost use Rattle.pcg_words.specs.Job.{RehearseRanges};
ghost use Rattle.pcg_words.specs.Words.{MeetsMode, rehearse_in, rehearse_of, rehearse_options};

use crate::files::names_differ;
use crate::job::{Job, RehearseJob};
use crate::lines::{clock_in, grid_in, name_in, number_in, records_in, schedule_in, stems_in};
use option_words::{Found, OptionRule, WordsError, read_line};
use std::alloc::Global;

/// The options of `rehearse`.
#[tactic(auto, unfolding(crate::specs::Words::rehearse_options))]
pub fn rehearse_options() -> [OptionRule; 8]
    ensures is { known_of result ≡ rehearse_options }
    ensures unnamed { is_known (known_of result) stem_id ≡ false }
{
    [
        OptionRule {
            name: "bits",
            is_required: true,
        },
        OptionRule {
            name: "grid",
            is_required: true,
        },
        OptionRule {
            name: "supervoxels",
            is_required: true,
        },
        OptionRule {
            name: "edges",
            is_required: true,
        },
        OptionRule {
            name: "merge-affinity",
            is_required: true,
        },
        OptionRule {
            name: "records",
            is_required: false,
        },
        OptionRule {
            name: "clock",
            is_required: true,
        },
        OptionRule {
            name: "schedule",
            is_required: false,
        },
    ]
}

/// The job of `rehearse` that the values of a command line spell.
#[tactic(auto, unfolding(crate::specs::Words::rehearse_in))]
fn rehearse_in(alloc: Global, found: &Found) -> Result<RehearseJob, WordsError>
    ensures spells { Spells (rehearse_in (said found.now)) result }
    ensures ranges { IfOk result (λ job. RehearseRanges job) }
{
    let Some(bits) = number_in(found, "bits", 1, 16) else {
        return Err(WordsError::BadWords);
    };
    let Some(grid) = grid_in(found, bits) else {
        return Err(WordsError::BadWords);
    };
    let supervoxels = name_in(alloc, found, "supervoxels")?;
    let edges = name_in(alloc, found, "edges")?;
    let Some(merge_affinity) = number_in(found, "merge-affinity", 1, 4294967295) else {
        return Err(WordsError::BadWords);
    };
    let Some(records) = records_in(found) else {
        return Err(WordsError::BadWords);
    };
    let Some(clock) = clock_in(found) else {
        return Err(WordsError::BadWords);
    };
    let schedule = schedule_in(alloc, found)?;
    let stems = stems_in(alloc, found)?;
    Ok(RehearseJob {
        bits,
        grid,
        supervoxels,
        edges,
        merge_affinity,
        records,
        clock,
        schedule,
        stems,
    })
}

/// The job of `rehearse` that words spell.
#[tactic(auto, unfolding(crate::specs::Words::rehearse_of))]
pub fn rehearse_of(alloc: Global, words: &[&str]) -> Result<Job, WordsError>
    ensures spells { Spells (rehearse_of (texts words.now)) result }
    ensures meets { IfOk result (λ job. MeetsMode job) }
{
    let options = rehearse_options();
    let found = read_line(alloc, options.as_slice(), true, words)?;
    let job = rehearse_in(alloc, &found)?;
    let Ok(differ) = names_differ(
        alloc,
        &job.supervoxels,
        &job.edges,
        job.schedule.as_ref(),
        &job.stems,
    ) else {
        return Err(WordsError::NoMemory);
    };
    if !differ {
        return Err(WordsError::BadWords);
    }
    Ok(Job::Rehearse(job))
}
