//! The job of `make`.

ghost use Rattle.std.specs.Prelude.{◌≡◌, IfOk, Some, None, false, option_map};
ghost use Rattle.clap.specs.Walk.{texts};
ghost use Rattle.option_words.specs.Found.{known_of, stem_id};
ghost use Rattle.option_words.specs.Grammar.{is_known};
ghost use Rattle.option_words.specs.Spelled.{Spells, said};
ghost use Rattle.pcg_words.specs.Job.{MakeRanges};
ghost use Rattle.pcg_words.specs.Words.{MeetsMode, make_in, make_of, make_options};

use crate::files::names_differ;
use crate::job::{Job, MakeJob};
use crate::lines::{grid_in, name_in, number_in, size_in, stems_in};
use option_words::{Found, OptionRule, WordsError, read_line};
use std::alloc::Global;

/// The options of `make`.
#[tactic(auto, unfolding(crate::specs::Words::make_options))]
pub fn make_options() -> [OptionRule; 7]
    ensures is { known_of result ≡ make_options }
    ensures unnamed { is_known (known_of result) stem_id ≡ false }
{
    [
        OptionRule {
            name: "bits",
            is_required: true,
        },
        OptionRule {
            name: "grid",
            is_required: true,
        },
        OptionRule {
            name: "supervoxels",
            is_required: true,
        },
        OptionRule {
            name: "edges",
            is_required: true,
        },
        OptionRule {
            name: "from",
            is_required: true,
        },
        OptionRule {
            name: "size",
            is_required: true,
        },
        OptionRule {
            name: "requests",
            is_required: true,
        },
    ]
}

/// The job of `make` that the values of a command line spell.
#[tactic(auto, unfolding(crate::specs::Words::make_in))]
fn make_in(alloc: Global, found: &Found) -> Result<MakeJob, WordsError>
    ensures spells { Spells (make_in (said found.now)) result }
    ensures ranges { IfOk result (λ job. MakeRanges job) }
{
    let Some(bits) = number_in(found, "bits", 1, 16) else {
        return Err(WordsError::BadWords);
    };
    let Some(grid) = grid_in(found, bits) else {
        return Err(WordsError::BadWords);
    };
    let supervoxels = name_in(alloc, found, "supervoxels")?;
    let edges = name_in(alloc, found, "edges")?;
    let Some(from) = number_in(found, "from", 0, u64::MAX) else {
        return Err(WordsError::BadWords);
    };
    let Some(size) = size_in(found, bits, &grid) else {
        return Err(WordsError::BadWords);
    };
    let Some(requests) = number_in(found, "requests", 0, 100000) else {
        return Err(WordsError::BadWords);
    };
    let stems = stems_in(alloc, found)?;
    Ok(MakeJob {
        bits,
        grid,
        supervoxels,
        edges,
        from,
        size,
        requests,
        stems,
    })
}

/// The job of `make` that words spell.
#[tactic(auto, unfolding(crate::specs::Words::make_of))]
pub fn make_of(alloc: Global, words: &[&str]) -> Result<Job, WordsError>
    ensures spells { Spells (make_of (texts words.now)) result }
    ensures meets { IfOk result (λ job. MeetsMode job) }
{
    let options = make_options();
    let found = read_line(alloc, options.as_slice(), true, words)?;
    let job = make_in(alloc, &found)?;
    let Ok(differ) = names_differ(alloc, &job.supervoxels, &job.edges, None, &job.stems) else {
        return Err(WordsError::NoMemory);
    };
    if !differ {
        return Err(WordsError::BadWords);
    }
    Ok(Job::Make(job))
}
