//! What a trial begins with.

ghost use Rattle.std.specs.Prelude.{◌≡◌, ◌≤◌, ◌*◌, length, map, IfErr, IfOk, OnOk};
ghost use Rattle.chunk_geometry.specs.Cells.{Cells};
ghost use Rattle.made_input.specs.Edges.{IsWish};
ghost use Rattle.pcg_words.specs.Job.{IsTrial};
ghost use Rattle.trials.specs.Starts.{IsStarted};
ghost use Rattle.trials.specs.Trials.{TrialStop, wish_of};

use call_lines::Stop;
use job_tables::{dataset_with, words_of};
use made_bases::{BaseAndStreams, base_and_streams};
use made_input::Wish;
use node_ids::Layout;
use op_model::Dataset;
use pcg_base::VecWords;
use pcg_words::TrialJob;
use std::alloc::Global;

/// What a trial begins with.
#[derive(Drop)]
pub(crate) struct Start {
    /// What is fixed for the log.
    pub dataset: Dataset,
    /// The words of the base's first entry, with room for all records of the capacity.
    pub words: VecWords,
    /// The clients' request streams, in order.
    pub streams: Vec<Vec<u8>>,
}

/// What input a trial wishes for.
#[tactic(auto, unfolding(crate::specs::Trials::wish_of, pcg_words::specs::Job::most_supervoxels))]
fn wish_of(job: &TrialJob) -> Wish
    requires { IsTrial job.now }
    ensures is { result ≡ wish_of job.now }
    ensures fits { IsWish result }
{
    let layout = Layout::new(job.bits as u8).unwrap();
    Wish {
        layout,
        grid: job.grid,
        number: job.from,
        size: job.size as u32,
        clients: job.clients as u32,
        requests: job.requests as u32,
    }
}

/// Makes the input of a trial, and the words of its base. The tables are let go before the words are
/// made, and the base behind them.
pub(crate) fn make_start(alloc: Global, job: &TrialJob) -> Result<Start, Stop>
    requires { IsTrial job.now }
    ensures started { IfOk result (IsStarted job.now) }
    ensures stop { IfErr result (TrialStop job.now) }
{
    let wish = wish_of(job);
    let dataset = dataset_with(job.bits, job.grid, job.merge_affinity, job.records);
    let Ok(made) = base_and_streams(alloc, &wish, &dataset) else {
        return Err(Stop::NoMemory);
    };
    let BaseAndStreams { base, streams } = made;
    match words_of(alloc, &dataset, base, &job.clock) {
        Ok(words) => Ok(Start {
            dataset,
            words,
            streams,
        }),
        Err(stop) => Err(stop),
    }
}
