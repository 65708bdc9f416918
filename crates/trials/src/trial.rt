//! A trial, step by step.

ghost use Rattle.std.specs.Prelude.{◌≡◌, ◌≤◌, IfErr, IfOk};
ghost use Rattle.pcg_base.specs.Told.{IsFlushed};
ghost use Rattle.pcg_words.specs.Job.{IsTrial};
ghost use Rattle.call_lines.specs.declared.status.Status.TheVariants as statuses;
ghost use Rattle.call_lines.specs.Texts.{summary_text};
ghost use Rattle.rehearsal.specs.Between.{states};
ghost use Rattle.trials.specs.Trials.{IsTried, TrialOutcome, TrialStop};

use crate::playing::{play, summary_from};
use crate::printing::print;
use crate::starting::make_start;
use call_lines::{Status, Stop, Summary};
use pcg_base::Sink;
use pcg_words::TrialJob;
use rehearsal::stopped;
use std::alloc::Global;

/// Goes through the steps of a trial up to its summary.
fn try_out(alloc: Global, job: &TrialJob) -> Result<Summary, Stop>
    requires { IsTrial job.now }
    ensures tried { IfOk result (λ s. IsTried job.now (summary_text s)) }
    ensures stop { IfErr result (TrialStop job.now) }
{
    let start = match make_start(alloc, job) {
        Ok(start) => start,
        Err(stop) => return Err(stop),
    };
    let Ok(done) = play(alloc, job.clock, start) else {
        return Err(Stop::NoMemory);
    };
    match summary_from(alloc, job.clients as u32, done) {
        Ok(summary) => Ok(summary),
        Err(_) => Err(Stop::NoMemory),
    }
}

/// Makes input from a number and answers it at once, by no schedule, and writes the summary to `out`,
/// or one fault line. It opens no file, and the replies and the log's lines go nowhere. The answer is
/// the status:
///
/// - 0: done;
/// - 4: `out` failed;
/// - 5: memory ran out;
/// - 6: a chunk of the made base has more nodes than its ids have numbers, or the base needs more
///   records than the capacity.
pub fn run_trial<K: Sink>(alloc: Global, job: &TrialJob, out: &mut K) -> Status
    requires { IsTrial job.now }
    ensures outcome { TrialOutcome job.now (states K.state out.old out.new) result }
    ensures flushed { result ≡ statuses.Done
        → IsFlushed (K.state out.new).held (K.state out.new).flushed }
    ensures later { (K.state out.old).faults ≤ (K.state out.new).faults }
{
    match try_out(alloc, job) {
        Ok(summary) => print(&summary, out),
        Err(stop) => stopped(stop, out),
    }
}
