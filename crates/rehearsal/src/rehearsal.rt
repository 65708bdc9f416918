//! A rehearsal, step by step.

ghost use Rattle.std.specs.Prelude.{◌≡◌, ◌≤◌, IfErr, IfOk};
ghost use Rattle.pcg_base.specs.Told.{IsFlushed};
ghost use Rattle.pcg_words.specs.Job.{IsRehearse};
ghost use Rattle.call_lines.specs.declared.status.Status.TheVariants as statuses;
ghost use Rattle.job_files.specs.Kept.{KeepsOther};
ghost use Rattle.job_files.specs.Places.{IsLater};
ghost use Rattle.rehearsal.specs.Between.{states};
ghost use Rattle.rehearsal.specs.Outcomes.{Outcome, StopCause, answers_of};
ghost use Rattle.rehearsal.specs.Served.{IsServed};

use crate::clients::run_clients;
use crate::printing::{finish, stopped};
use call_lines::{Status, Stop};
use job_tables::read_input;
use pcg_base::{Place, Sink};
use pcg_words::RehearseJob;
use session_results::SessionsDone;
use std::alloc::Global;

/// Goes through the steps of a rehearsal up to the end of its sessions.
fn rehearse<P: Place>(alloc: Global, job: &RehearseJob, place: &mut P) -> Result<SessionsDone, Stop>
where
    P::In: Drop,
    P::Out: Drop,
    requires { IsRehearse job.now }
    ensures stop { IfErr result (StopCause job.now (P.state place.old) (P.state place.new)) }
    ensures served { IfOk result (IsServed job.now (P.state place.old) (P.state place.new)) }
    ensures others { KeepsOther (P.state place.old).files (answers_of job.now)
        (P.state place.new).files }
    ensures later { IsLater (P.state place.old) (P.state place.new) }
{
    let input = match read_input(alloc, job, place) {
        Ok(input) => input,
        Err(stop) => return Err(stop),
    };
    run_clients(alloc, job, input, place)
}

/// Answers the request streams of a rehearsal by its schedule, and writes its log and summary to
/// `out`, or one fault line where it stops before its sessions. The answer is the status:
///
/// - 0: done;
/// - 2: a read or an opening for reading failed;
/// - 3: a record of a table has a cause, or a word of the schedule is no client's number; the
///   tables come first;
/// - 4: a write or an opening for writing failed, or `out` did;
/// - 5: memory ran out;
/// - 6: the tables spell a base of which a chunk has more nodes than its ids have numbers, or which
///   needs more records than the capacity;
/// - 7: a table, the schedule or a client's requests have over 1,073,741,824 bytes.
///
/// Where a session ended in a fault the status is that of the least such client. The fault of `out`
/// comes behind it.
pub fn run_rehearse<P: Place, K: Sink>(
    alloc: Global,
    job: &RehearseJob,
    place: &mut P,
    out: &mut K,
) -> Status
where
    P::In: Drop,
    P::Out: Drop,
    requires { IsRehearse job.now }
    ensures outcome { Outcome job.now (states P.state place.old place.new)
        (states K.state out.old out.new) result }
    ensures flushed { result ≡ statuses.Done
        → IsFlushed (K.state out.new).held (K.state out.new).flushed }
    ensures others { KeepsOther (P.state place.old).files (answers_of job.now)
        (P.state place.new).files }
    ensures later { IsLater (P.state place.old) (P.state place.new) }
    ensures output { (K.state out.old).faults ≤ (K.state out.new).faults }
{
    match rehearse(alloc, job, place) {
        Ok(done) => finish(alloc, job.stems.list.len() as u32, done, out),
        Err(stop) => stopped(stop, out),
    }
}
