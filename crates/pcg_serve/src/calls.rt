//! The program's call.

ghost use Rattle.std.specs.Prelude.{◌≡◌, ◌≤◌, ◌⊎◌, Some};
ghost use Rattle.pcg_base.specs.Told.{IsFlushed};
ghost use Rattle.pcg_words.specs.Words.{MeetsMode, job_of};
ghost use Rattle.call_lines.specs.declared.status.Status.{Status as TheStatus};
ghost use Rattle.call_lines.specs.declared.status.Status.TheVariants as statuses;
ghost use Rattle.rehearsal.specs.Between.{states};
ghost use Rattle.rehearsal.specs.Exact.{IsQuiet};
ghost use Rattle.pcg_serve.specs.Calls.{IsFaultless, IsJobDone, IsJobDue, IsJobFine, JobOutcome, JobTells, KeepsJobOthers, NoneFell};

use crate::making::run_make;
use call_lines::{Status, Stop};
use pcg_base::{Clock, Gate, Place, Sink};
use pcg_words::{Job, WordsError, read_words};
use rehearsal::{run_rehearse, stopped};
use std::alloc::Global;
use trials::run_trial;

/// Does the job that the words of the command line spell, and answers the status. It writes what
/// [`run_rehearse`], [`run_make`] or [`run_trial`] writes, or the fault line of wrong words; the
/// status is 1 exactly where the words spell no job. It asks neither the clock nor the gate yet.
pub fn run<P: Place, C: Clock + Sync, G: Gate + Sync, K: Sink>(
    alloc: Global,
    words: &[Vec<u8>],
    place: &mut P,
    _: &C,
    _: &G,
    out: &mut K,
) -> Status
where
    P::In: Drop,
    P::Out: Drop,
    // what the call came to, whatever that is
    ensures outcome { JobOutcome (job_of words.now) (states P.state place.old place.new)
        (states K.state out.old out.new) result }
    // status 0
    ensures done { result ≡ statuses.Done
        → IsJobDone (job_of words.now) (states P.state place.old place.new)
        (states K.state out.old out.new) }
    ensures faultless { result ≡ statuses.Done
        → IsFaultless (states P.state place.old place.new) (states K.state out.old out.new) }
    ensures flushed { result ≡ statuses.Done
        → IsFlushed (K.state out.new).held (K.state out.new).flushed }
    // other statuses: what each tells, which one an input asks for, and that input of its form
    // gets 0
    ensures tells { JobTells (job_of words.now) (states P.state place.old place.new)
        (states K.state out.old out.new) result }
    ensures due { (s : TheStatus) → IsJobDue (P.state place.old).files (job_of words.now) s
        → (result ≡ s) ⊎ (result ≡ statuses.ReadFault) ⊎ (result ≡ statuses.NoMemory) }
    ensures complete { IsQuiet (states P.state place.old place.new) (states K.state out.old out.new)
        → IsJobFine (P.state place.old).files (job_of words.now)
        → (result ≡ statuses.Done) ⊎ (result ≡ statuses.NoMemory) }
    // whatever it answers
    ensures others { KeepsJobOthers (job_of words.now) (states P.state place.old place.new) }
    ensures later { NoneFell (states P.state place.old place.new) }
    ensures output { (K.state out.old).faults ≤ (K.state out.new).faults }
{
    do_words(alloc, words, place, out)
}

/// Does the job of the words.
fn do_words<P: Place, K: Sink>(
    alloc: Global,
    words: &[Vec<u8>],
    place: &mut P,
    out: &mut K,
) -> Status
where
    P::In: Drop,
    P::Out: Drop,
    ensures outcome { JobOutcome (job_of words.now) (states P.state place.old place.new)
        (states K.state out.old out.new) result }
    ensures flushed { result ≡ statuses.Done
        → IsFlushed (K.state out.new).held (K.state out.new).flushed }
    ensures others { KeepsJobOthers (job_of words.now) (states P.state place.old place.new) }
    ensures later { NoneFell (states P.state place.old place.new) }
    ensures output { (K.state out.old).faults ≤ (K.state out.new).faults }
{
    match read_words(alloc, words) {
        Ok(job) => do_job(alloc, &job, place, out),
        Err(WordsError::BadWords) => stopped(Stop::BadWords, out),
        Err(WordsError::NoMemory) => stopped(Stop::NoMemory, out),
    }
}

/// Does a job, by its mode.
fn do_job<P: Place, K: Sink>(alloc: Global, job: &Job, place: &mut P, out: &mut K) -> Status
where
    P::In: Drop,
    P::Out: Drop,
    requires { MeetsMode job.now }
    ensures outcome { JobOutcome (Some job.now) (states P.state place.old place.new)
        (states K.state out.old out.new) result }
    ensures flushed { result ≡ statuses.Done
        → IsFlushed (K.state out.new).held (K.state out.new).flushed }
    ensures others { KeepsJobOthers (Some job.now) (states P.state place.old place.new) }
    ensures later { NoneFell (states P.state place.old place.new) }
    ensures output { (K.state out.old).faults ≤ (K.state out.new).faults }
{
    match job {
        Job::Rehearse(job) => run_rehearse(alloc, job, place, out),
        Job::Make(job) => run_make(alloc, job, place, out),
        Job::Trial(job) => run_trial(alloc, job, out),
    }
}
