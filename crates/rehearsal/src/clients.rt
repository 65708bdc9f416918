//! The clients' files are opened, their sessions played, and the files kept back.

ghost use Rattle.std.specs.Prelude.{◌≡◌, ◌≤◌, ◌<◌, ◌+◌, ◌*◌, ◌-◌, ◌^◌, ℕ, List, length, true, false, bytes_eq, IfErr, IfNone, IfOk, IfSome, IsTrue, OnOk, Option};
ghost use Rattle.std.specs.List.{AllByRecursion, list_any};
ghost use Rattle.op_model.specs.declared.base.Base.{Base};
ghost use Rattle.op_model.specs.Ingest.{ingested};
ghost use Rattle.record_rows.specs.Readings.{Image};
ghost use Rattle.pcg_base.specs.States.{PlaceState};
ghost use Rattle.pcg_base.specs.Told.{Files};
ghost use Rattle.pcg_words.specs.Job.{IsRehearse, all_differ};
ghost use Rattle.job_files.specs.Places.{IsLater};
ghost use Rattle.job_files.specs.Clients.{AnswersOpen, AreEmpty, AreOpened};
ghost use Rattle.client_answers.specs.Written.{IsFresh};
ghost use Rattle.job_files.specs.Kept.{KeepsOther};
ghost use Rattle.job_tables.specs.Inputs.{IsRead, clock_time, dataset_of};
ghost use Rattle.rehearsal.specs.Outcomes.{ClientsStop, SessionsStop, answers_of, requests_of};
ghost use Rattle.rehearsal.specs.Played.{ArePlayed, AreUnplayed, IsBefore};
ghost use Rattle.rehearsal.specs.Served.{AreServed};

use call_lines::{FileName, Stop};
use client_answers::ClientAnswers;
use job_files::{
    ClientFiles, OpenFault, answers_are_emptied, client_files, keep_answers, keep_requests,
    open_answers, open_requests, read_requests, sinks_are_kept, sources_are_kept,
};
use job_tables::JobBase;
use pcg_base::{NoMemory, Place, Ticks};
use pcg_words::RehearseJob;
use session_results::{SessionsDone, SessionsEnd, play_sessions};
use std::alloc::Global;

/// The files of all clients, opened.
#[derive(Drop)]
struct Opened<S: Drop, K: Drop> {
    /// Their requests.
    sources: Vec<S>,
    /// Their answers.
    answers: Vec<ClientAnswers<K>>,
}

/// Why a call stops whose requests couldn't be opened.
fn no_requests(fault: OpenFault) -> Stop
    ensures failed { (client : ℕ) → fault ≡ OpenFault.Failed client
        → result ≡ Stop.ReadFault client FileName.Requests }
    ensures memory { fault ≡ OpenFault.NoMemory → result ≡ Stop.NoMemory }
{
    match fault {
        OpenFault::Failed { client } => Stop::ReadFault {
            client,
            file: FileName::Requests,
        },
        OpenFault::NoMemory => Stop::NoMemory,
    }
}

/// Why a call stops whose answers couldn't be opened.
fn no_answers(fault: OpenFault) -> Stop
    ensures failed { (client : ℕ) → fault ≡ OpenFault.Failed client
        → result ≡ Stop.WriteFault client FileName.Answers }
    ensures memory { fault ≡ OpenFault.NoMemory → result ≡ Stop.NoMemory }
{
    match fault {
        OpenFault::Failed { client } => Stop::WriteFault {
            client,
            file: FileName::Answers,
        },
        OpenFault::NoMemory => Stop::NoMemory,
    }
}

/// Opens all requests and then all answers. Where an opening fails all that was opened is kept back.
fn open_all<P: Place>(
    alloc: Global,
    files: &ClientFiles,
    place: &mut P,
) -> Result<Opened<P::In, P::Out>, Stop>
where
    P::In: Drop,
    P::Out: Drop,
    requires differ { IsTrue (all_differ files.now.requests) }
    requires few { length files.now.requests < 2 ^ 32 - 1 }
    requires few_answers { length files.now.answers < 2 ^ 32 - 1 }
    ensures sources { IfOk result
        (λ o. AreOpened P.In.left P.In.faults (P.state place.old).files files.now.requests
        o.sources.items) }
    ensures answers { IfOk result
        (λ o. AreEmpty P.Out.state (P.state place.old).files files.now.answers o.answers.items) }
    ensures open { OnOk result
        (AnswersOpen files.now.answers (P.state place.old) (P.state place.new)) }
    ensures opened_in { OnOk result
        (AllByRecursion (λ n. (P.state place.new).opened_in n ≡ true) files.now.requests) }
    ensures opened_out { OnOk result
        (AllByRecursion (λ n. (P.state place.new).opened_out n ≡ true) files.now.answers) }
    ensures stop { IfErr result
        (λ stop. SessionsStop files.now.requests files.now.answers (P.state place.old)
        (P.state place.new) stop) }
    ensures elsewhere { (n : List ℕ) → list_any (bytes_eq n) files.now.requests ≡ false
        → (P.state place.new).left n ≡ (P.state place.old).left n }
    ensures later { IsLater (P.state place.old) (P.state place.new) }
{
    sources_are_kept();
    answers_are_emptied();
    let sources = match open_requests(alloc, place, files.requests.list.as_slice()) {
        Ok(sources) => sources,
        Err(fault) => return Err(no_requests(fault)),
    };
    match open_answers(alloc, place, files.answers.list.as_slice()) {
        Ok(answers) => Ok(Opened { sources, answers }),
        Err(fault) => {
            keep_requests(place, files.requests.list.as_slice(), sources);
            Err(no_answers(fault))
        }
    }
}

/// Reads all requests, plays the sessions over the words of a base's first entry, and keeps all files
/// back. `None` where memory ran out before the first step of a session.
fn serve_all<P: Place>(
    alloc: Global,
    clock: Ticks,
    input: JobBase,
    files: &ClientFiles,
    opened: Opened<P::In, P::Out>,
    place: &mut P,
) -> Option<SessionsDone>
where
    P::In: Drop,
    P::Out: Drop,
    requires image { (b : Base) × (at : ℕ)
        × Image input.dataset b (ingested input.dataset b at) input.words.words }
    requires room { 8 * input.dataset.capacity ≤ length input.words.words + input.words.spare }
    requires few { length files.now.requests ≤ 64 }
    requires sources { length opened.sources.items ≡ length files.now.requests }
    requires answers { length opened.answers.items ≡ length files.now.requests }
    requires names { length files.now.answers ≡ length files.now.requests }
    requires unfailed { AllByRecursion (λ s. P.In.faults s ≡ 0) opened.sources.items }
    requires fresh { AllByRecursion IsFresh opened.answers.items }
    requires opened_in { AllByRecursion (λ n. (P.state place.old).opened_in n
        ≡ true) files.now.requests }
    requires opened_out { AllByRecursion (λ n. (P.state place.old).opened_out n
        ≡ true) files.now.answers }
    requires numbers { AllByRecursion (λ n. (0 < n)
        × (n ≤ length files.now.requests)) input.schedule.items }
    ensures none { IfNone result
        (AreUnplayed P.Out.state files.now.requests files.now.answers opened.answers.items
        (P.state place.old) (P.state place.new)) }
    ensures done { (b : Base) (at : ℕ)
        → Image input.dataset b (ingested input.dataset b at) input.words.words
        → IfSome result
        (ArePlayed P.In.left P.Out.state input.dataset b at clock input.schedule.items
        files.now.requests files.now.answers opened.sources.items opened.answers.items
        (P.state place.old) (P.state place.new)) }
{
    let Opened { sources, answers } = opened;
    let JobBase {
        dataset,
        words,
        schedule,
    } = input;
    let read = match read_requests(alloc, place, files.requests.list.as_slice(), sources) {
        Ok(read) => read,
        Err(_) => {
            keep_answers(place, files.answers.list.as_slice(), answers);
            return None;
        }
    };
    let end = play_sessions(
        alloc,
        words,
        dataset,
        clock,
        read,
        schedule.as_slice(),
        answers,
    );
    let SessionsEnd {
        answers: ended,
        done,
    } = end;
    keep_answers(place, files.answers.list.as_slice(), ended);
    done
}

/// Opens the clients' files, plays their sessions, and keeps the files back.
pub(crate) fn run_clients<P: Place>(
    alloc: Global,
    job: &RehearseJob,
    input: JobBase,
    place: &mut P,
) -> Result<SessionsDone, Stop>
where
    P::In: Drop,
    P::Out: Drop,
    requires job { IsRehearse job.now }
    requires input { (files : Option Files) × IsRead files job.now input }
    ensures done { (o : PlaceState) (b : Base) → IsBefore o (P.state place.old)
        → Image (dataset_of job.now) b
        (ingested (dataset_of job.now) b (clock_time job.now.clock 0)) input.words.words
        → IfOk result
        (AreServed (dataset_of job.now) b job.now.clock input.schedule.items job.now.stems o
        (P.state place.new)) }
    ensures stop { IfErr result
        (λ stop. ClientsStop job.now (P.state place.old) (P.state place.new) stop) }
    ensures elsewhere { (n : List ℕ) → list_any (bytes_eq n) (requests_of job.now) ≡ false
        → (P.state place.new).left n ≡ (P.state place.old).left n }
    ensures later { IsLater (P.state place.old) (P.state place.new) }
    ensures others { KeepsOther (P.state place.old).files (answers_of job.now)
        (P.state place.new).files }
{
    sources_are_kept();
    sinks_are_kept();
    answers_are_emptied();
    let Ok(files) = client_files(alloc, &job.stems) else {
        return Err(Stop::NoMemory);
    };
    let opened = match open_all(alloc, &files, place) {
        Ok(opened) => opened,
        Err(stop) => return Err(stop),
    };
    match serve_all(alloc, job.clock, input, &files, opened, place) {
        Some(done) => Ok(done),
        None => Err(Stop::NoMemory),
    }
}
