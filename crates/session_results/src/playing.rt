//! A core is played and taken apart.

ghost use Rattle.std.specs.Prelude.{◌≡◌, ◌≤◌, ◌<◌, ◌*◌, ◌+◌, ◌^◌, ℕ, List, [], length, sum_by, vec_capacity, IfNone, IfSome};
ghost use Rattle.std.specs.List.{AllByRecursion};
ghost use Rattle.op_model.specs.declared.base.Base.{Base};
ghost use Rattle.op_model.specs.Ingest.{ingested};
ghost use Rattle.record_rows.specs.Readings.{Image};
ghost use Rattle.client_answers.specs.Written.{IsFresh};
ghost use Rattle.session_results.specs.Begun.{faults_told};
ghost use Rattle.session_results.specs.Ended.{AreDone, AreLines, Source};

use crate::counting::{line_count, put_faults, refused_count};
use crate::starting::{Begun, begin};
use call_lines::ClientFault;
use client_answers::{AllAnswers, ClientAnswers, play};
use op_model::Dataset;
use pcg_base::{Sink, Ticks, VecWords};
use std::alloc::Global;
use stream_lines::StreamLines;

/// What sessions came to that were played.
#[derive(Drop)]
pub struct SessionsDone {
    /// The words of the log behind them.
    pub words: VecWords,
    /// The clients whose sessions ended in a fault, ascending.
    pub faults: Vec<ClientFault>,
    /// How many replies were written.
    pub lines: u64,
    /// How many of them refuse their line.
    pub refused: u64,
}

/// The answers of all clients, and what their sessions came to, if there was memory to play them.
#[derive(Drop)]
pub struct SessionsEnd<K: Drop> {
    /// The answers; those of client 1 are the first.
    pub answers: Vec<ClientAnswers<K>>,
    /// What the sessions came to. `None` where memory ran out before the first step.
    pub done: Option<SessionsDone>,
}

/// What sessions came to whose play has ended.
fn told<K: Drop>(begun: Begun, answers: &[ClientAnswers<K>]) -> SessionsDone
    requires few { length answers.now ≤ 64 }
    requires each { length begun.ends.items ≡ length answers.now }
    requires none { begun.faults.items ≡ [] }
    requires room { length answers.now ≤ vec_capacity begun.faults }
    ensures words { result.words ≡ begun.core.rows.words }
    ensures faults { result.faults.items ≡ faults_told 1 answers.now begun.ends.items }
    ensures lines { result.lines ≡ sum_by (λ x. x.lines) answers.now }
    ensures refused { result.refused ≡ sum_by (λ x. x.refused) answers.now }
{
    let Begun {
        core,
        ends,
        mut faults,
    } = begun;
    put_faults(&mut faults, answers, ends.as_slice());
    SessionsDone {
        words: core.into_rows().into_words(),
        faults,
        lines: line_count(answers),
        refused: refused_count(answers),
    }
}

/// Plays a schedule over the lines of all clients: a step of each client that it names, and then
/// steps of the least client that may go on, until all sessions have ended. Where there is no memory
/// for the core nothing was written.
pub fn play_sessions<K: Sink + Drop>(
    alloc: Global,
    words: VecWords,
    dataset: Dataset,
    clock: Ticks,
    read: Vec<StreamLines>,
    schedule: &[u32],
    answers: Vec<ClientAnswers<K>>,
) -> SessionsEnd<K>
    requires image { (b : Base) × (at : ℕ) × Image dataset b (ingested dataset b at) words.words }
    requires room { 8 * dataset.capacity ≤ length words.words + words.spare }
    requires clients { length read.items ≤ 64 }
    requires each { length answers.items ≡ length read.items }
    requires few { AllByRecursion (λ r. length r.lines.items < 2 ^ 32) read.items }
    requires fresh { AllByRecursion IsFresh answers.items }
    requires numbers { AllByRecursion (λ n. (0 < n) × (n ≤ length read.items)) schedule.now }
    ensures none { IfNone result.done (result.answers.items ≡ answers.items) }
    ensures done { (b : Base) (at : ℕ) (sources : List Source)
        → Image dataset b (ingested dataset b at) words.words → AreLines sources read.items
        → IfSome result.done
        (AreDone K.state dataset b at clock schedule.now sources answers.items
        result.answers.items) }
    ensures count { length result.answers.items ≡ length answers.items }
{
    let Ok(mut begun) = begin(alloc, words, dataset, clock, read) else {
        return SessionsEnd {
            answers,
            done: None,
        };
    };
    let mut all = AllAnswers { list: answers };
    play(alloc, &mut begun.core, schedule, &mut all);
    let AllAnswers { list } = all;
    let done = told(begun, list.as_slice());
    SessionsEnd {
        answers: list,
        done: Some(done),
    }
}
