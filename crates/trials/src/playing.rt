//! The sessions of a trial are played and counted.

ghost use Rattle.std.specs.Prelude.{◌≡◌, ◌≤◌, ◌*◌, ◌+◌, ℕ, length, map, IfOk};
ghost use Rattle.std.specs.List.{AllByRecursion};
ghost use Rattle.client_answers.specs.Written.{IsFresh};
ghost use Rattle.log_lines.specs.LogTexts.{Counts};
ghost use Rattle.log_rows.specs.Entries.{HasLog};
ghost use Rattle.op_model.specs.Ingest.{ingested};
ghost use Rattle.op_model.specs.declared.base.Base.{Base};
ghost use Rattle.record_rows.specs.Readings.{ForEachLog, Image};
ghost use Rattle.job_tables.specs.Inputs.{clock_time};
ghost use Rattle.call_lines.specs.Texts.{summary_text};
ghost use Rattle.trials.specs.Starts.{ArePlayed};
ghost use Rattle.trials.specs.Trials.{log_summary};

use crate::starting::Start;
use crate::texts::all_lines;
use call_lines::Summary;
use client_answers::ClientAnswers;
use log_lines::{LogCounts, write_log};
use pcg_base::{NoMemory, Ticks, VecWords};
use rehearsal::summary_of;
use session_results::{SessionsDone, SessionsEnd, play_sessions};
use std::alloc::Global;
use stream_lines::NoAnswers;

/// Answers of so many clients that go nowhere.
fn no_answers(alloc: Global, clients: usize) -> Result<Vec<ClientAnswers<NoAnswers>>, NoMemory>
    ensures count { IfOk result (λ v. length v.items ≡ clients) }
    ensures fresh { IfOk result (λ v. AllByRecursion IsFresh v.items) }
{
    let mut list = Vec::new(alloc);
    for made in 0..clients {
        let Ok(()) = list.push(ClientAnswers {
            sink: NoAnswers,
            lines: 0,
            refused: 0,
            failed: false,
        }) else {
            return Err(NoMemory);
        };
    }
    Ok(list)
}

/// Plays the sessions of a trial to their end, by no schedule.
pub(crate) fn play(alloc: Global, clock: Ticks, start: Start) -> Result<SessionsDone, NoMemory>
    requires image { (b : Base) × (at : ℕ)
        × Image start.dataset b (ingested start.dataset b at) start.words.words }
    requires room { 8 * start.dataset.capacity ≤ length start.words.words + start.words.spare }
    requires clients { length start.streams.items ≤ 64 }
    ensures { (b : Base)
        → Image start.dataset b (ingested start.dataset b (clock_time clock 0)) start.words.words
        → IfOk result
        (ArePlayed start.dataset b clock (map (λ v. v.items) start.streams.items)) }
{
    let Start {
        dataset,
        words,
        streams,
    } = start;
    let read = all_lines(alloc, streams)?;
    let answers = no_answers(alloc, read.len())?;
    let end = play_sessions(alloc, words, dataset, clock, read, &[], answers);
    let SessionsEnd { done, .. } = end;
    match done {
        Some(done) => Ok(done),
        None => Err(NoMemory),
    }
}

/// What a log has. Its lines go nowhere.
fn counts_of(alloc: Global, words: &mut VecWords) -> Result<LogCounts, NoMemory>
    requires { HasLog Image words.old.words }
    ensures { ForEachLog Image words.old.words (λ d b log. IfOk result (Counts d b log)) }
{
    let mut nowhere = NoAnswers;
    match write_log(alloc, words, &mut nowhere) {
        Ok(counts) => Ok(counts),
        Err(_) => Err(NoMemory),
    }
}

/// The summary of sessions that were played.
pub(crate) fn summary_from(
    alloc: Global,
    clients: u32,
    done: SessionsDone,
) -> Result<Summary, NoMemory>
    requires { HasLog Image done.words.words }
    ensures { ForEachLog Image done.words.words
        (λ d b log. IfOk result
        (λ s. summary_text s
        ≡ log_summary d b log clients done.faults.items done.lines done.refused)) }
{
    let SessionsDone {
        mut words,
        faults,
        lines,
        refused,
    } = done;
    let counts = counts_of(alloc, &mut words)?;
    Ok(summary_of(clients, counts, faults, lines, refused))
}
