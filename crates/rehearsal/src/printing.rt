//! The log and the summary of a call, or its fault line.

ghost use Rattle.std.specs.Prelude.{◌≡◌, ◌≤◌, ◌<◌, ◌-◌};
ghost use Rattle.pcg_base.specs.Told.{IsFlushed};
ghost use Rattle.op_model.specs.Records.{records};
ghost use Rattle.record_rows.specs.Readings.{ForEachLog, Image};
ghost use Rattle.log_rows.specs.Entries.{HasLog};
ghost use Rattle.call_lines.specs.declared.status.Status.TheVariants as statuses;
ghost use Rattle.call_lines.specs.Printing.{Prints};
ghost use Rattle.call_lines.specs.Statuses.{status_of};
ghost use Rattle.call_lines.specs.Texts.{stop_text, summary_text};
ghost use Rattle.session_results.specs.Results.{status_for};
ghost use Rattle.rehearsal.specs.Outcomes.{Printed, at_fault};
ghost use Rattle.rehearsal.specs.Printing.{Sums, whole_text};

use call_lines::{ClientFault, Status, Stop, Summary, write_stop, write_summary};
use log_lines::{LogCounts, LogError, write_log};
use pcg_base::{Sink, VecWords};
use session_results::SessionsDone;
use std::alloc::Global;

/// The status of a call with these faults, where its output doesn't fail.
#[tactic(auto, unfolding(session_results::specs::Results::status_for))]
fn status_for(faults: &[ClientFault]) -> Status
    ensures { result ≡ status_for faults.now }
{
    match faults.first() {
        None => Status::Done,
        Some(first) => first.fault.status(),
    }
}

/// The status where the output failed.
#[tactic(auto, unfolding(crate::specs::Outcomes::at_fault))]
fn at_fault(ended: Status) -> Status
    ensures { result ≡ at_fault ended }
{
    match ended {
        Status::Done => Status::WriteFault,
        Status::BadWords => Status::BadWords,
        Status::ReadFault => Status::ReadFault,
        Status::BadInput => Status::BadInput,
        Status::WriteFault => Status::WriteFault,
        Status::NoMemory => Status::NoMemory,
        Status::Full => Status::Full,
        Status::TooLong => Status::TooLong,
    }
}

/// The summary of a call that came past its sessions, by the counts of its log and of its replies.
pub fn summary_of(
    clients: u32,
    counts: LogCounts,
    faults: Vec<ClientFault>,
    lines: u64,
    refused: u64,
) -> Summary
    requires entries { 1 ≤ counts.entries }
    ensures { Sums clients counts faults.items lines refused result }
{
    let status = status_for(faults.as_slice());
    Summary {
        accepted: counts.entries - 1,
        clients,
        entries: counts.entries,
        faults,
        lines,
        records: counts.records,
        refused,
        roots: counts.roots,
        status,
    }
}

/// Writes a summary behind a log that was written, and answers the status.
fn end_with<K: Sink>(summary: &Summary, out: &mut K) -> Status
    ensures printed { Printed (K.state out.old) (K.state out.new) (summary_text summary.now)
        summary.now.status result }
    ensures flushed { result ≡ statuses.Done
        → IsFlushed (K.state out.new).held (K.state out.new).flushed }
    ensures later { (K.state out.old).faults ≤ (K.state out.new).faults }
{
    if write_summary(summary, out).is_ok() {
        summary.status
    } else {
        at_fault(summary.status)
    }
}

/// Writes the log and the summary of a call that came past its sessions, and answers the status.
pub(crate) fn finish<K: Sink>(
    alloc: Global,
    clients: u32,
    done: SessionsDone,
    out: &mut K,
) -> Status
    requires image { HasLog Image done.words.words }
    ensures printed { ForEachLog Image done.words.words
        (λ d b log. Printed (K.state out.old) (K.state out.new)
        (whole_text d b log clients done.faults.items done.lines done.refused)
        (status_for done.faults.items) result) }
    ensures flushed { result ≡ statuses.Done
        → IsFlushed (K.state out.new).held (K.state out.new).flushed }
    ensures later { (K.state out.old).faults ≤ (K.state out.new).faults }
{
    let SessionsDone {
        mut words,
        faults,
        lines,
        refused,
    } = done;
    match write_log(alloc, &mut words, out) {
        Ok(counts) => {
            let summary = summary_of(clients, counts, faults, lines, refused);
            end_with(&summary, out)
        }
        Err(LogError::Failed) => at_fault(status_for(faults.as_slice())),
        Err(LogError::NoMemory) => Status::NoMemory,
    }
}

/// Writes the fault line of a call that stopped before its sessions, and answers its status.
pub fn stopped<K: Sink>(stop: Stop, out: &mut K) -> Status
    ensures status { result ≡ status_of stop }
    ensures line { Prints (K.state out.old) (K.state out.new) (stop_text stop) }
    ensures later { (K.state out.old).faults ≤ (K.state out.new).faults }
{
    let _ = write_stop(stop, out);
    stop.status()
}
