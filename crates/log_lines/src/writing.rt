//! The lines of a log.

ghost use Rattle.std.specs.Prelude.{◌≡◌, ◌≤◌, length, IfOk, IfErr, OnOk, OnErr, IsErrOf};
ghost use Rattle.std.specs.Io.KnownBytes.{Appends};
ghost use Rattle.pcg_base.specs.Causes.{Rose};
ghost use Rattle.pcg_base.specs.Told.{AppendsFront};
ghost use Rattle.record_rows.specs.Readings.{ForEachLog, Image};
ghost use Rattle.request_lines.specs.Texts.{text_of_entry};
ghost use Rattle.log_rows.specs.Entries.{ForEntryAt, HasLog, InEntry};
ghost use Rattle.log_lines.specs.LogTexts.{Counts, IsRootChange, log_text};

use histories::live_roots_are_counted;
use log_rows::{entry_spot, length, next_entry};
use op_model::Entry;
use pcg_base::{Failed, NoMemory, Sink, Words};
use request_lines::write_entry;
use row_words::Spot;
use std::alloc::Global;
use timestamp_reader::entry_at_spot;

/// What a log has.
#[derive(Clone, Copy, Debug, PartialEq, Eq)]
pub struct LogCounts {
    /// How many entries.
    pub entries: u32,
    /// How many records they take, with the base's.
    pub records: u64,
    /// How many roots were made and aren't retired.
    pub roots: u64,
}

/// Why a log wasn't written whole.
#[derive(Clone, Copy, Debug, PartialEq, Eq)]
pub enum LogError {
    /// A write or a flush failed.
    Failed,
    /// Memory ran out.
    NoMemory,
}

/// How many live roots an entry makes and retires.
#[derive(Clone, Copy)]
pub struct RootChange {
    /// How many roots it made.
    pub made: u64,
    /// How many roots it retired.
    pub retired: u64,
}

/// Writes one line for each entry of a log, the oldest first, and tells what the log has. Memory is
/// that of one entry at a time. Where it stops a front of the lines was written.
///
/// # Errors
///
/// `Failed` where `out` did, and `NoMemory` where there is none for an entry.
pub fn write_log<W: Words, K: Sink>(
    alloc: Global,
    w: &mut W,
    out: &mut K,
) -> Result<LogCounts, LogError>
    requires image { HasLog Image (W.words w.old) }
    ensures same { w.new ≡ w.old }
    ensures ok { ForEachLog Image (W.words w.old)
        (λ d b log. IfOk result
        (λ c. Appends (K.state out.old).held (K.state out.new).held (log_text log)
        × Counts d b log c)) }
    ensures front { ForEachLog Image (W.words w.old)
        (λ d b log. OnErr result
        (AppendsFront (K.state out.old).held (K.state out.new).held (log_text log))) }
    ensures failed { IsErrOf result LogError.Failed
        → Rose (K.state out.old).faults (K.state out.new).faults }
    ensures memory { IsErrOf result LogError.NoMemory
        → (K.state out.new).faults ≡ (K.state out.old).faults }
    ensures still { OnOk result ((K.state out.new).faults ≡ (K.state out.old).faults) }
    ensures later { (K.state out.old).faults ≤ (K.state out.new).faults }
{
    live_roots_are_counted();
    let mut roots = 0;
    let first = entry_spot(w, 0);
    let mut next = Some(first);
    while let Some(spot) = next {
        let change = match write_at(alloc, w, out, spot) {
            Ok(change) => change,
            Err(stop) => return Err(stop),
        };
        roots = roots + change.made - change.retired;
        next = next_entry(w, spot);
    }
    Ok(LogCounts {
        entries: length(w),
        records: w.len() / 8,
        roots,
    })
}

/// Writes the line of the entry whose record stands there.
fn write_at<W: Words, K: Sink>(
    alloc: Global,
    w: &mut W,
    out: &mut K,
    spot: Spot,
) -> Result<RootChange, LogError>
    requires entry { InEntry (W.words w.old) spot }
    ensures same { w.new ≡ w.old }
    ensures ok { ForEntryAt Image (W.words w.old) spot
        (λ d b log e. IfOk result
        (λ x. Appends (K.state out.old).held (K.state out.new).held (text_of_entry e)
        × IsRootChange e x)) }
    ensures front { ForEntryAt Image (W.words w.old) spot
        (λ d b log e. OnErr result
        (AppendsFront (K.state out.old).held (K.state out.new).held (text_of_entry e))) }
    ensures failed { IsErrOf result LogError.Failed
        → Rose (K.state out.old).faults (K.state out.new).faults }
    ensures memory { IsErrOf result LogError.NoMemory
        → (K.state out.new).faults ≡ (K.state out.old).faults }
    ensures still { OnOk result ((K.state out.new).faults ≡ (K.state out.old).faults) }
    ensures later { (K.state out.old).faults ≤ (K.state out.new).faults }
{
    match entry_at_spot(alloc, w, spot) {
        Ok(entry) => write_line(&entry, out),
        Err(NoMemory) => Err(LogError::NoMemory),
    }
}

/// Writes the line of an entry.
fn write_line<K: Sink>(entry: &Entry, out: &mut K) -> Result<RootChange, LogError>
    ensures ok { IfOk result
        (λ x. Appends (K.state out.old).held (K.state out.new).held (text_of_entry entry.now)
        × IsRootChange entry.now x) }
    ensures front { OnErr result
        (AppendsFront (K.state out.old).held (K.state out.new).held (text_of_entry entry.now)) }
    ensures failed { OnErr result (Rose (K.state out.old).faults (K.state out.new).faults) }
    ensures cause { IfErr result (λ e. e ≡ LogError.Failed) }
    ensures still { OnOk result ((K.state out.new).faults ≡ (K.state out.old).faults) }
    ensures later { (K.state out.old).faults ≤ (K.state out.new).faults }
{
    match write_entry(entry, out) {
        Ok(()) => Ok(RootChange {
            made: entry.made.list.len() as u64,
            retired: entry.retired.list.len() as u64,
        }),
        Err(Failed) => Err(LogError::Failed),
    }
}
