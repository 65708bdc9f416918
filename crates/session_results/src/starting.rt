//! A core before its first step.

ghost use Rattle.std.specs.Prelude.{◌≡◌, ◌≤◌, ◌<◌, ◌*◌, ◌+◌, ◌++◌, ◌∷◌, ◌^◌, ℕ, [], length, map, vec_capacity, IfOk};
ghost use Rattle.std.specs.List.{AllByRecursion};
ghost use Rattle.op_model.specs.declared.base.Base.{Base};
ghost use Rattle.op_model.specs.Ingest.{ingested};
ghost use Rattle.session_machine.specs.Machine.{start};
ghost use Rattle.record_rows.specs.Readings.{Image};
ghost use Rattle.session_results.specs.Begun.{IsAt, asked_of, client_lines};
ghost use Rattle.session_results.specs.Results.{is_faulty};

use call_lines::ClientFault;
use core_steps::{ClientLines, Core};
use op_model::Dataset;
use pcg_base::{NoMemory, StreamEnd, Ticks, VecWords};
use std::alloc::Global;
use stored_log::{StoredLog, start};
use stream_lines::StreamLines;

/// A core before its first step.
#[derive(Drop)]
pub(crate) struct Begun {
    /// The core.
    pub core: Core<StoredLog>,
    /// How the clients' streams ended.
    pub ends: Vec<StreamEnd>,
    /// An empty list with room for a fault of each client.
    pub faults: Vec<ClientFault>,
}

/// How streams ended.
fn ends_of(alloc: Global, read: &[StreamLines]) -> Result<Vec<StreamEnd>, NoMemory>
    ensures { IfOk result (λ ends. ends.items ≡ map (λ r. r.end) read.now) }
{
    let mut ends = Vec::new(alloc);
    for each in read {
        let Ok(()) = ends.push(each.end) else {
            return Err(NoMemory);
        };
    }
    Ok(ends)
}

/// Whether a stream ended in a fault.
fn is_faulty(end: StreamEnd) -> bool
    ensures { result ≡ is_faulty end }
{
    match end {
        StreamEnd::Whole => false,
        StreamEnd::Broken => true,
        StreamEnd::TooLong => true,
    }
}

/// A stream's lines, as a core takes them.
fn client_lines(read: StreamLines) -> ClientLines
    ensures { result ≡ client_lines read }
{
    let StreamLines { lines, end } = read;
    ClientLines {
        lines,
        fault: is_faulty(end),
    }
}

/// Puts a stream's lines behind the others.
fn add(list: &mut Vec<ClientLines>, read: StreamLines) -> Result<(), NoMemory>
    ensures { IfOk result (λ u. list.new.items ≡ list.old.items ++ client_lines read ∷ []) }
{
    let Ok(()) = list.push(client_lines(read)) else {
        return Err(NoMemory);
    };
    Ok(())
}

/// Puts the lines of streams into an empty list.
fn add_all(list: &mut Vec<ClientLines>, read: Vec<StreamLines>) -> Result<(), NoMemory>
    requires { list.old.items ≡ [] }
    ensures { IfOk result (λ u. list.new.items ≡ map client_lines read.items) }
{
    for each in read {
        add(list, each)?;
    }
    Ok(())
}

/// The lines of streams, as a core takes them.
fn all_lines(alloc: Global, read: Vec<StreamLines>) -> Result<Vec<ClientLines>, NoMemory>
    ensures { IfOk result (λ lines. lines.items ≡ map client_lines read.items) }
{
    let mut lines = Vec::new(alloc);
    add_all(&mut lines, read)?;
    Ok(lines)
}

/// An empty list with room for a fault of each client.
fn fault_room(alloc: Global, clients: usize) -> Result<Vec<ClientFault>, NoMemory>
    ensures none { IfOk result (λ faults. faults.items ≡ []) }
    ensures room { IfOk result (λ faults. clients ≤ vec_capacity faults) }
{
    let Ok(faults) = Vec::with_capacity(alloc, clients) else {
        return Err(NoMemory);
    };
    Ok(faults)
}

/// A core over the lines of all clients.
fn make_core(
    alloc: Global,
    words: VecWords,
    dataset: Dataset,
    clock: Ticks,
    read: Vec<StreamLines>,
) -> Result<Core<StoredLog>, NoMemory>
    requires clients { length read.items ≤ 64 }
    requires few { AllByRecursion (λ r. length r.lines.items < 2 ^ 32) read.items }
    ensures clock { IfOk result (λ core. core.clock ≡ clock) }
    ensures is { IfOk result (λ core. (b : Base) (at : ℕ)
        → Image dataset b (ingested dataset b at) words.words
        → 8 * dataset.capacity ≤ length words.words + words.spare
        → IsAt dataset b core (start dataset b at (map asked_of read.items))) }
{
    let lines = all_lines(alloc, read)?;
    let core = start(alloc, words, dataset, lines, clock)?;
    Ok(core)
}

/// A core over the lines of all clients, with how their streams ended.
pub(crate) fn begin(
    alloc: Global,
    words: VecWords,
    dataset: Dataset,
    clock: Ticks,
    read: Vec<StreamLines>,
) -> Result<Begun, NoMemory>
    requires clients { length read.items ≤ 64 }
    requires few { AllByRecursion (λ r. length r.lines.items < 2 ^ 32) read.items }
    ensures clock { IfOk result (λ x. x.core.clock ≡ clock) }
    ensures is { IfOk result (λ x. (b : Base) (at : ℕ)
        → Image dataset b (ingested dataset b at) words.words
        → 8 * dataset.capacity ≤ length words.words + words.spare
        → IsAt dataset b x.core (start dataset b at (map asked_of read.items))) }
    ensures ends { IfOk result (λ x. x.ends.items ≡ map (λ r. r.end) read.items) }
    ensures none { IfOk result (λ x. x.faults.items ≡ []) }
    ensures room { IfOk result (λ x. length read.items ≤ vec_capacity x.faults) }
{
    let faults = fault_room(alloc, read.len())?;
    let ends = ends_of(alloc, read.as_slice())?;
    let core = make_core(alloc, words, dataset, clock, read)?;
    Ok(Begun { core, ends, faults })
}
