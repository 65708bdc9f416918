//! A core over the words of a base's first entry.

ghost use Rattle.std.specs.Prelude.{◌≡◌, ◌≤◌, ◌<◌, ◌*◌, ◌+◌, ◌^◌, ℕ, length, map, IfOk};
ghost use Rattle.std.specs.List.{AllByRecursion};
ghost use Rattle.op_model.specs.declared.base.Base.{Base};
ghost use Rattle.op_model.specs.Ingest.{ingested};
ghost use Rattle.session_machine.specs.Machine.{start};
ghost use Rattle.record_rows.specs.Readings.{Image};
ghost use Rattle.core_steps.specs.Places.{CoreIs, IsGood};
ghost use Rattle.core_steps.specs.Starts.{lines_of};
ghost use Rattle.stored_log.specs.Stored.{Drafts, Stands, asked_line};

use crate::logs::StoredLog;
use core_steps::{ClientLines, Core};
use op_model::Dataset;
use pcg_base::{NoMemory, Ticks, VecWords};
use std::alloc::Global;

/// A core over the words of a base's first entry, before the first step of any of its clients.
///
/// # Errors
///
/// `NoMemory` where there is none for the clients.
pub fn start(
    alloc: Global,
    words: VecWords,
    dataset: Dataset,
    lines: Vec<ClientLines>,
    clock: Ticks,
) -> Result<Core<StoredLog>, NoMemory>
    requires clients { length lines.items ≤ 64 }
    requires lines { AllByRecursion (λ l. length l.lines.items < 2 ^ 32) lines.items }
    ensures clock { IfOk result (λ core. core.clock ≡ clock) }
    ensures is { IfOk result (λ core. (b : Base) (at : ℕ) → Image dataset b (ingested dataset b at) words.words → 8 * dataset.capacity ≤ length words.words + words.spare
        → IsGood dataset b (start dataset b at (map (lines_of asked_line) lines.items))
        × CoreIs asked_line (Stands core.rows) (Drafts core.rows) dataset b core.table core.clients.items (start dataset b at (map (lines_of asked_line) lines.items))) }
{
    Core::new(alloc, StoredLog::new(words, dataset), lines, clock)
}
