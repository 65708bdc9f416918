//! A draft that waits, and the words with it.

ghost use Rattle.std.specs.Prelude.{◌≡◌, ◌≤◌, ◌*◌, ◌+◌, ◌∷◌, List, Some, None, length, OnErr};
ghost use Rattle.op_model.specs.declared.base.Dataset.{Dataset as TheDataset};
ghost use Rattle.op_model.specs.declared.base.Base.{Base};
ghost use Rattle.op_model.specs.declared.entry.Entry.{Entry};
ghost use Rattle.op_model.specs.Legal.{LegalPlan};
ghost use Rattle.record_rows.specs.Readings.{Image};
ghost use Rattle.client_events.specs.Calls.{IsDrafted, Remakes};
ghost use Rattle.stored_log.specs.Stored.{Waits};
ghost use Rattle.stored_log.specs.Told.{stamp_of, told_of};

use client_events::{Remade, Stamp};
use op_model::{Dataset, Plan, Refusal};
use pcg_base::VecWords;
use row_words::{Draft, apply};
use std::alloc::Global;

/// The same stamp, as the crate that makes entries has it.
fn stamp_of(stamp: Stamp) -> hierarchy_edit::Stamp
    ensures { result ≡ stamp_of stamp }
{
    hierarchy_edit::Stamp {
        client: stamp.client,
        line: stamp.line,
        now: stamp.now,
    }
}

/// Keeps the draft of an entry, and tells the rest of it.
fn keep(kept: &mut Option<Draft>, entry: hierarchy_edit::Remade) -> Remade
    ensures kept { kept.new ≡ Some entry.draft }
    ensures told { result ≡ told_of entry }
{
    let hierarchy_edit::Remade {
        draft,
        op,
        at,
        retired,
        made,
    } = entry;
    *kept = Some(draft);
    Remade {
        op,
        at,
        retired,
        made,
    }
}

/// Drafts the entry of a legal plan. An older draft is let go first. The words stay as they are.
///
/// # Errors
///
/// `StoreFull`, `IdsSpent` and `ClockEnd` exactly where the store, the ids or the clock refuse the
/// edit, and `NoMemory` where there is none. No draft is kept then.
pub(crate) fn redraft(
    alloc: Global,
    w: &mut VecWords,
    dataset: &Dataset,
    kept: &mut Option<Draft>,
    plan: &Plan,
    stamp: Stamp,
) -> Result<Remade, Refusal>
    requires plan { (b : Base) × (log : List Entry) × Image dataset.now b log w.old.words × LegalPlan dataset.now b log plan.now.edit plan.now.changed }
    requires room { 8 * dataset.now.capacity ≤ length w.old.words + w.old.spare }
    ensures same { w.new ≡ w.old }
    ensures is { (b : Base) (log : List Entry) → Image dataset.now b log w.old.words → LegalPlan dataset.now b log plan.now.edit plan.now.changed
        → Remakes (Waits w.old kept.new) dataset.now b log plan.now stamp result }
    ensures none { OnErr result (kept.new ≡ None) }
{
    *kept = None;
    match hierarchy_edit::remake(alloc, w, dataset, plan, stamp_of(stamp)) {
        Ok(entry) => Ok(keep(kept, entry)),
        Err(refusal) => Err(refusal),
    }
}

/// Puts the draft that waits behind the words. It takes no memory.
pub(crate) fn publish(w: &mut VecWords, kept: &mut Option<Draft>)
    requires draft { IsDrafted (Waits w.old kept.old) }
    ensures image { (d : TheDataset) (b : Base) (log : List Entry) (e : Entry) → Waits w.old kept.old d b log e → Image d b (e ∷ log) w.new.words }
    ensures room { length w.new.words + w.new.spare ≡ length w.old.words + w.old.spare }
    ensures none { kept.new ≡ None }
{
    let Some(draft) = kept.take() else {
        unreachable!()
    };
    apply(w, &draft);
}
