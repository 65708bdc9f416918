//! An entry put into the words.

ghost use Rattle.std.specs.Prelude.{◌≡◌, ◌∷◌, ◌*◌, ◌+◌, ◌-◌, ◌≤◌, List, length, IfErr, IfOk, OnOk, OnErr};
ghost use Rattle.op_model.specs.declared.base.Base.{Base};
ghost use Rattle.op_model.specs.declared.entry.Entry.{Entry};
ghost use Rattle.op_model.specs.Legal.{LegalPlan};
ghost use Rattle.record_rows.specs.Readings.{Image};
ghost use Rattle.hierarchy_edit.specs.Remade.{IsLate, IsRemade, entry_for};

use crate::remaking::{Remade, Stamp, remake};
use op_model::{Dataset, Plan, Refusal};
use pcg_base::VecWords;
use row_words::apply;
use std::alloc::Global;

// puts the entry of a draft into the words
fn put(w: &mut VecWords, dataset: &Dataset, plan: &Plan, stamp: Stamp, remade: &Remade)
    requires remade { (b : Base) × (log : List Entry) × Image dataset.now b log w.old.words × LegalPlan dataset.now b log plan.now.edit plan.now.changed
        × IsRemade dataset.now b log plan.now.edit stamp remade.now }
    requires room { 8 * dataset.now.capacity ≤ length w.old.words + w.old.spare }
    ensures image { (b : Base) (log : List Entry) → Image dataset.now b log w.old.words → LegalPlan dataset.now b log plan.now.edit plan.now.changed
        → IsRemade dataset.now b log plan.now.edit stamp remade.now → Image dataset.now b (entry_for dataset.now b log plan.now.edit stamp ∷ log) w.new.words }
    ensures room { length w.new.words + w.new.spare ≡ length w.old.words + w.old.spare }
{
    apply(w, &remade.draft);
}

/// Appends the entry of a legal plan to the words of a log, if nothing refuses it, and tells its
/// number, timestamp and roots with the draft that was put.
///
/// # Errors
///
/// As [`remake`]; the words stay as they are.
pub fn commit(
    alloc: Global,
    w: &mut VecWords,
    dataset: &Dataset,
    plan: &Plan,
    stamp: Stamp,
) -> Result<Remade, Refusal>
    requires plan { (b : Base) × (log : List Entry) × Image dataset.now b log w.old.words × LegalPlan dataset.now b log plan.now.edit plan.now.changed }
    requires room { 8 * dataset.now.capacity ≤ length w.old.words + w.old.spare }
    ensures image { (b : Base) (log : List Entry) → Image dataset.now b log w.old.words → LegalPlan dataset.now b log plan.now.edit plan.now.changed
        → OnOk result (Image dataset.now b (entry_for dataset.now b log plan.now.edit stamp ∷ log) w.new.words) }
    ensures remade { (b : Base) (log : List Entry) → Image dataset.now b log w.old.words → LegalPlan dataset.now b log plan.now.edit plan.now.changed
        → IfOk result (IsRemade dataset.now b log plan.now.edit stamp) }
    ensures refused { (b : Base) (log : List Entry) → Image dataset.now b log w.old.words → LegalPlan dataset.now b log plan.now.edit plan.now.changed
        → IfErr result (IsLate dataset.now b log plan.now.edit) }
    ensures kept { OnErr result (w.new ≡ w.old) }
    ensures room { length w.new.words + w.new.spare ≡ length w.old.words + w.old.spare }
{
    let remade = remake(alloc, w, dataset, plan, stamp)?;
    put(w, dataset, plan, stamp, &remade);
    Ok(remade)
}
