//! From a legal plan to the draft of its entry.

ghost use Rattle.std.specs.Prelude.{◌≡◌, List, IfOk, IfErr};
ghost use Rattle.op_model.specs.declared.base.Base.{Base};
ghost use Rattle.op_model.specs.declared.entry.Entry.{Entry};
ghost use Rattle.op_model.specs.Legal.{LegalPlan};
ghost use Rattle.record_rows.specs.Readings.{Image};
ghost use Rattle.hierarchy_edit.specs.Remade.{IsLate, IsRemade};

use crate::drafting::draft_entry;
use crate::listing::list_entry;
use crate::refusing::{late, next_time};
use op_model::{Dataset, Ids, Plan, Refusal};
use pcg_base::Words;
use row_words::Draft;
use std::alloc::Global;

/// Who asks an edit, and the clock's answer.
#[derive(Clone, Copy, PartialEq, Eq, Debug, Drop)]
pub struct Stamp {
    /// The client that asked it.
    pub client: u32,
    /// The client's line that asked it.
    pub line: u32,
    /// The clock's answer, in milliseconds.
    pub now: u64,
}

/// An entry on its way into the words.
#[derive(Drop)]
pub struct Remade {
    /// The entry's records, and the pointers to them.
    pub draft: Draft,
    /// The entry's number.
    pub op: u32,
    /// Its timestamp in milliseconds.
    pub at: u64,
    /// The roots that it retires, ascending.
    pub retired: Ids,
    /// The roots that it makes, ascending.
    pub made: Ids,
}

/// The draft of the entry that a legal plan makes. The words must be the image of a log at which the
/// plan is legal; they stay as they are.
///
/// # Errors
///
/// `StoreFull`, `IdsSpent` and `ClockEnd` exactly where the store, the ids or the clock refuse the
/// edit, and `NoMemory` where there is none.
pub fn remake<W: Words>(
    alloc: Global,
    w: &mut W,
    dataset: &Dataset,
    plan: &Plan,
    stamp: Stamp,
) -> Result<Remade, Refusal>
    requires plan { (b : Base) × (log : List Entry) × Image dataset.now b log (W.words w.old) × LegalPlan dataset.now b log plan.now.edit plan.now.changed }
    ensures same { w.new ≡ w.old }
    ensures remade { (b : Base) (log : List Entry) → Image dataset.now b log (W.words w.old) → LegalPlan dataset.now b log plan.now.edit plan.now.changed
        → IfOk result (IsRemade dataset.now b log plan.now.edit stamp) }
    ensures refused { (b : Base) (log : List Entry) → Image dataset.now b log (W.words w.old) → LegalPlan dataset.now b log plan.now.edit plan.now.changed
        → IfErr result (IsLate dataset.now b log plan.now.edit) }
{
    let Ok(listed) = list_entry(alloc, w, dataset, plan) else {
        return Err(Refusal::NoMemory);
    };
    if let Some(refusal) = late(listed.need, listed.spare, listed.spent, listed.last) {
        return Err(refusal);
    }
    let at = next_time(listed.last, stamp.now);
    let Ok(remade) = draft_entry(alloc, w, dataset, plan, stamp, at, listed) else {
        return Err(Refusal::NoMemory);
    };
    Ok(remade)
}
