//! The draft of an entry, from what it is made of.

ghost use Rattle.std.specs.Prelude.{◌≡◌, List, None, IfOk};
ghost use Rattle.op_model.specs.declared.base.Base.{Base};
ghost use Rattle.op_model.specs.declared.entry.Entry.{Entry};
ghost use Rattle.op_model.specs.Legal.{LegalPlan};
ghost use Rattle.op_model.specs.Refusals.{refuse_late};
ghost use Rattle.record_rows.specs.Readings.{Image};
ghost use Rattle.hierarchy_edit.specs.Listed.{IsListed};
ghost use Rattle.hierarchy_edit.specs.Remade.{IsRemade, IsStamped};

use crate::listing::Listed;
use crate::remaking::{Remade, Stamp};
use entry_lists::draft_of_lists;
use op_model::{Dataset, Plan};
use pcg_base::{NoMemory, Words};
use std::alloc::Global;

/// The draft of an entry that nothing refuses, from what it is made of, with its timestamp `at`.
///
/// # Errors
///
/// `NoMemory` where there is none for the draft.
pub(crate) fn draft_entry<W: Words>(
    alloc: Global,
    w: &mut W,
    dataset: &Dataset,
    plan: &Plan,
    stamp: Stamp,
    at: u64,
    listed: Listed,
) -> Result<Remade, NoMemory>
    requires plan { (b : Base) × (log : List Entry) × Image dataset.now b log (W.words w.old) × LegalPlan dataset.now b log plan.now.edit plan.now.changed
        × IsListed dataset.now b log plan.now.edit listed × (refuse_late dataset.now b log plan.now.edit ≡ None) × IsStamped log stamp at }
    ensures same { w.new ≡ w.old }
    ensures remade { (b : Base) (log : List Entry) → Image dataset.now b log (W.words w.old) → LegalPlan dataset.now b log plan.now.edit plan.now.changed
        → IsListed dataset.now b log plan.now.edit listed → refuse_late dataset.now b log plan.now.edit ≡ None → IsStamped log stamp at
        → IfOk result (IsRemade dataset.now b log plan.now.edit stamp) }
{
    let places = listed.places;
    let nodes = listed.nodes.as_slice();
    let links = listed.links.as_slice();
    let draft = draft_of_lists(
        alloc,
        w,
        dataset,
        plan,
        stamp.client,
        stamp.line,
        at,
        nodes,
        links,
        places,
    )?;
    Ok(Remade {
        draft,
        op: listed.number,
        at,
        retired: listed.retired,
        made: listed.made,
    })
}
