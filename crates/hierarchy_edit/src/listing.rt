//! What an entry is made of, before its draft is made.

ghost use Rattle.std.specs.Prelude.{◌≡◌, List, IfOk};
ghost use Rattle.op_model.specs.declared.base.Base.{Base};
ghost use Rattle.op_model.specs.declared.entry.Entry.{Entry};
ghost use Rattle.op_model.specs.Legal.{LegalPlan};
ghost use Rattle.record_rows.specs.Readings.{Image};
ghost use Rattle.hierarchy_edit.specs.Listed.{IsListed};

use crate::counting::records_of;
use crate::standing::{log_state, made_layers, refusal_of};
use entry_parts::{MadeLink, MadeNode};
use op_model::{Changed, Dataset, Ids, Plan, Refusal};
use pcg_base::{NoMemory, Words};
use row_words::Spot;
use std::alloc::Global;
use touched_paths::old_paths;

/// What an entry is made of.
#[derive(Drop)]
pub struct Listed {
    /// How many entries stand before it.
    pub number: u32,
    /// The last timestamp before it, in milliseconds.
    pub last: u64,
    /// How many records it needs.
    pub need: u64,
    /// How many are left.
    pub spare: u64,
    /// The refusal of the first chunk without a number for it, if there is one.
    pub spent: Option<Refusal>,
    /// The roots that it retires, ascending.
    pub retired: Ids,
    /// The roots that it makes, ascending.
    pub made: Ids,
    /// The nodes that it makes, in the order of their records.
    pub nodes: Vec<MadeNode>,
    /// The links of those nodes to their children, in the order of their records.
    pub links: Vec<MadeLink>,
    /// The places of the nodes that it retires.
    pub places: Vec<Spot>,
}

// the pairs that a plan changes
pub(crate) fn changed_of(plan: &Plan) -> &[Changed]
    ensures { result.now ≡ plan.now.changed }
{
    plan.changed.list.as_slice()
}

/// What the entry of a legal plan is made of.
///
/// # Errors
///
/// `NoMemory` where there is none for the lists.
pub fn list_entry<W: Words>(
    alloc: Global,
    w: &mut W,
    dataset: &Dataset,
    plan: &Plan,
) -> Result<Listed, NoMemory>
    requires plan { (b : Base) × (log : List Entry) × Image dataset.now b log (W.words w.old) × LegalPlan dataset.now b log plan.now.edit plan.now.changed }
    ensures same { w.new ≡ w.old }
    ensures listed { (b : Base) (log : List Entry) → Image dataset.now b log (W.words w.old) → LegalPlan dataset.now b log plan.now.edit plan.now.changed
        → IfOk result (IsListed dataset.now b log plan.now.edit) }
{
    let changed = changed_of(plan);
    let paths = old_paths(alloc, w, changed)?;
    let tops = paths.tops.as_slice();
    let places = paths.places.as_slice();
    let layers = made_layers(alloc, w, dataset, changed, tops, places)?;
    let state = log_state(w, dataset, changed);
    let need = records_of(&plan.edit, changed, state.unknown, &layers)?;
    let spent = refusal_of(dataset, layers.spent);
    Ok(Listed {
        number: state.number,
        last: state.last,
        need,
        spare: state.spare,
        spent,
        retired: paths.roots,
        made: layers.roots,
        nodes: layers.nodes,
        links: layers.links,
        places: paths.places,
    })
}
