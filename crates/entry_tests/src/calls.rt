//! The calls of an edit over the words of a log: its plan, its draft, and its entry put into them.

ghost use Rattle.std.specs.Prelude.{◌≡◌, IfOk};
ghost use Rattle.op_model.specs.Valid.{IsBase, IsDataset};
ghost use Rattle.edit_merge.specs.Plans.{IsMerge};
ghost use Rattle.edit_split.specs.Marks.{IsSplit};
ghost use Rattle.undo_redo.specs.Turns.{IsTurn};
ghost use Rattle.entry_tests.specs.Servers.{IsPlanned, IsServer};

use hierarchy_build::{BuildError, build};
use hierarchy_edit::{Remade, Stamp, commit, remake};
use op_model::{AskedPairs, Base, Dataset, Edit, Ids, Plan, Refusal};
use pcg_base::VecWords;
use std::alloc::Global;

/// The words of the log of a base, with the entry of its ingest at a time in milliseconds.
pub fn built(alloc: Global, base: &Base, dataset: &Dataset, at: u64) -> Result<VecWords, BuildError>
    requires dataset { IsDataset dataset.now }
    requires base { IsBase dataset.now base.now }
    ensures server { IfOk result (λ w. IsServer dataset.now w.words w.spare) }
{
    build(alloc, base, dataset, at)
}

fn merge_of(pairs: AskedPairs) -> Edit
    ensures { IsMerge result }
{
    Edit::Merge { pairs }
}

fn split_of(sources: Ids, sinks: Ids) -> Edit
    ensures { IsSplit result }
{
    Edit::Split { sources, sinks }
}

#[tactic(auto, unfolding(undo_redo::specs::Turns::IsTurn))]
fn undo_of(op: u64) -> Edit
    ensures { IsTurn result }
{
    Edit::Undo { op }
}

#[tactic(auto, unfolding(undo_redo::specs::Turns::IsTurn))]
fn redo_of(op: u64) -> Edit
    ensures { IsTurn result }
{
    Edit::Redo { op }
}

fn merge_plan(
    alloc: Global,
    w: &mut VecWords,
    dataset: &Dataset,
    edit: Edit,
) -> Result<Plan, Refusal>
    requires server { IsServer dataset.now w.old.words w.old.spare }
    requires kind { IsMerge edit }
    ensures same { w.new ≡ w.old }
    ensures planned { IfOk result (IsPlanned dataset.now w.old.words) }
{
    edit_merge::plan(alloc, w, dataset, edit)
}

fn split_plan(
    alloc: Global,
    w: &mut VecWords,
    dataset: &Dataset,
    edit: Edit,
) -> Result<Plan, Refusal>
    requires server { IsServer dataset.now w.old.words w.old.spare }
    requires kind { IsSplit edit }
    ensures same { w.new ≡ w.old }
    ensures planned { IfOk result (IsPlanned dataset.now w.old.words) }
{
    edit_split::plan(alloc, w, dataset, edit)
}

fn turn_plan(
    alloc: Global,
    w: &mut VecWords,
    dataset: &Dataset,
    edit: Edit,
) -> Result<Plan, Refusal>
    requires server { IsServer dataset.now w.old.words w.old.spare }
    requires kind { IsTurn edit }
    ensures same { w.new ≡ w.old }
    ensures planned { IfOk result (IsPlanned dataset.now w.old.words) }
{
    undo_redo::plan(alloc, w, dataset, edit)
}

/// The plan of an edit, or why there is none.
pub fn plan_of(
    alloc: Global,
    w: &mut VecWords,
    dataset: &Dataset,
    edit: Edit,
) -> Result<Plan, Refusal>
    requires server { IsServer dataset.now w.old.words w.old.spare }
    ensures same { w.new ≡ w.old }
    ensures planned { IfOk result (IsPlanned dataset.now w.old.words) }
{
    match edit {
        Edit::Merge { pairs } => merge_plan(alloc, w, dataset, merge_of(pairs)),
        Edit::Split { sources, sinks } => {
            split_plan(alloc, w, dataset, split_of(sources, sinks))
        }
        Edit::Undo { op } => turn_plan(alloc, w, dataset, undo_of(op)),
        Edit::Redo { op } => turn_plan(alloc, w, dataset, redo_of(op)),
    }
}

/// What `remake` gives of a plan.
pub fn drafted(
    alloc: Global,
    w: &mut VecWords,
    dataset: &Dataset,
    plan: &Plan,
    stamp: Stamp,
) -> Result<Remade, Refusal>
    requires planned { IsPlanned dataset.now w.old.words plan.now }
    ensures same { w.new ≡ w.old }
{
    remake(alloc, w, dataset, plan, stamp)
}

/// What `commit` gives of a plan.
pub fn put(
    alloc: Global,
    w: &mut VecWords,
    dataset: &Dataset,
    plan: &Plan,
    stamp: Stamp,
) -> Result<Remade, Refusal>
    requires server { IsServer dataset.now w.old.words w.old.spare }
    requires planned { IsPlanned dataset.now w.old.words plan.now }
    ensures server { IsServer dataset.now w.new.words w.new.spare }
{
    commit(alloc, w, dataset, plan, stamp)
}
