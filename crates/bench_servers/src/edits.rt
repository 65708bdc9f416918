//! The locks, the plan and the entry of an edit.

ghost use Rattle.std.specs.Prelude.{◌≡◌, IfOk};
ghost use Rattle.bench_servers.specs.Servers.{IsPlanned, IsServer};

use crate::forms::{Form, form_of};
use hierarchy_edit::{Remade, Stamp, commit};
use op_model::{Dataset, Edit, Plan, Refusal};
use pcg_base::VecWords;
use std::alloc::Global;

pub(crate) fn locks_of(w: &mut VecWords, dataset: &Dataset, edit: &Edit) -> Result<u64, Refusal>
    requires server { IsServer dataset.now w.old.words w.old.spare }
    ensures same { w.new ≡ w.old }
{
    match form_of(edit) {
        Form::Merge => edit_merge::locks(w, edit),
        Form::Split => edit_split::locks(w, edit),
        Form::Turn => undo_redo::locks(w, edit),
    }
}

pub(crate) fn plan_of(
    alloc: Global,
    w: &mut VecWords,
    dataset: &Dataset,
    edit: Edit,
) -> Result<Plan, Refusal>
    requires server { IsServer dataset.now w.old.words w.old.spare }
    ensures same { w.new ≡ w.old }
    ensures planned { IfOk result (IsPlanned dataset.now w.old.words) }
{
    match form_of(&edit) {
        Form::Merge => edit_merge::plan(alloc, w, dataset, edit),
        Form::Split => edit_split::plan(alloc, w, dataset, edit),
        Form::Turn => undo_redo::plan(alloc, w, dataset, edit),
    }
}

// puts the entry of a plan, unless it is refused
fn put_plan(
    alloc: Global,
    w: &mut VecWords,
    dataset: &Dataset,
    plan: &Plan,
    stamp: Stamp,
) -> Result<Remade, Refusal>
    requires server { IsServer dataset.now w.old.words w.old.spare }
    requires planned { IsPlanned dataset.now w.old.words plan.now }
    ensures server { IsServer dataset.now w.new.words w.new.spare }
{
    commit(alloc, w, dataset, plan, stamp)
}

pub(crate) fn put_edit(
    alloc: Global,
    w: &mut VecWords,
    dataset: &Dataset,
    edit: Edit,
    stamp: Stamp,
) -> Result<Remade, Refusal>
    requires server { IsServer dataset.now w.old.words w.old.spare }
    ensures server { IsServer dataset.now w.new.words w.new.spare }
{
    let plan = plan_of(alloc, w, dataset, edit)?;
    put_plan(alloc, w, dataset, &plan, stamp)
}
