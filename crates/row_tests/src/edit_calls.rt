//! The locks and the plans of merges, undos and redos, and whether they are what is wanted.

ghost use Rattle.std.specs.Prelude.{◌≡◌};
ghost use Rattle.edit_merge.specs.Plans.{IsMerge};
ghost use Rattle.undo_redo.specs.Turns.{IsTurn};
ghost use Rattle.row_tests.specs.Kinds.{IsSample};

use node_ids::NodeId;
use op_model::{AskedPair, AskedPairs, ChangedPairs, Dataset, Edit, Plan, Refusal};
use pcg_base::{NoMemory, VecWords};
use std::alloc::Global;

/// What is wanted of an edit.
#[derive(Clone, Copy, Drop)]
pub enum Wanted<'a> {
    /// These locks, as bits of a mask, and these pairs with their new states.
    Plan(u64, &'a [(u64, u64, bool)]),
    /// This refusal, of both calls.
    Refused(&'a Refusal),
}

/// Pairs as a merge names them.
fn asked_pairs(alloc: Global, pairs: &[(u64, u64)]) -> Result<AskedPairs, NoMemory> {
    let mut list = Vec::new(alloc);
    for x in pairs {
        let pair = AskedPair {
            a: NodeId(x.0),
            b: NodeId(x.1),
        };
        match list.push(pair) {
            Ok(()) => {}
            Err(_) => return Err(NoMemory),
        }
    }
    Ok(AskedPairs { list })
}

fn merge_of(pairs: AskedPairs) -> Edit
    ensures { IsMerge result }
{
    Edit::Merge { pairs }
}

#[tactic(auto, unfolding(undo_redo::specs::Turns::IsTurn))]
fn undo_of(op: u64) -> Edit
    ensures { IsTurn result }
{
    Edit::Undo { op }
}

#[tactic(auto, unfolding(undo_redo::specs::Turns::IsTurn))]
fn redo_of(op: u64) -> Edit
    ensures { IsTurn result }
{
    Edit::Redo { op }
}

/// Whether a merge of these pairs has these locks and this plan, or is refused like this.
pub fn merges(
    alloc: Global,
    w: &mut VecWords,
    dataset: &Dataset,
    pairs: &[(u64, u64)],
    want: Wanted,
) -> Result<bool, NoMemory>
    requires sample { IsSample w.old.words }
    ensures same { w.new ≡ w.old }
{
    let edit = merge_of(asked_pairs(alloc, pairs)?);
    let locks = edit_merge::locks(w, &edit);
    let plan = edit_merge::plan(alloc, w, dataset, edit);
    Ok(is_wanted(&locks, &plan, want))
}

/// Whether an undo of this operation, or else a redo, has these locks and this plan, or is refused
/// like this.
pub fn turns(
    alloc: Global,
    w: &mut VecWords,
    dataset: &Dataset,
    back: bool,
    op: u64,
    want: Wanted,
) -> bool
    requires sample { IsSample w.old.words }
    ensures same { w.new ≡ w.old }
{
    let edit = if back { undo_of(op) } else { redo_of(op) };
    turns_like(alloc, w, dataset, edit, want)
}

fn turns_like(alloc: Global, w: &mut VecWords, dataset: &Dataset, edit: Edit, want: Wanted) -> bool
    requires sample { IsSample w.old.words }
    requires kind { IsTurn edit }
    ensures same { w.new ≡ w.old }
{
    let locks = undo_redo::locks(w, &edit);
    let plan = undo_redo::plan(alloc, w, dataset, edit);
    is_wanted(&locks, &plan, want)
}

fn is_wanted(locks: &Result<u64, Refusal>, plan: &Result<Plan, Refusal>, want: Wanted) -> bool {
    match want {
        Wanted::Plan(mask, changed) => is_mask(locks, mask) && is_plan(plan, changed),
        Wanted::Refused(refusal) => is_refused(locks, plan, refusal),
    }
}

fn is_mask(locks: &Result<u64, Refusal>, want: u64) -> bool {
    match locks {
        Ok(mask) => *mask == want,
        Err(_) => false,
    }
}

fn is_plan(plan: &Result<Plan, Refusal>, want: &[(u64, u64, bool)]) -> bool {
    match plan {
        Ok(plan) => are_changed(&plan.changed, want) && plan.shown.is_none(),
        Err(_) => false,
    }
}

fn are_changed(changed: &ChangedPairs, want: &[(u64, u64, bool)]) -> bool {
    let list = changed.list.as_slice();
    for (found, x) in list.iter().zip(want.iter()) {
        if found.pair.a.0 != x.0 || found.pair.b.0 != x.1 || found.active != x.2 {
            return false;
        }
    }
    list.len() == want.len()
}

fn is_refused(locks: &Result<u64, Refusal>, plan: &Result<Plan, Refusal>, want: &Refusal) -> bool {
    let first = match locks {
        Ok(_) => false,
        Err(refusal) => refusal == want,
    };
    let second = match plan {
        Ok(_) => false,
        Err(refusal) => refusal == want,
    };
    first && second
}
