//! The locks and the plan of a split.

ghost use Rattle.std.specs.Prelude.{◌≡◌, map, None, Some, IfOk, MatchResult};
ghost use Rattle.op_model.specs.declared.request.Edit.{Edit as TheEdit};
ghost use Rattle.op_model.specs.Cuts.{IsShown, part};
ghost use Rattle.op_model.specs.Refusals.{refuse_cut, refuse_early};
ghost use Rattle.record_rows.specs.Readings.{ForEachLog, ForSomeLog, Image, ParentImage};
ghost use Rattle.log_rows.specs.Entries.{HasLog};
ghost use Rattle.root_masks.specs.Plans.{AreLocks, IsPlan, IsUnplanned};
ghost use Rattle.edit_split.specs.Marks.{IsSplit, off};
ghost use Rattle.edit_split.specs.Components.{IsCutOf, IsPlanOf};

use crate::cutting::cut_of;
use crate::refusing::refusal_of;
use node_ids::NodeId;
use op_model::{Changed, ChangedPairs, Dataset, Edit, Pair, Plan, Refusal, Shown};
use pcg_base::Words;
use root_masks::with_root;
use std::alloc::{AllocError, Global};

/// The lock of the root that a split touches, as a bit of a mask, or why it is refused before its
/// component is looked at. It takes no memory.
pub fn locks<W: Words>(w: &mut W, edit: &Edit) -> Result<u64, Refusal>
    requires image { HasLog ParentImage (W.words w.old) }
    requires kind { IsSplit edit.now }
    ensures same { w.new ≡ w.old }
    ensures is { ForEachLog ParentImage (W.words w.old) (λ d b log. MatchResult result (AreLocks d b log edit.now) (λ r. refuse_early d b log edit.now ≡ Some r)) }
{
    let Edit::Split { sources, sinks } = edit else {
        unreachable!()
    };
    locks_of(w, sources.list.as_slice(), sinks.list.as_slice())
}

/// The lock of the root of these marks, or why a split between them is refused.
fn locks_of<W: Words>(w: &mut W, sources: &[NodeId], sinks: &[NodeId]) -> Result<u64, Refusal>
    requires image { HasLog ParentImage (W.words w.old) }
    ensures same { w.new ≡ w.old }
    ensures is { ForEachLog ParentImage (W.words w.old) (λ d b log. MatchResult result (AreLocks d b log (TheEdit.Split sources.now sinks.now)) (λ r. refuse_early d b log (TheEdit.Split sources.now sinks.now) ≡ Some r)) }
{
    if let Some(refusal) = refusal_of(w, sources, sinks) {
        return Err(refusal);
    }
    let source = sources[0];
    Ok(with_root(w, 0, source))
}

/// The pairs that a split cuts with their weight and a flow that shows that no lighter set of pairs
/// separates its marks, or why it is refused before room, ids and time count.
///
/// # Errors
///
/// The refusal, or `NoMemory` where there is none for the component, its net or the plan.
pub fn plan<W: Words>(
    alloc: Global,
    w: &mut W,
    _dataset: &Dataset,
    edit: Edit,
) -> Result<Plan, Refusal>
    requires image { HasLog Image (W.words w.old) }
    requires kind { IsSplit edit }
    ensures same { w.new ≡ w.old }
    ensures is { ForEachLog Image (W.words w.old) (λ d b log. MatchResult result (IsPlan d b log edit) (IsUnplanned d b log edit)) }
{
    match shown_by(alloc, w, &edit) {
        Ok(shown) => plan_of(alloc, edit, shown),
        Err(refusal) => Err(refusal),
    }
}

/// The plan of a split that cuts these pairs.
fn plan_of(alloc: Global, edit: Edit, shown: Shown) -> Result<Plan, Refusal>
    ensures { MatchResult result (IsPlanOf edit shown) (λ r. r ≡ Refusal.NoMemory) }
{
    match inactive(alloc, shown.cut.list.as_slice()) {
        Ok(changed) => Ok(Plan {
            edit,
            changed,
            shown: Some(shown),
        }),
        Err(_) => Err(Refusal::NoMemory),
    }
}

/// These pairs, each inactive.
#[tactic(auto, unfolding(crate::specs::Marks::off))]
fn inactive(alloc: Global, pairs: &[Pair]) -> Result<ChangedPairs, AllocError>
    ensures { IfOk result (λ cs. cs ≡ map off pairs.now) }
{
    let mut list = Vec::new(alloc);
    for at in 0..pairs.len() {
        list.push(Changed {
            pair: pairs[at],
            active: false,
        })?;
    }
    Ok(ChangedPairs { list })
}

/// What a split cuts, or why there is no plan of it.
fn shown_by<W: Words>(alloc: Global, w: &mut W, edit: &Edit) -> Result<Shown, Refusal>
    requires image { HasLog Image (W.words w.old) }
    requires kind { IsSplit edit.now }
    ensures same { w.new ≡ w.old }
    ensures is { ForEachLog Image (W.words w.old) (λ d b log. MatchResult result (IsCutOf d b log edit.now) (IsUnplanned d b log edit.now)) }
{
    let Edit::Split { sources, sinks } = edit else {
        unreachable!()
    };
    shown_of(alloc, w, sources.list.as_slice(), sinks.list.as_slice())
}

/// What a split between these marks cuts, or why there is no plan of it.
fn shown_of<W: Words>(
    alloc: Global,
    w: &mut W,
    sources: &[NodeId],
    sinks: &[NodeId],
) -> Result<Shown, Refusal>
    requires image { HasLog Image (W.words w.old) }
    ensures same { w.new ≡ w.old }
    ensures is { ForEachLog Image (W.words w.old) (λ d b log. MatchResult result (IsCutOf d b log (TheEdit.Split sources.now sinks.now)) (IsUnplanned d b log (TheEdit.Split sources.now sinks.now))) }
{
    if let Some(refusal) = refusal_of(w, sources, sinks) {
        return Err(refusal);
    }
    cut_of(alloc, w, sources, sinks)
}
