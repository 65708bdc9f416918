//! The locks and the plan of a merge.

ghost use Rattle.std.specs.Prelude.{◌≡◌, map};
ghost use Rattle.op_model.specs.declared.request.Edit.{Edit as TheEdit};
ghost use Rattle.op_model.specs.Edges.{named_ends};
ghost use Rattle.op_model.specs.Labels.{root};
ghost use Rattle.record_rows.specs.Readings.{ForEachLog, ForSomeLog, ParentImage};
ghost use Rattle.log_rows.specs.Entries.{HasLog};
ghost use Rattle.root_masks.specs.Masks.{HasLocks};
ghost use Rattle.root_masks.specs.Plans.{AnswersChange, AnswersLocks, AnswersPlan, AreKnown};
ghost use Rattle.edit_merge.specs.Plans.{IsMerge};

use crate::naming::named_on;
use crate::refusing::refusal_of;
use op_model::{AskedPair, ChangedPairs, Dataset, Edit, Plan, Refusal};
use pcg_base::Words;
use root_masks::with_ends;
use std::alloc::Global;

/// The locks of the roots that a merge touches, as bits of a mask, or why it is refused before room,
/// ids and time count. It takes no memory.
pub fn locks<W: Words>(w: &mut W, edit: &Edit) -> Result<u64, Refusal>
    requires image { HasLog ParentImage (W.words w.old) }
    requires kind { IsMerge edit.now }
    ensures same { w.new ≡ w.old }
    ensures is { ForEachLog ParentImage (W.words w.old) (λ d b log. AnswersLocks d b log edit.now result) }
{
    let Edit::Merge { pairs } = edit else {
        unreachable!()
    };
    locks_of(w, pairs.list.as_slice())
}

/// The locks of the roots that a merge of these pairs touches, or why it is refused.
fn locks_of<W: Words>(w: &mut W, pairs: &[AskedPair]) -> Result<u64, Refusal>
    requires image { HasLog ParentImage (W.words w.old) }
    ensures same { w.new ≡ w.old }
    ensures is { ForEachLog ParentImage (W.words w.old) (λ d b log. AnswersLocks d b log (TheEdit.Merge pairs.now) result) }
{
    match refusal_of(w, pairs) {
        Some(refusal) => Err(refusal),
        None => Ok(mask_of(w, pairs)),
    }
}

/// The locks of the roots of the ends of these pairs, which must be supervoxels of the base.
fn mask_of<W: Words>(w: &mut W, pairs: &[AskedPair]) -> u64
    requires known { ForSomeLog ParentImage (W.words w.old) (λ d b log. AreKnown b (named_ends pairs.now)) }
    ensures same { w.new ≡ w.old }
    ensures is { ForEachLog ParentImage (W.words w.old) (λ d b log. AreKnown b (named_ends pairs.now) → HasLocks d.layout (map (root d b log) (named_ends pairs.now)) result) }
{
    let mut mask = 0;
    for done in 0..pairs.len() {
        let pair = pairs[done];
        mask = with_ends(w, mask, pair.a, pair.b);
    }
    mask
}

/// The pairs that a merge changes, or why it is refused before room, ids and time count.
///
/// # Errors
///
/// The refusal, or `NoMemory` where there is none for the list of pairs.
pub fn plan<W: Words>(
    alloc: Global,
    w: &mut W,
    _dataset: &Dataset,
    edit: Edit,
) -> Result<Plan, Refusal>
    requires image { HasLog ParentImage (W.words w.old) }
    requires kind { IsMerge edit }
    ensures same { w.new ≡ w.old }
    ensures is { ForEachLog ParentImage (W.words w.old) (λ d b log. AnswersPlan d b log edit result) }
{
    match changed_by(alloc, w, &edit) {
        Ok(changed) => Ok(Plan {
            edit,
            changed,
            shown: None,
        }),
        Err(refusal) => Err(refusal),
    }
}

/// The pairs that a merge changes, or why there is no plan of it.
fn changed_by<W: Words>(alloc: Global, w: &mut W, edit: &Edit) -> Result<ChangedPairs, Refusal>
    requires image { HasLog ParentImage (W.words w.old) }
    requires kind { IsMerge edit.now }
    ensures same { w.new ≡ w.old }
    ensures is { ForEachLog ParentImage (W.words w.old) (λ d b log. AnswersChange d b log edit.now result) }
{
    let Edit::Merge { pairs } = edit else {
        unreachable!()
    };
    changed_of(alloc, w, pairs.list.as_slice())
}

/// The pairs that a merge of these pairs changes, or why there is no plan of it.
fn changed_of<W: Words>(
    alloc: Global,
    w: &mut W,
    pairs: &[AskedPair],
) -> Result<ChangedPairs, Refusal>
    requires image { HasLog ParentImage (W.words w.old) }
    ensures same { w.new ≡ w.old }
    ensures is { ForEachLog ParentImage (W.words w.old) (λ d b log. AnswersChange d b log (TheEdit.Merge pairs.now) result) }
{
    if let Some(refusal) = refusal_of(w, pairs) {
        return Err(refusal);
    }
    match named_on(alloc, pairs) {
        Ok(changed) => Ok(changed),
        Err(_) => Err(Refusal::NoMemory),
    }
}
