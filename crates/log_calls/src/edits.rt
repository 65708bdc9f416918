//! The locks and the plan of an edit, by its form.

ghost use Rattle.std.specs.Prelude.{◌≡◌};
ghost use Rattle.record_rows.specs.Readings.{ForEachLog, Image};
ghost use Rattle.log_rows.specs.Entries.{HasLog};
ghost use Rattle.root_masks.specs.Plans.{AnswersLocks, AnswersPlan};
ghost use Rattle.log_calls.specs.Forms.{IsOf};

use op_model::{Dataset, Edit, Plan, Refusal};
use pcg_base::Words;
use std::alloc::Global;

/// Which crate answers an edit.
#[derive(Clone, Copy, Drop)]
pub enum Form {
    /// A merge.
    Merge,
    /// A split.
    Split,
    /// An undo or a redo.
    Turn,
}

/// Which crate answers this edit.
fn form_of(edit: &Edit) -> Form
    ensures { IsOf edit.now result }
{
    match edit {
        Edit::Merge { .. } => Form::Merge,
        Edit::Split { .. } => Form::Split,
        Edit::Undo { .. } => Form::Turn,
        Edit::Redo { .. } => Form::Turn,
    }
}

/// The locks of the roots that an edit touches, as bits of a mask. It takes no memory.
///
/// # Errors
///
/// The edit's first refusal for its ids, marks, roots or operation.
pub fn locks<W: Words>(w: &mut W, edit: &Edit) -> Result<u64, Refusal>
    requires image { HasLog Image (W.words w.old) }
    ensures same { w.new ≡ w.old }
    ensures is { ForEachLog Image (W.words w.old) (λ d b log. AnswersLocks d b log edit.now result) }
{
    match form_of(edit) {
        Form::Merge => edit_merge::locks(w, edit),
        Form::Split => edit_split::locks(w, edit),
        Form::Turn => undo_redo::locks(w, edit),
    }
}

/// What an edit would change, and what its reply shows.
///
/// # Errors
///
/// The first refusal before room, ids and time count, or `NoMemory`.
pub fn plan<W: Words>(
    alloc: Global,
    w: &mut W,
    dataset: &Dataset,
    edit: Edit,
) -> Result<Plan, Refusal>
    requires image { HasLog Image (W.words w.old) }
    ensures same { w.new ≡ w.old }
    ensures is { ForEachLog Image (W.words w.old) (λ d b log. AnswersPlan d b log edit result) }
{
    match form_of(&edit) {
        Form::Merge => edit_merge::plan(alloc, w, dataset, edit),
        Form::Split => edit_split::plan(alloc, w, dataset, edit),
        Form::Turn => undo_redo::plan(alloc, w, dataset, edit),
    }
}
