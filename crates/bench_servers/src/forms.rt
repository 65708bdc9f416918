//! Which crate answers an edit.

ghost use Rattle.bench_servers.specs.Servers.{IsOf};

use op_model::Edit;

/// Which crate answers an edit.
#[derive(Clone, Copy, Drop)]
pub(crate) enum Form {
    /// A merge.
    Merge,
    /// A split.
    Split,
    /// An undo or a redo.
    Turn,
}

/// Which crate answers this edit.
pub(crate) fn form_of(edit: &Edit) -> Form
    ensures { IsOf edit.now result }
{
    match edit {
        Edit::Merge { .. } => Form::Merge,
        Edit::Split { .. } => Form::Split,
        Edit::Undo { .. } => Form::Turn,
        Edit::Redo { .. } => Form::Turn,
    }
}
