//! The locks and the plan of an edit, as the core asks for them.

ghost use Rattle.std.specs.Prelude.{◌≡◌};
ghost use Rattle.record_rows.specs.Readings.{ForEachLog, Image};
ghost use Rattle.log_rows.specs.Entries.{HasLog};
ghost use Rattle.client_events.specs.Calls.{Locks, Planned};

use op_model::{Dataset, Edit, Plan, Refusal};
use pcg_base::Words;
use std::alloc::Global;

/// The locks of the roots that an edit touches, as bits of a mask, or its first refusal before its
/// component, room, ids and time count. It takes no memory.
pub(crate) fn locks_of<W: Words>(w: &mut W, edit: &Edit) -> Result<u64, Refusal>
    requires image { HasLog Image (W.words w.old) }
    ensures same { w.new ≡ w.old }
    ensures is { ForEachLog Image (W.words w.old) (λ d b log. Locks d b log edit.now result) }
{
    log_calls::locks(w, edit)
}

/// What an edit would change, or why there is no plan of it.
///
/// # Errors
///
/// The refusal before room, ids and time count, or `NoMemory`.
pub(crate) fn plan_of<W: Words>(
    alloc: Global,
    w: &mut W,
    dataset: &Dataset,
    edit: Edit,
) -> Result<Plan, Refusal>
    requires image { HasLog Image (W.words w.old) }
    ensures same { w.new ≡ w.old }
    ensures is { ForEachLog Image (W.words w.old) (λ d b log. Planned d b log edit result) }
{
    log_calls::plan(alloc, w, dataset, edit)
}
