//! The entry of an edit is drafted and published.

ghost use Rattle.std.specs.Prelude.{◌≡◌, ◌≤◌, [], ◌∷◌, true, length};
ghost use Rattle.op_model.specs.declared.entry.Entry.{Entry};
ghost use Rattle.op_model.specs.Operations.{next_entry};
ghost use Rattle.shared_rows.specs.Known.{known};
ghost use Rattle.shared_rows.specs.Drafting.{Adds, Whole, end_of};
ghost use Rattle.shared_rows.specs.Plays.{published};
ghost use Rattle.edit_desk.specs.Desk.{Puts};

use op_model::Edit;
use pcg_base::{Gate, Point};
use row_words::Draft;
use shared_rows::{Pass, Shared};
use std::sync::Wait;

/// Drafts and publishes the entry of an edit. Gives the new length of the log.
pub(crate) fn publish_edit<R: Wait, G: Gate>(
    rt: &R,
    gate: &G,
    shared: &Shared,
    pass: &mut Pass,
    edit: &Edit,
    line: u32,
    at: u64,
    draft: &Draft,
) -> u32
    requires own { pass.old.table ≡ shared.now.table }
    requires fresh { pass.old.view.fresh ≡ true }
    requires clean { pass.old.view.draft ≡ [] }
    requires adds { Adds pass.old.view draft.now (next_entry pass.old.view.dataset pass.old.view.base pass.old.view.log pass.old.view.number line at edit.now) }
    ensures table { pass.new.table ≡ pass.old.table }
    ensures puts { Puts pass.old.view (next_entry pass.old.view.dataset pass.old.view.base pass.old.view.log pass.old.view.number line at edit.now) pass.new.view }
    ensures clean { pass.new.view.draft ≡ [] }
    ensures length { result ≡ length pass.new.view.log }
{
    shared.draft(pass, draft);
    gate.pass(rt, Point::Drafted, pass.number(), line);
    let seen = publish_by(shared, pass, edit, line, at);
    gate.pass(rt, Point::Published, pass.number(), line);
    seen
}

/// Publishes what was drafted. The edit, its line and its time tell which entry it is.
fn publish_by(shared: &Shared, pass: &mut Pass, _edit: &Edit, _line: u32, _at: u64) -> u32
    ghost entry: { Entry }
    requires own { pass.old.table ≡ shared.now.table }
    requires fresh { pass.old.view.fresh ≡ true }
    requires whole { Whole pass.old.view (end_of pass.old.view.draft) entry }
    ensures published { pass.new ≡ known pass.old.table (published pass.old.view (end_of pass.old.view.draft) entry) }
    ensures length { result ≡ length pass.new.view.log }
{
    shared.publish(pass)
}
