//! The part of an edit in its turn.

ghost use Rattle.std.specs.Prelude.{◌≡◌, ◌*◌, [], true, false, length, IfErr, IfOk, Ok};
ghost use Rattle.op_model.specs.Legal.{LegalPlan};
ghost use Rattle.root_masks.specs.Plans.{IsPlan};
ghost use Rattle.hierarchy_edit.specs.Remade.{IsLate, IsRemade};
ghost use Rattle.shared_rows.specs.Drafting.{IsSeen};
ghost use Rattle.edit_desk.specs.Desk.{Edits};
ghost use Rattle.edit_desk.specs.Pins.{Pinned};
ghost use Rattle.edit_desk.specs.Turns.{Appends};

use crate::desk::SharedDesk;
use crate::publishing::publish_edit;
use crate::replies::{reply_of, shown_of};
use hierarchy_edit::{Remade, Stamp, remake};
use op_model::{Dataset, Ids, Plan, Refusal, Reply};
use pcg_base::{Clock, Gate};
use shared_rows::{Image, Pass, Shared};
use std::alloc::Global;
use std::sync::Wait;

/// An entry that was published.
#[derive(Drop)]
pub struct Put {
    /// Its number.
    pub op: u32,
    /// Its timestamp in milliseconds.
    pub at: u64,
    /// The roots that it retired, ascending.
    pub retired: Ids,
    /// The roots that it made, ascending.
    pub made: Ids,
    /// The length of the log with it.
    pub seen: u32,
}

/// The draft of a plan's entry at what the pass sees.
fn remake_at(
    alloc: Global,
    shared: &Shared,
    pass: &mut Pass,
    dataset: &Dataset,
    plan: &Plan,
    stamp: Stamp,
) -> Result<Remade, Refusal>
    requires own { pass.old.table ≡ shared.now.table }
    requires dataset { dataset.now ≡ pass.old.view.dataset }
    requires stands { IsSeen pass.old.view }
    requires plan { LegalPlan pass.old.view.dataset pass.old.view.base pass.old.view.log plan.now.edit plan.now.changed }
    ensures same { pass.new ≡ pass.old }
    ensures remade { IfOk result (IsRemade pass.old.view.dataset pass.old.view.base pass.old.view.log plan.now.edit stamp) }
    ensures refused { IfErr result (IsLate pass.old.view.dataset pass.old.view.base pass.old.view.log plan.now.edit) }
{
    remake(alloc, &mut Image { shared, pass }, dataset, plan, stamp)
}

/// Publishes what was drafted of a plan.
fn put_entry<R: Wait, G: Gate>(
    rt: &R,
    gate: &G,
    shared: &Shared,
    pass: &mut Pass,
    plan: &Plan,
    stamp: Stamp,
    remade: Remade,
) -> Put
    requires own { pass.old.table ≡ shared.now.table }
    requires fresh { pass.old.view.fresh ≡ true }
    requires clean { pass.old.view.draft ≡ [] }
    requires pinned { Pinned plan.now.edit pass.old.view }
    requires plan { IsPlan pass.old.view.dataset pass.old.view.base pass.old.view.log plan.now.edit plan.now }
    requires client { stamp.client ≡ pass.old.view.number }
    requires remade { IsRemade pass.old.view.dataset pass.old.view.base pass.old.view.log plan.now.edit stamp remade }
    ensures table { pass.new.table ≡ pass.old.table }
    ensures clean { pass.new.view.draft ≡ [] }
    ensures put { Appends pass.old.view plan.now.edit stamp.line (Ok result) pass.new.view }
{
    let Remade {
        draft,
        op,
        at,
        retired,
        made,
    } = remade;
    let seen = publish_edit(rt, gate, shared, pass, &plan.edit, stamp.line, at, &draft);
    Put {
        op,
        at,
        retired,
        made,
        seen,
    }
}

/// Makes the records of a plan's entry and publishes them, if nothing refuses it.
fn append<R: Wait, G: Gate>(
    rt: &R,
    alloc: Global,
    gate: &G,
    shared: &Shared,
    pass: &mut Pass,
    dataset: &Dataset,
    plan: &Plan,
    stamp: Stamp,
) -> Result<Put, Refusal>
    requires own { pass.old.table ≡ shared.now.table }
    requires dataset { dataset.now ≡ pass.old.view.dataset }
    requires fresh { pass.old.view.fresh ≡ true }
    requires clean { pass.old.view.draft ≡ [] }
    requires pinned { Pinned plan.now.edit pass.old.view }
    requires plan { IsPlan pass.old.view.dataset pass.old.view.base pass.old.view.log plan.now.edit plan.now }
    requires client { stamp.client ≡ pass.old.view.number }
    ensures table { pass.new.table ≡ pass.old.table }
    ensures clean { pass.new.view.draft ≡ [] }
    ensures appends { Appends pass.old.view plan.now.edit stamp.line result pass.new.view }
{
    match remake_at(alloc, shared, pass, dataset, plan, stamp) {
        Ok(remade) => Ok(put_entry(rt, gate, shared, pass, plan, stamp, remade)),
        Err(refusal) => Err(refusal),
    }
}

/// Takes the turn, looks, asks the clock once, appends the entry of a plan, and gives the turn back.
/// The plan was made at what the pass had pinned.
pub(crate) fn commit<R: Wait, C: Clock, G: Gate>(
    rt: &R,
    alloc: Global,
    desk: &SharedDesk<'_, C, G>,
    pass: &mut Pass,
    plan: Plan,
    line: u32,
) -> Reply
    requires own { pass.old.table ≡ desk.now.shared.now.table }
    requires dataset { desk.now.dataset.now ≡ pass.old.view.dataset }
    requires idle { (pass.old.view.turn ≡ false) × (pass.old.view.draft ≡ []) }
    requires pinned { Pinned plan.edit pass.old.view }
    requires plan { IsPlan pass.old.view.dataset pass.old.view.base pass.old.view.log plan.edit plan }
    ensures table { pass.new.table ≡ pass.old.table }
    ensures idle { (pass.new.view.turn ≡ false) × (pass.new.view.draft ≡ []) }
    ensures held { pass.new.view.held ≡ pass.old.view.held }
    ensures edits { Edits pass.old.view plan.edit line result pass.new.view }
{
    desk.shared.take_turn(rt, pass);
    let seen = desk.shared.look(pass);
    let stamp = Stamp {
        client: pass.number(),
        line,
        now: desk.clock.now(),
    };
    let put = append(
        rt,
        alloc,
        desk.gate,
        desk.shared,
        pass,
        desk.dataset,
        &plan,
        stamp,
    );
    desk.shared.give_turn(pass);
    reply_of(put, shown_of(plan), seen)
}
