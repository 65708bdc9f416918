//! The calls of the desk.

ghost use Rattle.std.specs.Prelude.{◌≡◌, ◌*◌, ◌<◌, [], false, length};
ghost use Rattle.root_masks.specs.Plans.{AnswersPlan};
ghost use Rattle.shared_rows.specs.Drafting.{IsSeen};
ghost use Rattle.timestamp_reader.specs.Replies.{IsAnswer};
ghost use Rattle.edit_desk.specs.Desk.{Edits, IsReady, Reads, Stays, Went};
ghost use Rattle.edit_desk.specs.Pins.{IsOver, Pinned, Settled};

use crate::pinning::{Tried, attempt};
use crate::replies::refusal_reply;
use crate::turning::commit;
use op_model::{Dataset, Edit, Plan, Read, Refusal, Reply};
use pcg_base::{Clock, Gate, Point};
use root_locks::unlock;
use shared_rows::{Image, Pass, Shared};
use std::alloc::Global;
use std::sync::Wait;

/// Where the clients of a running server read and edit.
#[derive(Drop)]
pub struct SharedDesk<'a, C: Clock, G: Gate> {
    /// The rows of all clients.
    pub shared: &'a Shared,
    /// What is fixed for their log.
    pub dataset: &'a Dataset,
    /// The clock that entries get their times from.
    pub clock: &'a C,
    /// What each edit passes.
    pub gate: &'a G,
}

/// The reply to a read at what the pass sees.
fn reply_at(alloc: Global, shared: &Shared, pass: &mut Pass, request: &Read) -> Reply
    requires own { pass.old.table ≡ shared.now.table }
    requires stands { IsSeen pass.old.view }
    ensures same { pass.new ≡ pass.old }
    ensures is { IsAnswer pass.old.view.dataset pass.old.view.base pass.old.view.log request.now result }
{
    log_calls::answer(alloc, &mut Image { shared, pass }, request)
}

/// The plan of an edit at what the pass sees, or why there is none.
fn plan_at(
    alloc: Global,
    shared: &Shared,
    pass: &mut Pass,
    dataset: &Dataset,
    edit: Edit,
) -> Result<Plan, Refusal>
    requires own { pass.old.table ≡ shared.now.table }
    requires stands { IsSeen pass.old.view }
    ensures same { pass.new ≡ pass.old }
    ensures is { AnswersPlan pass.old.view.dataset pass.old.view.base pass.old.view.log edit result }
{
    log_calls::plan(alloc, &mut Image { shared, pass }, dataset, edit)
}

/// Tries until the locks of the edit are pinned, or it is refused.
fn pin_all<R: Wait>(rt: &R, shared: &Shared, pass: &mut Pass, edit: &Edit) -> Tried
    requires own { pass.old.table ≡ shared.now.table }
    requires idle { (pass.old.view.held ≡ []) × (pass.old.view.turn ≡ false) × (pass.old.view.draft ≡ []) }
    ensures table { pass.new.table ≡ pass.old.table }
    ensures idle { (pass.new.view.turn ≡ false) × (pass.new.view.draft ≡ []) }
    ensures stays { Stays pass.old.view pass.new.view }
    ensures looks { pass.old.view.looks < pass.new.view.looks }
    ensures settled { Settled edit.now result pass.new.view }
    ensures over { IsOver result }
{
    for _ in rt.forever() {
        let tried = attempt(rt, shared, pass, edit);
        if !matches!(tried, Tried::Again) {
            return tried;
        }
    }
    unreachable!()
}

impl<'a, C: Clock, G: Gate> SharedDesk<'a, C, G> {
    /// Answers a read at the log as one look sees it. It waits for nobody.
    pub fn read(&self, alloc: Global, pass: &mut Pass, request: &Read) -> Reply
        requires ready { IsReady self.now.shared.now self.now.dataset.now pass.old }
        ensures ready { IsReady self.now.shared.now self.now.dataset.now pass.new }
        ensures reads { Reads pass.old.view request.now result pass.new.view }
        ensures went { Went pass.old.view pass.new.view }
    {
        self.shared.look(pass);
        reply_at(alloc, self.shared, pass, request)
    }

    /// Does an edit: its entry is the next one of the log, or nothing changes.
    ///
    /// It looks, takes the locks of the roots that the edit touches, pins them and plans, takes the turn,
    /// looks again, asks the clock once, and publishes. Where the roots have changed before they were
    /// pinned it begins again. It passes the gate when the edit is planned, drafted and published.
    pub fn edit<R: Wait>(
        &self,
        rt: &R,
        alloc: Global,
        pass: &mut Pass,
        edit: Edit,
        line: u32,
    ) -> Reply
        requires ready { IsReady self.now.shared.now self.now.dataset.now pass.old }
        ensures ready { IsReady self.now.shared.now self.now.dataset.now pass.new }
        ensures edits { Edits pass.old.view edit line result pass.new.view }
        ensures went { Went pass.old.view pass.new.view }
        ensures looks { pass.old.view.looks < pass.new.view.looks }
    {
        match pin_all(rt, self.shared, pass, &edit) {
            Tried::Pinned(seen) => self.finish(rt, alloc, pass, edit, line, seen),
            Tried::Refused(refusal, seen) => {
                drop(edit);
                refusal_reply(refusal, seen)
            }
            Tried::Again => unreachable!(),
        }
    }

    /// Plans an edit whose locks are pinned at a log of this length, and puts its entry.
    fn plan_and_commit<R: Wait>(
        &self,
        rt: &R,
        alloc: Global,
        pass: &mut Pass,
        edit: Edit,
        line: u32,
        seen: u32,
    ) -> Reply
        requires own { pass.old.table ≡ self.now.shared.now.table }
        requires dataset { self.now.dataset.now ≡ pass.old.view.dataset }
        requires idle { (pass.old.view.turn ≡ false) × (pass.old.view.draft ≡ []) }
        requires pinned { Pinned edit pass.old.view }
        requires seen { seen ≡ length pass.old.view.log }
        ensures table { pass.new.table ≡ pass.old.table }
        ensures idle { (pass.new.view.turn ≡ false) × (pass.new.view.draft ≡ []) }
        ensures held { pass.new.view.held ≡ pass.old.view.held }
        ensures edits { Edits pass.old.view edit line result pass.new.view }
    {
        match plan_at(alloc, self.shared, pass, self.dataset, edit) {
            Ok(plan) => {
                self.gate.pass(rt, Point::Planned, pass.number(), line);
                commit(rt, alloc, self, pass, plan, line)
            }
            Err(refusal) => refusal_reply(refusal, seen),
        }
    }

    /// Plans an edit whose locks are pinned, puts its entry, and gives the locks back.
    fn finish<R: Wait>(
        &self,
        rt: &R,
        alloc: Global,
        pass: &mut Pass,
        edit: Edit,
        line: u32,
        seen: u32,
    ) -> Reply
        requires own { pass.old.table ≡ self.now.shared.now.table }
        requires dataset { self.now.dataset.now ≡ pass.old.view.dataset }
        requires idle { (pass.old.view.turn ≡ false) × (pass.old.view.draft ≡ []) }
        requires pinned { Pinned edit pass.old.view }
        requires seen { seen ≡ length pass.old.view.log }
        ensures table { pass.new.table ≡ pass.old.table }
        ensures idle { (pass.new.view.held ≡ []) × (pass.new.view.turn ≡ false) × (pass.new.view.draft ≡ []) }
        ensures edits { Edits pass.old.view edit line result pass.new.view }
    {
        let reply = self.plan_and_commit(rt, alloc, pass, edit, line, seen);
        unlock(self.shared, pass);
        reply
    }
}
