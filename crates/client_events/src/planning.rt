//! Plans, made at the log that was pinned.

ghost use Rattle.std.specs.Prelude.{◌≡◌, ℕ};
ghost use Rattle.op_model.specs.declared.base.Dataset.{Dataset};
ghost use Rattle.op_model.specs.declared.base.Base.{Base};
ghost use Rattle.node_ids.specs.Ids.{IsLayout};
ghost use Rattle.op_model.specs.Legal.{Legal};
ghost use Rattle.session_machine.specs.Machine.{Shared, ClientState, Planning};
ghost use Rattle.session_machine.specs.Invariant.{ClientHistory};
ghost use Rattle.client_events.specs.Calls.{IsStood};
ghost use Rattle.client_events.specs.Events.{Plans};

use crate::phases::{After, Phase};
use crate::rows::Rows;
use op_model::{Edit, Refusal, Reply};
use std::alloc::Global;

/// Makes the plan of an edit whose roots' locks are pinned since the log had `seen` entries.
#[tactic(auto, using(crate::proofs::PlanLemmas::plans_ok, crate::proofs::PlanLemmas::plans_refused, crate::proofs::PlanLemmas::plans_short))]
pub(crate) fn plan<R: Rows>(alloc: Global, rows: &mut R, edit: Edit, seen: u32) -> Phase
    requires { IsStood (R.stands rows.old) }
    ensures rows { rows.new ≡ rows.old }
    ensures is { (d : Dataset) (b : Base) (sh : Shared) (s : ClientState) (client line : ℕ) → R.stands rows.old d b sh.log → s.seen ≡ seen → IsLayout d.layout → Legal d b sh.log → ClientHistory d b sh.log client s (Planning edit) → Plans d b sh s client line edit result }
{
    match rows.plan(alloc, edit) {
        Ok(plan) => Phase::Waiting(plan),
        Err(Refusal::NoMemory) => Phase::Releasing(After::Answer(Reply::NoMemory)),
        Err(refusal) => Phase::Releasing(After::Answer(Reply::Refused { refusal, seen })),
    }
}
