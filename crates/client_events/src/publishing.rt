//! The turn, and what a client does in it.

ghost use Rattle.std.specs.Prelude.{◌≡◌, ◌∷◌, ℕ, suc, List, length};
ghost use Rattle.op_model.specs.declared.entry.Entry.{Entry};
ghost use Rattle.op_model.specs.declared.reply.Reply.TheVariants as reply;
ghost use Rattle.op_model.specs.declared.base.Dataset.{Dataset};
ghost use Rattle.op_model.specs.declared.base.Base.{Base};
ghost use Rattle.op_model.specs.Legal.{LegalPlan};
ghost use Rattle.session_machine.specs.Machine.{Shared, ClientState, Yielding};
ghost use Rattle.client_events.specs.Calls.{IsDrafted, IsPlanned};
ghost use Rattle.client_events.specs.Phases.{entry_drafted, phase_of};
ghost use Rattle.client_events.specs.Events.{Checks};

use crate::phases::{Looked, Phase};
use crate::rows::{Remade, Rows, Stamp};
use op_model::{Plan, Refusal, Reply};
use std::alloc::Global;

/// Drafts the entry of a plan, in the turn.
#[tactic(auto, using(crate::proofs::CheckLemmas::checks_ok, crate::proofs::CheckLemmas::checks_refused, crate::proofs::CheckLemmas::checks_short))]
pub(crate) fn check<R: Rows>(alloc: Global, rows: &mut R, plan: Plan, stamp: Stamp) -> Looked
    requires { IsPlanned (R.stands rows.old) plan.edit plan.changed }
    ensures rows { (d : Dataset) (b : Base) (sh : Shared) → R.stands rows.old d b sh.log → R.stands rows.new d b sh.log }
    ensures is { (d : Dataset) (b : Base) (sh : Shared) (s : ClientState) → R.stands rows.old d b sh.log → length s.asked ≡ stamp.line → LegalPlan d b sh.log plan.edit plan.changed
        → Checks (R.drafts rows.new) d b sh s stamp plan.edit plan.changed plan.shown result }
{
    let seen = rows.length();
    match rows.remake(alloc, &plan, stamp) {
        Ok(remade) => Looked {
            phase: Phase::Committing { plan, remade },
            seen,
        },
        Err(Refusal::NoMemory) => Looked {
            phase: Phase::Yielding(Reply::NoMemory),
            seen,
        },
        Err(refusal) => Looked {
            phase: Phase::Yielding(Reply::Refused { refusal, seen }),
            seen,
        },
    }
}

/// Publishes the drafted entry.
pub(crate) fn commit<R: Rows>(rows: &mut R, plan: Plan, remade: Remade) -> Looked
    requires { IsDrafted (R.drafts rows.old) }
    ensures rows { (d : Dataset) (b : Base) (log : List Entry) (e : Entry) → R.drafts rows.old d b log e → R.stands rows.new d b (e ∷ log) }
    ensures is { (d : Dataset) (b : Base) (log : List Entry) (client line : ℕ) → R.drafts rows.old d b log (entry_drafted client line plan remade)
        → (phase_of client line result.phase ≡ Yielding (reply.Edited remade.op remade.at remade.retired remade.made plan.shown (suc (length log)))) × (result.seen ≡ suc (length log)) }
{
    rows.commit();
    let seen = rows.length();
    let Remade {
        op,
        at,
        retired,
        made,
    } = remade;
    let Plan { shown, .. } = plan;
    Looked {
        phase: Phase::Yielding(Reply::Edited {
            op,
            at,
            retired,
            made,
            shown,
            seen,
        }),
        seen,
    }
}
