//! A run of the core whose replies are written.

ghost use Rattle.std.specs.Prelude.{◌≡◌, ◌<◌, ◌≤◌, ◌^◌, ℕ, Bool, List, length};
ghost use Rattle.std.specs.List.{AllByRecursion};
ghost use Rattle.op_model.specs.declared.base.Dataset.{Dataset};
ghost use Rattle.op_model.specs.declared.base.Base.{Base};
ghost use Rattle.op_model.specs.Transcript.{Line};
ghost use Rattle.session_machine.specs.Machine.{State, start};
ghost use Rattle.core_steps.specs.Places.{CoreIs, IsGood, IsSound};
ghost use Rattle.client_answers.specs.Plays.{IsPlayed};
ghost use Rattle.client_answers.specs.Written.{IsFresh};

use crate::answers::AllAnswers;
use client_events::Rows;
use core_steps::Core;
use pcg_base::Sink;
use std::alloc::Global;

/// A step of each client of a schedule, and then steps of the least client that may go on, until
/// all have ended. Each client's replies are written to its sink.
pub fn play<R: Rows + Drop, K: Sink + Drop>(
    alloc: Global,
    core: &mut Core<R>,
    schedule: &[u32],
    answers: &mut AllAnswers<K>,
)
    requires few { length core.old.clients.items < 2 ^ 32 }
    requires numbers { AllByRecursion (λ n. (0 < n)
        × (n ≤ length core.old.clients.items)) schedule.now }
    requires sound { IsSound R.asked (R.stands core.old.rows) (R.drafts core.old.rows)
        core.old.table core.old.clients.items }
    requires each { length answers.old.list.items ≡ length core.old.clients.items }
    requires fresh { AllByRecursion IsFresh answers.old.list.items }
    ensures played { (d : Dataset) (b : Base) (at : ℕ) (clients : List (List Line × Bool))
        → IsGood d b (start d b at clients)
        → CoreIs R.asked (R.stands core.old.rows) (R.drafts core.old.rows) d b core.old.table
        core.old.clients.items (start d b at clients)
        → (v : State)
        × CoreIs R.asked (R.stands core.new.rows) (R.drafts core.new.rows) d b core.new.table
        core.new.clients.items v
        × IsPlayed K.state d b at clients core.old.clock schedule.now answers.old answers.new v }
{
    core.play(alloc, schedule, answers);
}
