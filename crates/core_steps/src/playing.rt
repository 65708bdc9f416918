//! Whole runs of the core.

ghost use Rattle.std.specs.Prelude.{◌≡◌, ◌<◌, ◌≤◌, ◌^◌, ℕ, Bool, List, length};
ghost use Rattle.std.specs.List.{AllByRecursion};
ghost use Rattle.op_model.specs.declared.base.Dataset.{Dataset};
ghost use Rattle.op_model.specs.declared.base.Base.{Base};
ghost use Rattle.op_model.specs.Transcript.{Line};
ghost use Rattle.session_machine.specs.Machine.{State, start};
ghost use Rattle.core_steps.specs.Places.{CoreIs, IsGood, IsSound};
ghost use Rattle.core_steps.specs.Plays.{Played};
ghost use Rattle.core_steps.specs.Runs.{Finishes, Runs};

use crate::cores::Core;
use client_events::{Outlet, Rows};
use std::alloc::Global;

impl<R: Rows + Drop> Core<R> {
    /// A step of each client of a schedule, and then steps of the least client that may go on, until
    /// all have ended.
    pub fn play<O: Outlet>(&mut self, alloc: Global, schedule: &[u32], outlet: &mut O)
        requires few { length self.old.clients.items < 2 ^ 32 }
        requires numbers { AllByRecursion (λ n. (0 < n) × (n ≤ length self.old.clients.items)) schedule.now }
        requires sound { IsSound R.asked (R.stands self.old.rows) (R.drafts self.old.rows) self.old.table self.old.clients.items }
        ensures played { (d : Dataset) (b : Base) (at : ℕ) (clients : List (List Line × Bool)) → IsGood d b (start d b at clients)
            → CoreIs R.asked (R.stands self.old.rows) (R.drafts self.old.rows) d b self.old.table self.old.clients.items (start d b at clients)
            → (v : State) × CoreIs R.asked (R.stands self.new.rows) (R.drafts self.new.rows) d b self.new.table self.new.clients.items v × Played d b at clients v
            × ((mid : O) × (u : State) × Runs O.faults O.puts O.misses d b self.old.clock schedule.now (start d b at clients) outlet.old u mid
            × ((ns : List ℕ) × Finishes O.faults O.puts O.misses d b self.old.clock ns u mid v outlet.new)) }
    {
        self.run(alloc, schedule, outlet);
        self.finish(alloc, outlet);
    }
}
