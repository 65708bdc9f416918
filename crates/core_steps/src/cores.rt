//! The core: clients over one log, and steps in any order.

ghost use Rattle.std.specs.Prelude.{◌≡◌, ◌<◌, ◌≤◌, ◌+◌, ◌*◌, ◌-◌, ◌^◌, min, ℕ, suc, pred, length, List, IfSome};
ghost use Rattle.std.specs.Option.{option_map};
ghost use Rattle.std.specs.List.{AllByRecursion};
ghost use Rattle.session_machine.specs.Play.{first_able, AllEnded};
ghost use Rattle.op_model.specs.declared.base.Dataset.{Dataset};
ghost use Rattle.op_model.specs.declared.base.Base.{Base};
ghost use Rattle.session_machine.specs.Machine.{State};
ghost use Rattle.pcg_base.specs.Causes.{Rose};
ghost use Rattle.core_steps.specs.Places.{CoreIs, IsGood, IsSound};
ghost use Rattle.core_steps.specs.CoreSteps.{HasFault, StepIs};
ghost use Rattle.core_steps.specs.Runs.{Runs, Finishes, Leads};

use crate::stepping::{Step, step_at};
use crate::ways::first_way;
use client_events::{Act, Client, Outlet, Rows, Table};
use pcg_base::Ticks;
use std::alloc::Global;

/// Clients over the log of these records.
#[derive(Drop)]
pub struct Core<R: Drop> {
    /// The records.
    pub rows: R,
    /// What clients hold.
    pub table: Table,
    /// The clients; client 1 is the first.
    pub clients: Vec<Client>,
    /// The clock's answers.
    pub clock: Ticks,
}

impl<R: Rows + Drop> Core<R> {
    /// One step of a client.
    pub fn step<O: Outlet>(&mut self, alloc: Global, client: u32, outlet: &mut O) -> Step
        requires number { 0 < client }
        requires known { client ≤ length self.old.clients.items }
        requires sound { IsSound R.asked (R.stands self.old.rows) (R.drafts self.old.rows) self.old.table self.old.clients.items }
        ensures clock { self.new.clock ≡ self.old.clock }
        ensures count { length self.new.clients.items ≡ length self.old.clients.items }
        ensures is { (d : Dataset) (b : Base) (w : State) → IsGood d b w → CoreIs R.asked (R.stands self.old.rows) (R.drafts self.old.rows) d b self.old.table self.old.clients.items w
            → StepIs R.asked R.stands R.drafts O.puts O.misses (Rose (O.faults outlet.old) (O.faults outlet.new)) outlet.old outlet.new self.old.rows self.new.rows
            d b self.old.table self.new.table self.old.clients.items self.new.clients.items w client (min (self.old.clock.start + self.old.clock.step * length w.shared.log) (2 ^ 62 - 1)) result }
        ensures fault { (d : Dataset) (b : Base) (w : State) → IsGood d b w → CoreIs R.asked (R.stands self.old.rows) (R.drafts self.old.rows) d b self.old.table self.old.clients.items w
            → result ≡ Step.Moved Act.Fault → HasFault (Rose (O.faults outlet.old) (O.faults outlet.new)) w client }
    {
        let place = (client - 1) as usize;
        step_at(
            alloc,
            &mut self.rows,
            &mut self.table,
            &mut self.clients[place],
            client,
            self.clock,
            outlet,
        )
    }

    /// A step of each of these clients, one after the other. One that may not go on is passed over.
    pub fn run<O: Outlet>(&mut self, alloc: Global, numbers: &[u32], outlet: &mut O)
        requires numbers { AllByRecursion (λ n. (0 < n) × (n ≤ length self.old.clients.items)) numbers.now }
        requires sound { IsSound R.asked (R.stands self.old.rows) (R.drafts self.old.rows) self.old.table self.old.clients.items }
        ensures clock { self.new.clock ≡ self.old.clock }
        ensures count { length self.new.clients.items ≡ length self.old.clients.items }
        ensures is { (d : Dataset) (b : Base) (w : State) → IsGood d b w → CoreIs R.asked (R.stands self.old.rows) (R.drafts self.old.rows) d b self.old.table self.old.clients.items w
            → (v : State) × IsGood d b v × CoreIs R.asked (R.stands self.new.rows) (R.drafts self.new.rows) d b self.new.table self.new.clients.items v
            × Runs O.faults O.puts O.misses d b self.old.clock numbers.now w outlet.old v outlet.new × Leads d b w v }
    {
        for number in numbers {
            let _ = self.step(alloc, *number, outlet);
        }
    }

    /// The number of the least client that may go on.
    fn first_open(&self) -> Option<u32>
        requires few { length self.now.clients.items < 2 ^ 32 }
        requires sound { IsSound R.asked (R.stands self.now.rows) (R.drafts self.now.rows) self.now.table self.now.clients.items }
        ensures some { IfSome result (λ n. (0 < n) × (n ≤ length self.now.clients.items)) }
        ensures is { (d : Dataset) (b : Base) (w : State) → IsGood d b w → CoreIs R.asked (R.stands self.now.rows) (R.drafts self.now.rows) d b self.now.table self.now.clients.items w
            → result ≡ option_map suc (first_able w.shared w.clients) }
    {
        first_way(&self.table, self.clients.as_slice())
    }

    /// Steps of the least client that may go on, until all have ended.
    pub fn finish<O: Outlet>(&mut self, alloc: Global, outlet: &mut O)
        requires few { length self.old.clients.items < 2 ^ 32 }
        requires sound { IsSound R.asked (R.stands self.old.rows) (R.drafts self.old.rows) self.old.table self.old.clients.items }
        ensures is { (d : Dataset) (b : Base) (w : State) → IsGood d b w → CoreIs R.asked (R.stands self.old.rows) (R.drafts self.old.rows) d b self.old.table self.old.clients.items w
            → (v : State) × IsGood d b v × CoreIs R.asked (R.stands self.new.rows) (R.drafts self.new.rows) d b self.new.table self.new.clients.items v
            × ((ns : List ℕ) × Finishes O.faults O.puts O.misses d b self.old.clock ns w outlet.old v outlet.new) × AllEnded v × Leads d b w v }
    {
        for turn in 0..u64::MAX {
            let Some(client) = self.first_open() else {
                return;
            };
            let _ = turn;
            let _ = self.step(alloc, client, outlet);
        }
    }
}
