//! One step of one client: its next event, or none.

ghost use Rattle.std.specs.Prelude.{◌≡◌, ◌<◌, ◌+◌, ◌*◌, ◌-◌, ◌^◌, min, ℕ, length, false};
ghost use Rattle.op_model.specs.declared.base.Dataset.{Dataset};
ghost use Rattle.op_model.specs.declared.base.Base.{Base};
ghost use Rattle.session_machine.specs.Machine.{Shared, ClientState};
ghost use Rattle.pcg_base.specs.Causes.{Rose};
ghost use Rattle.client_events.specs.Steps.{writes_rows};
ghost use Rattle.core_steps.specs.Stepping.{IsPlaced, Placed, StepAt};

use crate::ways::{Way, way_of};
use client_events::{Act, Client, Outlet, Rows, Table, act};
use pcg_base::Ticks;
use std::alloc::Global;

/// What one step of a client came to.
#[derive(Clone, Copy, Debug, PartialEq, Eq, Drop)]
pub enum Step {
    /// The client's next event happened.
    Moved(Act),
    /// Another client holds this lock, or, where none is named, the turn. Nothing happened.
    Blocked { lock: Option<u8> },
    /// The client has ended. Nothing happened.
    Ended,
}

/// One step of a client.
pub(crate) fn step_at<R: Rows, O: Outlet>(
    alloc: Global,
    rows: &mut R,
    table: &mut Table,
    me: &mut Client,
    client: u32,
    clock: Ticks,
    outlet: &mut O,
) -> Step
    requires client { 0 < client }
    requires lines { length me.old.lines.items < 2 ^ 32 }
    requires placed { IsPlaced R.asked (R.stands rows.old) (R.drafts rows.old) table.old me.old client }
    ensures rows { writes_rows me.old.phase ≡ false → rows.new ≡ rows.old }
    ensures lines { me.new.lines ≡ me.old.lines }
    ensures is { (d : Dataset) (b : Base) (sh : Shared) (s : ClientState) → Placed R.asked (R.stands rows.old) (R.drafts rows.old) d b sh s table.old me.old client
        → StepAt R.asked (R.stands rows.new) (R.drafts rows.new) O.puts O.misses (Rose (O.faults outlet.old) (O.faults outlet.new)) outlet.old outlet.new rows.old rows.new
        d b sh s table.old table.new me.old me.new client (min (clock.start + clock.step * length sh.log) (2 ^ 62 - 1)) result }
{
    match way_of(table, me) {
        Way::Open => Step::Moved(act(alloc, rows, table, me, client, clock, outlet)),
        Way::Blocked(lock) => Step::Blocked { lock },
        Way::Ended => Step::Ended,
    }
}
