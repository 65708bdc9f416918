//! One event of one client, in its place.

ghost use Rattle.std.specs.Prelude.{◌≡◌, ◌<◌, ◌+◌, ◌*◌, ◌-◌, ◌^◌, min, ℕ, length, true, false};
ghost use Rattle.op_model.specs.declared.base.Dataset.{Dataset};
ghost use Rattle.op_model.specs.declared.base.Base.{Base};
ghost use Rattle.session_machine.specs.Machine.{Shared, ClientState};
ghost use Rattle.pcg_base.specs.Causes.{Rose};
ghost use Rattle.client_events.specs.Steps.{IsKnown, Known, taken_after, writes_rows};
ghost use Rattle.client_events.specs.Acts.{Acts};

use crate::clients::{Client, Table};
use crate::events::{Act, Stepped, event};
use crate::outlet::Outlet;
use crate::phases::Phase;
use crate::rows::Rows;
use pcg_base::Ticks;
use std::alloc::Global;
use std::mem;

/// Puts the client into a phase.
fn enter(me: &mut Client, phase: Phase)
    ensures { me.new ≡ record me.old { phase = phase } }
{
    drop(mem::replace(&mut me.phase, phase));
}

/// Puts what an event came to into the client's place.
fn settle(me: &mut Client, stepped: Stepped) -> Act
    requires { stepped.taken ≡ true → me.old.taken < length me.old.lines.items }
    ensures act { result ≡ stepped.act }
    ensures me { me.new ≡ record me.old { taken = taken_after me.old stepped; phase = stepped.phase; seen = stepped.seen } }
{
    let Stepped {
        phase,
        seen,
        taken,
        act,
    } = stepped;
    enter(me, phase);
    me.seen = seen;
    if taken {
        me.taken += 1;
    }
    act
}

/// A client's next event.
pub fn act<R: Rows, O: Outlet>(
    alloc: Global,
    rows: &mut R,
    table: &mut Table,
    me: &mut Client,
    client: u32,
    clock: Ticks,
    outlet: &mut O,
) -> Act
    requires client { 0 < client }
    requires lines { length me.old.lines.items < 2 ^ 32 }
    requires known { IsKnown R.asked (R.stands rows.old) (R.drafts rows.old) table.old me.old client me.old.phase }
    ensures rows { writes_rows me.old.phase ≡ false → rows.new ≡ rows.old }
    ensures lines { me.new.lines ≡ me.old.lines }
    ensures is { (d : Dataset) (b : Base) (sh : Shared) (s : ClientState) → Known R.asked (R.stands rows.old) (R.drafts rows.old) d b sh s table.old me.old client me.old.phase
        → Acts R.asked (R.stands rows.new) (R.drafts rows.new) O.puts O.misses (Rose (O.faults outlet.old) (O.faults outlet.new)) outlet.old outlet.new
        d b sh s table.new me.old me.new client (min (clock.start + clock.step * length sh.log) (2 ^ 62 - 1)) result }
{
    let phase = mem::replace(&mut me.phase, Phase::Ended);
    let stepped = event(alloc, rows, table, me, client, clock, phase, outlet);
    settle(me, stepped)
}
