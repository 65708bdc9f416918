//! One event of one client.

ghost use Rattle.std.specs.Prelude.{◌≡◌, ◌<◌, ◌+◌, ◌*◌, ◌-◌, ◌^◌, min, ℕ, length, suc, true, false, slice_get};
ghost use Rattle.client_events.specs.Calls.{IsStood};
ghost use Rattle.op_model.specs.declared.base.Dataset.{Dataset};
ghost use Rattle.op_model.specs.declared.base.Base.{Base};
ghost use Rattle.session_machine.specs.Machine.{Shared, ClientState};
ghost use Rattle.pcg_base.specs.Causes.{Rose};
ghost use Rattle.client_events.specs.Steps.{Goes, IsKnown, Known, Takes, act_of, act_of_put, writes_rows};

use crate::clients::{Client, Table};
use crate::looking::{look, look_line, pin};
use crate::outlet::Outlet;
use crate::phases::{After, Looked, Phase};
use crate::planning::plan;
use crate::publishing::{check, commit};
use crate::releasing::{lock, release};
use crate::replying::put_reply;
use crate::rows::{Rows, Stamp};
use pcg_base::Ticks;
use std::alloc::Global;

/// The events of clients.
#[derive(Clone, Copy, Debug, PartialEq, Eq, Drop)]
pub enum Act {
    /// A look at the log, which begins a line.
    Look,
    /// A lock was taken.
    Lock,
    /// The locks held were pinned, or are to be given back.
    Pin,
    /// A plan was made, or refused.
    Plan,
    /// The turn was taken.
    Turn,
    /// The entry was drafted, or refused.
    Check,
    /// The entry was published.
    Commit,
    /// The turn was given back.
    Yield,
    /// A lock was given back.
    Release,
    /// A reply was written.
    Reply,
    /// The client's stream or its writing failed.
    Fault,
}

/// What an event came to.
#[derive(Drop)]
pub struct Stepped {
    /// Where the client goes on.
    pub phase: Phase,
    /// How many entries it has seen.
    pub seen: u32,
    /// Whether it took a line.
    pub taken: bool,
    /// Which event it was.
    pub act: Act,
}

/// An event after which the client has seen what it had.
fn stay(me: &Client, phase: Phase, act: Act) -> Stepped
    ensures { result ≡ record { phase = phase; seen = me.now.seen; taken = false; act = act } }
{
    Stepped {
        phase,
        seen: me.seen,
        taken: false,
        act,
    }
}

/// An event that looked at the log.
fn looked(looked: Looked, act: Act) -> Stepped
    ensures { result ≡ record { phase = looked.phase; seen = looked.seen; taken = false; act = act } }
{
    let Looked { phase, seen } = looked;
    Stepped {
        phase,
        seen,
        taken: false,
        act,
    }
}

/// A reply was put.
fn written(me: &Client, phase: Phase) -> Stepped
    ensures { result ≡ record { phase = phase; seen = me.now.seen; taken = false; act = act_of_put phase } }
{
    let act = match phase {
        Phase::Ready => Act::Reply,
        _ => Act::Fault,
    };
    stay(me, phase, act)
}

/// Takes the next line, or ends where none is left.
fn take_line<R: Rows>(alloc: Global, rows: &mut R, me: &Client) -> Stepped
    requires { IsStood (R.stands rows.old) }
    ensures rows { rows.new ≡ rows.old }
    ensures is { (d : Dataset) (b : Base) (sh : Shared) (s : ClientState) (client line : ℕ) → R.stands rows.old d b sh.log → s.seen ≡ me.now.seen
        → Takes R.asked d b sh s client line me.now.seen (slice_get me.now.lines.items me.now.taken) result }
    ensures line { result.taken ≡ true → me.now.taken < length me.now.lines.items }
{
    match me.lines.get(me.taken) {
        None => stay(me, Phase::Ended, Act::Fault),
        Some(text) => {
            let Looked { phase, seen } = look_line(alloc, rows, text, me.seen);
            Stepped {
                phase,
                seen,
                taken: true,
                act: Act::Look,
            }
        }
    }
}

/// A client's next event, from this phase.
pub(crate) fn event<R: Rows, O: Outlet>(
    alloc: Global,
    rows: &mut R,
    table: &mut Table,
    me: &Client,
    client: u32,
    clock: Ticks,
    phase: Phase,
    outlet: &mut O,
) -> Stepped
    requires client { 0 < client }
    requires lines { length me.now.lines.items < 2 ^ 32 }
    requires known { IsKnown R.asked (R.stands rows.old) (R.drafts rows.old) table.old me.now client phase }
    ensures act { result.act ≡ act_of phase result.taken result.phase }
    ensures rows { writes_rows phase ≡ false → rows.new ≡ rows.old }
    ensures line { result.taken ≡ true → me.now.taken < length me.now.lines.items }
    ensures is { (d : Dataset) (b : Base) (sh : Shared) (s : ClientState) → Known R.asked (R.stands rows.old) (R.drafts rows.old) d b sh s table.old me.now client phase
        → Goes R.asked (R.stands rows.new) (R.drafts rows.new) O.puts O.misses (Rose (O.faults outlet.old) (O.faults outlet.new)) outlet.old outlet.new
        d b sh s table.new me.now client (min (clock.start + clock.step * length sh.log) (2 ^ 62 - 1)) phase result }
{
    match phase {
        Phase::Ready => take_line(alloc, rows, me),
        Phase::Again(edit) => looked(look(rows, edit), Act::Look),
        Phase::Locking { edit, wanted, next } => {
            stay(
                me,
                lock(&mut table.locks, client, edit, wanted, next),
                Act::Lock,
            )
        }
        Phase::Pinning(edit) => looked(pin(rows, &table.locks, client, edit), Act::Pin),
        Phase::Planning(edit) => stay(me, plan(alloc, rows, edit, me.seen), Act::Plan),
        Phase::Waiting(plan) => {
            table.turn = client;
            stay(me, Phase::Checking(plan), Act::Turn)
        }
        Phase::Checking(plan) => {
            let stamp = Stamp {
                client,
                line: me.taken as u32,
                now: clock.time(rows.length() as u64),
            };
            looked(check(alloc, rows, plan, stamp), Act::Check)
        }
        Phase::Committing { plan, remade } => looked(commit(rows, plan, remade), Act::Commit),
        Phase::Yielding(reply) => {
            table.turn = 0;
            stay(me, Phase::Releasing(After::Answer(reply)), Act::Yield)
        }
        Phase::Releasing(after) => {
            stay(me, release(&mut table.locks, client, after), Act::Release)
        }
        Phase::Replying(reply) => written(me, put_reply(outlet, client, &reply)),
        Phase::Ended => stay(me, Phase::Ended, Act::Fault),
    }
}
