//! Whether a client may go on.

ghost use Rattle.std.specs.Prelude.{◌≡◌, ◌-◌, ◌<◌, ◌≤◌, ◌^◌, ℕ, List, true, false, length, slice_get, IfSome, IfNone};
ghost use Rattle.client_events.specs.declared.clients.Client.{Client as ClientValue};
ghost use Rattle.op_model.specs.declared.request.Edit.{Edit};
ghost use Rattle.op_model.specs.declared.entry.Plan.{Plan};
ghost use Rattle.session_machine.specs.Machine as machine;
ghost use Rattle.client_events.specs.declared.phases.Phase.TheVariants as phase;
ghost use Rattle.session_machine.specs.Machine.{Shared, ClientState, is_able, is_ended};
ghost use Rattle.client_events.specs.Phases.{phase_of};
ghost use Rattle.client_events.specs.Steps.{TableIs};
ghost use Rattle.core_steps.specs.Ways.{IsWay, NextBelow, Opens, Stays};

use client_events::{Client, Phase, Table};

/// Whether a client may go on.
#[derive(Clone, Copy, Debug, PartialEq, Eq, Drop)]
pub enum Way {
    /// It may.
    Open,
    /// Another client holds this lock, or, where none is named, the turn.
    Blocked(Option<u8>),
    /// It has ended.
    Ended,
}

/// Whether a client that begins no line again has a line or a fault left.
#[tactic(auto, using(crate::proofs::WayLemmas::ready_line, crate::proofs::WayLemmas::ready_fault, crate::proofs::WayLemmas::ready_end))]
fn ready_way(me: &Client) -> Way
    ensures { (sh : Shared) (s : ClientState) → length s.lines ≡ length me.now.lines.items - me.now.taken → s.faulty ≡ me.now.fault
        → IsWay phase.Ready (is_able sh s machine.Ready) (is_ended s machine.Ready) result }
{
    if me.taken < me.lines.len() {
        return Way::Open;
    }
    if me.fault { Way::Open } else { Way::Ended }
}

/// Whether a lock is free.
#[tactic(auto, using(crate::proofs::WayLemmas::lock_open, crate::proofs::WayLemmas::lock_blocked))]
fn lock_way(table: &Table, next: u8) -> Way
    requires { next < 64 }
    ensures { (sh : Shared) (s : ClientState) (edit : Edit) (wanted : ℕ) (ns : List ℕ) → TableIs table.now sh
        → IsWay (phase.Locking edit wanted next) (is_able sh s (machine.Locking edit next ns)) (is_ended s (machine.Locking edit next ns)) result }
{
    if table.locks[next as usize] == 0 {
        Way::Open
    } else {
        Way::Blocked(Some(next))
    }
}

/// Whether the turn is free.
#[tactic(auto, using(crate::proofs::WayLemmas::turn_open, crate::proofs::WayLemmas::turn_blocked))]
fn turn_way(table: &Table) -> Way
    ensures { (sh : Shared) (s : ClientState) (plan : Plan) → TableIs table.now sh
        → IsWay (phase.Waiting plan) (is_able sh s (machine.Waiting plan.edit plan.changed plan.shown)) (is_ended s (machine.Waiting plan.edit plan.changed plan.shown)) result }
{
    if table.turn == 0 {
        Way::Open
    } else {
        Way::Blocked(None)
    }
}

/// Whether a client may go on.
pub(crate) fn way_of(table: &Table, me: &Client) -> Way
    requires { NextBelow me.now.phase }
    ensures { (sh : Shared) (s : ClientState) (client line : ℕ) → TableIs table.now sh → length s.lines ≡ length me.now.lines.items - me.now.taken → s.faulty ≡ me.now.fault
        → IsWay me.now.phase (is_able sh s (phase_of client line me.now.phase)) (is_ended s (phase_of client line me.now.phase)) result }
{
    match &me.phase {
        Phase::Ready => ready_way(me),
        Phase::Locking { next, .. } => lock_way(table, *next),
        Phase::Waiting(_) => turn_way(table),
        Phase::Ended => Way::Ended,
        _ => Way::Open,
    }
}

/// The number of the least client that may go on.
pub(crate) fn first_way(table: &Table, clients: &[Client]) -> Option<u32>
    requires few { length clients.now < 2 ^ 32 }
    requires next { (k : ℕ) (me : ClientValue) → slice_get clients.now k ≡ Some me → NextBelow me.phase }
    ensures some { IfSome result (λ n. (0 < n) × (n ≤ length clients.now) × ((me : ClientValue) → slice_get clients.now (n - 1) ≡ Some me → Opens table.now me)
        × ((k : ℕ) (me : ClientValue) → k < n - 1 → slice_get clients.now k ≡ Some me → Stays table.now me)) }
    ensures none { IfNone result ((k : ℕ) (me : ClientValue) → slice_get clients.now k ≡ Some me → Stays table.now me) }
{
    for place in 0..clients.len() {
        if opens(table, &clients[place]) {
            return Some(place as u32 + 1);
        }
    }
    None
}

/// Whether a client may go on.
fn opens(table: &Table, me: &Client) -> bool
    requires { NextBelow me.now.phase }
    ensures yes { result ≡ true → Opens table.now me.now }
    ensures no { result ≡ false → Stays table.now me.now }
{
    match way_of(table, me) {
        Way::Open => true,
        Way::Blocked(_) => false,
        Way::Ended => false,
    }
}
