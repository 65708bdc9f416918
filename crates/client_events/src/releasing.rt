//! Locks that are taken and given back.

ghost use Rattle.std.specs.Prelude.{◌≡◌, ◌≤◌, ◌<◌, ◌+◌, ℕ, length, slice_set};
ghost use Rattle.session_machine.specs.Machine.{after as after_phase, locking as lock_phase};
ghost use Rattle.client_events.specs.Masks.{numbers};
ghost use Rattle.client_events.specs.Phases.{after_of, phase_of};
ghost use Rattle.client_events.specs.Events.{Released};

use crate::locks::{greatest_held, next_number};
use crate::phases::{After, Phase};
use op_model::Edit;

/// Goes on to the first lock of the set from `from` on, or past the locks.
pub(crate) fn locking(edit: Edit, wanted: u64, from: u8) -> Phase
    requires { from ≤ 64 }
    ensures { (client line : ℕ) → phase_of client line result ≡ lock_phase edit (numbers wanted from) }
{
    match next_number(wanted, from) {
        Some(next) => Phase::Locking { edit, wanted, next },
        None => Phase::Pinning(edit),
    }
}

/// Takes a free lock.
pub(crate) fn lock(locks: &mut [u32], client: u32, edit: Edit, wanted: u64, next: u8) -> Phase
    requires number { next < 64 }
    requires table { length locks.old ≡ 64 }
    ensures locks { locks.new ≡ slice_set locks.old next client }
    ensures phase { (client line : ℕ) → phase_of client line result ≡ lock_phase edit (numbers wanted (next + 1)) }
{
    locks[next as usize] = client;
    locking(edit, wanted, next + 1)
}

/// Goes on once all locks are given back.
pub(crate) fn unlocked(after: After) -> Phase
    ensures { (client line : ℕ) → phase_of client line result ≡ after_phase (after_of after) }
{
    match after {
        After::Answer(reply) => Phase::Replying(reply),
        After::Restart(edit) => Phase::Again(edit),
    }
}

/// Gives back the greatest lock that the client holds.
pub(crate) fn release(locks: &mut [u32], client: u32, after: After) -> Phase
    requires client { 0 < client }
    requires table { length locks.old ≡ 64 }
    ensures { Released locks.old client after locks.new result }
{
    let Some(greatest) = greatest_held(locks, client) else {
        return unlocked(after);
    };
    locks[greatest as usize] = 0;
    match greatest_held(locks, client) {
        Some(_) => Phase::Releasing(after),
        None => unlocked(after),
    }
}
