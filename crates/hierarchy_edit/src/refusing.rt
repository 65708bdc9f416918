//! What the store, the ids or the clock refuse.

ghost use Rattle.std.specs.Prelude.{◌≡◌, ◌-◌, ◌+◌, ◌^◌, ◌<◌, ◌∷◌, [], ◌==◌, nat_lt, List, max, min};
ghost use Rattle.op_model.specs.declared.entry.Entry.{Entry};
ghost use Rattle.op_model.specs.declared.reply.Refusal.TheVariants.{ClockEnd, StoreFull};
ghost use Rattle.op_model.specs.Refusals.{first_of, refuse_if};

use op_model::Refusal;

/// The first refusal of the store, the ids and the clock: `StoreFull` where the entry needs more
/// records than are left, that of a spent chunk, `ClockEnd` where the last timestamp is the greatest.
#[tactic(auto, unfolding(op_model::specs::Refusals::first_of, op_model::specs::Refusals::refuse_if))]
pub fn late(need: u64, spare: u64, spent: Option<Refusal>, last: u64) -> Option<Refusal>
    ensures { result ≡ first_of (refuse_if (nat_lt spare need) (StoreFull need spare) ∷ spent ∷ refuse_if (last == 2 ^ 62 - 1) (ClockEnd last) ∷ []) }
{
    if spare < need {
        return Some(Refusal::StoreFull { need, spare });
    }
    if let Some(refusal) = spent {
        return Some(refusal);
    }
    if last == 4611686018427387903 {
        return Some(Refusal::ClockEnd { last });
    }
    None
}

/// The timestamp of an entry behind one with the timestamp `last`, in milliseconds: the clock's
/// answer, cut down to the greatest, or the least that is above the last one.
pub fn next_time(last: u64, now: u64) -> u64
    requires { last < 2 ^ 62 }
    ensures { result ≡ max (min now (2 ^ 62 - 1)) (last + 1) }
{
    now.min(4611686018427387903).max(last + 1)
}
