//! The table of locks, and sets of lock numbers as the bits of a number.

ghost use Rattle.std.specs.Prelude.{◌≡◌, ◌≤◌, ◌<◌, ◌+◌, ◌∷◌, [], ℕ, length, slice_index, true, false, IfSome, IfNone};
ghost use Rattle.client_events.specs.Masks.{are_held, in_mask, numbers};

/// Whether the number `n` is in the set.
#[tactic(auto, unfolding(crate::specs::Masks::in_mask))]
pub fn has_number(mask: u64, n: u8) -> bool
    requires { n < 64 }
    ensures { result ≡ in_mask mask n }
{
    (mask >> n) % 2 == 1
}

/// The first number of the set from `from` on.
pub fn next_number(mask: u64, from: u8) -> Option<u8>
    requires { from ≤ 64 }
    ensures some { IfSome result (λ n. (n < 64) × (numbers mask from ≡ n ∷ numbers mask (n + 1))) }
    ensures none { IfNone result (numbers mask from ≡ []) }
{
    for n in from..64 {
        if has_number(mask, n) {
            return Some(n);
        }
    }
    None
}

/// Whether the client holds each lock whose number is in the set.
pub fn holds_each(locks: &[u32], client: u32, mask: u64) -> bool
    requires { length locks.now ≡ 64 }
    ensures { result ≡ are_held locks.now client (numbers mask 0) }
{
    for n in 0..64 {
        if has_number(mask, n) && locks[n as usize] != client {
            return false;
        }
    }
    true
}

/// The greatest number of a lock that the client holds.
pub fn greatest_held(locks: &[u32], client: u32) -> Option<u8>
    requires { length locks.now ≡ 64 }
    ensures some { IfSome result (λ n. (n < 64) × (slice_index locks.now n ≡ client) × ((m : ℕ) → n < m → m < 64 → slice_index locks.now m ≡ client → ⊥)) }
    ensures none { IfNone result ((m : ℕ) → m < 64 → slice_index locks.now m ≡ client → ⊥) }
{
    for n in (0..64).rev() {
        if locks[n as usize] == client {
            return Some(n);
        }
    }
    None
}
