//! Numbers drawn from a state.

ghost use Rattle.std.specs.Prelude.{◌≡◌, ◌<◌};
ghost use Rattle.made_input.specs.Draws.{next, shown};

/// The state behind a state: the linear congruential generator of 64 bits by Knuth (MMIX).
#[tactic(auto, unfolding(crate::specs::Draws::next))]
pub(crate) fn next(state: u64) -> u64
    ensures { result ≡ next state }
{
    state
        .wrapping_mul(6364136223846793005)
        .wrapping_add(1442695040888963407)
}

/// The number below n that a state shows. It goes by the state's upper bits, since the lower ones
/// repeat soon.
#[tactic(auto, unfolding(crate::specs::Draws::shown))]
pub(crate) fn shown(n: u64, state: u64) -> u64
    requires { 0 < n }
    ensures is { result ≡ shown n state }
    ensures below { result < n }
{
    (state >> 33) % n
}
