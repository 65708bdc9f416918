ghost use Rattle.std.specs.Prelude.{◌≡◌, ◌+◌, ◌*◌, ◌-◌, ◌^◌, min};

use std::sync::atomic::{AtomicU64, Ordering};

/// The greatest time that a clock of steps tells.
const LATEST: u64 = 4611686018427387903;

/// What the time is. Its answers are free: nothing is promised of them.
pub trait Clock {
    /// The time, in milliseconds.
    fn now(&self) -> u64;
}

/// Times that go up by equal steps, in milliseconds.
#[derive(Clone, Copy, Debug, PartialEq, Eq)]
pub struct Ticks {
    /// The first time.
    pub start: u64,
    /// How much each time is above the one before.
    pub step: u64,
}

impl Ticks {
    /// The n-th time, counted from 0, cut down to `2^62 - 1`.
    pub fn time(&self, n: u64) -> u64
        ensures { result ≡ min (self.now.start + self.now.step * n) (2 ^ 62 - 1) }
    {
        self.step
            .saturating_mul(n)
            .saturating_add(self.start)
            .min(LATEST)
    }
}

/// A clock that is a step further on at each call.
#[derive(Debug, Drop)]
pub struct StepClock {
    ticks: Ticks,
    calls: AtomicU64,
}

impl StepClock {
    /// A clock that answers `start + step * k` at its call k, counted from 0, cut down to
    /// `2^62 - 1`.
    pub fn new(start: u64, step: u64) -> StepClock {
        StepClock {
            ticks: Ticks { start, step },
            calls: AtomicU64::new(0),
        }
    }
}

impl Clock for StepClock {
    fn now(&self) -> u64 {
        self.ticks.time(self.calls.fetch_add(1, Ordering::SeqCst))
    }
}
