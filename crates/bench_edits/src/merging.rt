//! Merges of drawn supervoxels.

use crate::serving::merge;
use bench_servers::Server;
use node_ids::NodeId;
use rand::RngExt;
use rand_xoshiro::Xoshiro256PlusPlus;
use std::alloc::Global;
use std::rt::Clock;
use std::time::Instant;

/// Merges that were asked one after the other.
#[derive(Clone, Copy, Drop)]
pub struct Tenth {
    /// How many were accepted.
    pub accepted: u64,
    /// The microseconds of all of them, also of those that were refused.
    pub time: u128,
}

impl Tenth {
    /// These and others.
    pub fn with(self, other: Tenth) -> Tenth {
        Tenth {
            accepted: self.accepted.saturating_add(other.accepted),
            time: self.time.saturating_add(other.time),
        }
    }

    /// How many were accepted in a second.
    pub fn rate(self) -> u128 {
        (self.accepted as u128 * 1000000) / self.time.max(1)
    }
}

/// Asks for the merge of two drawn supervoxels, and answers whether it was accepted.
fn merge_drawn(
    alloc: Global,
    server: &mut Server,
    ids: &[NodeId],
    numbers: &mut Xoshiro256PlusPlus,
) -> bool {
    if ids.is_empty() {
        return false;
    }
    let a = ids[numbers.random_range(0..ids.len())];
    let b = ids[numbers.random_range(0..ids.len())];
    merge(alloc, server, a, b)
}

/// Asks for so many merges of drawn supervoxels, and times them.
pub fn merge_tenth<R: Clock>(
    rt: &R,
    alloc: Global,
    server: &mut Server,
    ids: &[NodeId],
    numbers: &mut Xoshiro256PlusPlus,
    count: u32,
) -> Option<Tenth> {
    let start = Instant::now(rt).ok()?;
    let mut accepted: u64 = 0;
    for _ in 0..count {
        if merge_drawn(alloc, server, ids, numbers) {
            accepted = accepted.saturating_add(1);
        }
    }
    let time = start.elapsed(rt).ok()?;
    Some(Tenth {
        accepted,
        time: time.as_micros(),
    })
}
