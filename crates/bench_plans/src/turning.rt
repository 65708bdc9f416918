//! Plans of merges and of undos.

use bench_servers::Server;
use hierarchy_edit::Stamp;
use node_ids::NodeId;
use op_model::{AskedPair, AskedPairs, Edit};
use rand::RngExt;
use rand_xoshiro::Xoshiro256PlusPlus;
use std::alloc::Global;
use std::rt::Clock;
use std::time::Instant;

/// How many plans are made of each kind.
const PLANS: u64 = 10000;

/// How many merges are put.
const EDITS: u32 = 1000;

/// What a run found.
#[derive(Clone, Copy, Drop)]
pub struct Rates {
    /// How many merges were put.
    pub put: u64,
    /// How many plans of merges were made in a second, with those that were refused.
    pub merges: u128,
    /// How many plans of undos.
    pub undos: u128,
}

/// The merge of two drawn supervoxels.
fn drawn_merge(alloc: Global, ids: &[NodeId], numbers: &mut Xoshiro256PlusPlus) -> Option<Edit> {
    if ids.is_empty() {
        return None;
    }
    let a = ids[numbers.random_range(0..ids.len())];
    let b = ids[numbers.random_range(0..ids.len())];
    let mut list = Vec::new(alloc);
    list.push(AskedPair { a, b }).ok()?;
    Some(Edit::Merge {
        pairs: AskedPairs { list },
    })
}

/// How many plans a second so many microseconds come to.
fn rate(time: u128) -> u128 {
    PLANS as u128 * 1000000 / time.max(1)
}

/// How many merges of drawn supervoxels are planned in a second.
fn time_merges<R: Clock>(
    rt: &R,
    alloc: Global,
    server: &mut Server,
    ids: &[NodeId],
    numbers: &mut Xoshiro256PlusPlus,
) -> Option<u128> {
    let start = Instant::now(rt).ok()?;
    for _ in 0..PLANS {
        let edit = drawn_merge(alloc, ids, numbers)?;
        let plan = server.plan(alloc, edit);
        drop(plan);
    }
    let time = start.elapsed(rt).ok()?;
    Some(rate(time.as_micros()))
}

/// Puts merges of drawn supervoxels, and answers how many weren't refused.
fn put_merges(
    alloc: Global,
    server: &mut Server,
    ids: &[NodeId],
    numbers: &mut Xoshiro256PlusPlus,
) -> Option<u64> {
    let mut put: u64 = 0;
    for _ in 0..EDITS {
        let edit = drawn_merge(alloc, ids, numbers)?;
        let stamp = Stamp {
            client: 1,
            line: 1,
            now: 0,
        };
        if server.put(alloc, edit, stamp).is_ok() {
            put = put.wrapping_add(1);
        }
    }
    Some(put)
}

/// How many undos of drawn entries, from 1 to the last, are planned in a second.
fn time_undos<R: Clock>(
    rt: &R,
    alloc: Global,
    server: &mut Server,
    last: u64,
    numbers: &mut Xoshiro256PlusPlus,
) -> Option<u128> {
    if last == 0 {
        return Some(0);
    }
    let start = Instant::now(rt).ok()?;
    for _ in 0..PLANS {
        let op = numbers.random_range(0..last).wrapping_add(1);
        let plan = server.plan(alloc, Edit::Undo { op });
        drop(plan);
    }
    let time = start.elapsed(rt).ok()?;
    Some(rate(time.as_micros()))
}

/// Times plans of merges and of undos.
pub fn time_turns<R: Clock>(
    rt: &R,
    alloc: Global,
    server: &mut Server,
    ids: &[NodeId],
    numbers: &mut Xoshiro256PlusPlus,
) -> Option<Rates> {
    let merges = time_merges(rt, alloc, server, ids, numbers)?;
    let put = put_merges(alloc, server, ids, numbers)?;
    let undos = time_undos(rt, alloc, server, put, numbers)?;
    Some(Rates { put, merges, undos })
}
