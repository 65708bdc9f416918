//! Times plans of edits: of a split with its parts, of merges and of undos.
//!
//!     bench_plans N OBJECT SEED
//!
//! It makes a base of N supervoxels from the number SEED, in objects of OBJECT supervoxels each, and
//! serves it. It plans a split of the first object between its first and its last supervoxel, 10,000
//! merges of drawn supervoxels, and, once 1,000 drawn merges were asked and put, 10,000 undos of drawn
//! ones. It prints one line, `supervoxels N edges E component US net US cut US plan US weight W put P
//! merges-a-second Q undos-a-second Q`: the active edges of the object, the microseconds of finding
//! them, of making their net, of its least cut and of the whole plan, what the cut weighs, how many
//! merges were put, and how many plans were made in a second. N is from 2 to 1,000,000 and OBJECT from
//! 2 to 250,000, at most N. Below 1,000 supervoxels nothing is told of time: those numbers are 0.
//! Status 1: the words are of another form; 5: memory ran out or the clock failed.
//!
//! The promise: it never panics. Nothing is promised of what it prints.
#![tactic(auto)]

mod tables;
mod timing;
mod turning;
mod words;

use bench_servers::{Server, dataset};
use node_ids::NodeId;
use rand_core::SeedableRng;
use rand_xoshiro::Xoshiro256PlusPlus;
use std::alloc::Global;
use std::process::ExitCode;
use std::rt::Clock;
use table_ingest::read_base;
use tables::make_tables;
use timing::{Split, time_split};
use turning::{Rates, time_turns};
use words::{Wish, read_wish};

/// The server of the base, and the supervoxels, ascending.
fn serve(alloc: Global, wish: Wish) -> Option<(Server, Vec<NodeId>)> {
    let capacity = wish.count.wrapping_mul(15).wrapping_add(1500000);
    let dataset = dataset(8, (16, 16, 16), capacity.min(16777216))?;
    let tables = make_tables(alloc, dataset.layout, wish)?;
    let supervoxels = tables.supervoxels.as_slice();
    let base = read_base(alloc, supervoxels, tables.edges.as_slice(), &dataset).ok()?;
    let server = Server::new(alloc, &base, dataset, 0).ok()?;
    Some((server, base.supervoxels.list))
}

fn run<R: Clock>(rt: &R, alloc: Global, wish: Wish) -> Option<(Split, Rates)> {
    let (mut server, ids) = serve(alloc, wish)?;
    let mut numbers = Xoshiro256PlusPlus::seed_from_u64(wish.seed);
    let last = (wish.object as usize).wrapping_sub(1);
    let split = time_split(rt, alloc, &mut server, *ids.first()?, *ids.get(last)?)?;
    let rates = time_turns(rt, alloc, &mut server, ids.as_slice(), &mut numbers)?;
    Some((split, rates))
}

/// A number that tells of time, or 0 where there are too few supervoxels to tell.
fn told(count: u32, number: u128) -> u128 {
    if count < 1000 { 0 } else { number }
}

fn main(rt: HostRuntime) -> ExitCode {
    let alloc = rt.alloc();
    let Some(wish) = read_wish(&rt) else {
        let _ = println!(rt;
            "bench_plans: N OBJECT SEED, with N from 2 to 1000000 and OBJECT from 2 to 250000 and N"
        );
        return ExitCode::from(1);
    };
    let Some((split, rates)) = run(&rt, alloc, wish) else {
        return ExitCode::from(5);
    };
    let count = wish.count;
    let _ = println!(rt;
        "supervoxels {count} edges {} component {} net {} cut {} plan {} weight {} put {} merges-a-second {} undos-a-second {}",
        split.edges,
        told(count, split.component),
        told(count, split.net),
        told(count, split.cut),
        told(count, split.plan),
        split.weight,
        rates.put,
        told(count, rates.merges),
        told(count, rates.undos)
    );
    ExitCode::from(0)
}
