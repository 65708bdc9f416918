//! Times merges of drawn supervoxels: their plans, and their entries put into the words.
//!
//!     bench_edits N EDITS SEED
//!
//! It makes the base of N supervoxels from the number SEED, builds its words, and asks for EDITS merges
//! of drawn supervoxels. It prints one line, `supervoxels N asked E accepted A records R build MS
//! merges-a-second Q first Q last Q`: how many merges were asked and accepted, the records that they
//! wrote, the whole milliseconds of `build`, and how many merges were accepted in a second: of all, and
//! of the first and the last tenth that were asked. N is from 1 to 1,000,000 and EDITS from 10 to
//! 1,000,000. Below 1,000 supervoxels nothing is told of time: the last four numbers are 0. Status 1:
//! the words are of another form; 5: memory ran out or the clock failed.
//!
//! The promise: it never panics. Nothing is promised of what it prints.
#![tactic(auto)]

ghost use Rattle.std.specs.Prelude.{◌≡◌, ◌≤◌};
ghost use Rattle.made_input.specs.Edges.{IsWish};
ghost use Rattle.op_model.specs.Valid.{IsDataset};
ghost use Rattle.bench_edits.specs.Bases.{IsCount, IsWide};

mod merging;
mod serving;
mod words;

use bench_servers::Server;
use chunk_geometry::Grid;
use made_bases::made_base;
use made_input::Wish as Made;
use merging::{Tenth, merge_tenth};
use node_ids::{Layout, NodeId};
use op_model::Dataset;
use rand_core::SeedableRng;
use rand_xoshiro::Xoshiro256PlusPlus;
use std::alloc::Global;
use std::process::ExitCode;
use std::rt::Clock;
use std::time::Instant;
use words::{Wish, read_wish};

/// What a run found.
#[derive(Drop)]
struct Timed {
    /// The records that the merges wrote.
    records: u64,
    /// The microseconds of `build`.
    build: u128,
    /// The first tenth of the merges.
    first: Tenth,
    /// The last one.
    last: Tenth,
    /// All of them.
    all: Tenth,
}

/// The wish for a base of so many supervoxels.
fn made_of(count: u32, seed: u64, dataset: &Dataset) -> Made
    requires dataset { IsDataset dataset.now × IsWide dataset.now }
    requires count { (1 ≤ count) × (count ≤ 1000000) }
    ensures wish { IsWish result }
    ensures layout { result.layout ≡ dataset.now.layout }
    ensures grid { result.grid ≡ dataset.now.grid }
{
    Made {
        layout: dataset.layout,
        grid: dataset.grid,
        number: seed,
        size: count,
        clients: 1,
        requests: 0,
    }
}

/// The dataset, with room for so many records.
#[tactic(auto, unfolding(chunk_geometry::specs::Grids::grid_of))]
fn dataset_of(capacity: u32) -> Dataset
    requires low { 2 ≤ capacity }
    requires high { capacity ≤ 16777216 }
    ensures dataset { IsDataset result }
    ensures wide { IsWide result }
{
    let layout = Layout::new(8).unwrap();
    let grid = Grid::new(16, 16, 16).unwrap();
    Dataset {
        layout,
        grid,
        merge_affinity: 1,
        capacity,
    }
}

/// All tenths of the merges, one after the other.
fn merge_all<R: Clock>(
    rt: &R,
    alloc: Global,
    server: &mut Server,
    ids: &[NodeId],
    wish: Wish,
) -> Option<(Tenth, Tenth, Tenth)> {
    let mut numbers = Xoshiro256PlusPlus::seed_from_u64(wish.seed);
    let each = wish.edits / 10;
    let mut first = Tenth {
        accepted: 0,
        time: 0,
    };
    let mut last = Tenth {
        accepted: 0,
        time: 0,
    };
    let mut all = Tenth {
        accepted: 0,
        time: 0,
    };
    for k in 0..10 {
        last = merge_tenth(rt, alloc, server, ids, &mut numbers, each)?;
        if k == 0 {
            first = last;
        }
        all = all.with(last);
    }
    Some((first, last, all))
}

/// Makes the base and its words, and times the merges.
fn run<R: Clock>(rt: &R, alloc: Global, wish: Wish) -> Option<Timed>
    requires { IsCount wish.count wish.edits }
{
    let capacity = wish.count * 10 + wish.edits.min(16000) * 1000 + 10000;
    let dataset = dataset_of(capacity.min(16777216));
    let made = made_of(wish.count, wish.seed, &dataset);
    let base = made_base(alloc, &made, &dataset).ok()?;
    let start = Instant::now(rt).ok()?;
    let mut server = Server::new(alloc, &base, dataset, 0).ok()?;
    let build = start.elapsed(rt).ok()?;
    let before = server.records();
    let ids = base.supervoxels.list.as_slice();
    let (first, last, all) = merge_all(rt, alloc, &mut server, ids, wish)?;
    Some(Timed {
        records: server.records().saturating_sub(before),
        build: build.as_micros(),
        first,
        last,
        all,
    })
}

/// A number that tells of time, or 0 where there are too few supervoxels to tell.
fn told(count: u32, number: u128) -> u128 {
    if count < 1000 { 0 } else { number }
}

fn main(rt: HostRuntime) -> ExitCode {
    let alloc = rt.alloc();
    let Some(wish) = read_wish(&rt) else {
        let _ = println!(rt;
            "bench_edits: N EDITS SEED, with N from 1 and EDITS from 10 to 1000000"
        );
        return ExitCode::from(1);
    };
    let Wish { count, edits, .. } = wish;
    let Some(found) = run(&rt, alloc, wish) else {
        return ExitCode::from(5);
    };
    let _ = println!(rt;
        "supervoxels {count} asked {edits} accepted {} records {} build {} merges-a-second {} first {} last {}",
        found.all.accepted,
        found.records,
        told(count, found.build / 1000),
        told(count, found.all.rate()),
        told(count, found.first.rate()),
        told(count, found.last.rate())
    );
    ExitCode::from(0)
}
