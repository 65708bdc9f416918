//! Times how two generated tables are read, how their base is built, and how roots are read from it.
//!
//!     bench_base N SEED
//!
//! It prints one line, `supervoxels N edges M records R read MS build MS reads-a-second Q`: the base's size, how
//! many records it takes with its first entry, the whole milliseconds of `read_base` and of `build`, and how
//! many of 200,000 reads of the roots of drawn supervoxels, one after the other, are answered in a second. The
//! tables are those of `tables`; N is from 1 to 1,000,000. Below 1,000 supervoxels nothing is told of time: the
//! last three numbers are 0. Status 1: the words are of another form; 5: memory ran out or the clock failed.
//!
//! The promise: it never panics. Nothing is promised of what it prints.
#![tactic(auto)]

ghost use Rattle.op_model.specs.Valid.{IsBase, IsDataset};
ghost use Rattle.bench_base.specs.Bases.{IsCount};

mod steps;
mod tables;
mod words;

use chunk_geometry::Grid;
use node_ids::Layout;
use op_model::{Base, Dataset};
use pcg_base::Words;
use std::alloc::Global;
use std::process::ExitCode;
use std::rt::Clock;
use steps::{READS, time_build, time_read, time_roots};
use tables::make_tables;
use words::{Wish, read_wish};

/// What a run found.
#[derive(Drop)]
struct Timed {
    /// The number of edges.
    edges: usize,
    /// The number of records.
    records: u64,
    /// The microseconds of `read_base`.
    read: u128,
    /// The microseconds of `build`.
    build: u128,
    /// The microseconds of all reads.
    roots: u128,
}

/// The dataset of so many supervoxels, with room for all records of their base.
#[tactic(auto, unfolding(chunk_geometry::specs::Grids::grid_of))]
fn dataset_of(count: u64) -> Dataset
    requires { IsCount count }
    ensures { IsDataset result }
{
    let layout = Layout::new(8).unwrap();
    let grid = Grid::new(16, 16, 16).unwrap();
    let capacity = count * 15 + 10000;
    Dataset {
        layout,
        grid,
        merge_affinity: 1,
        capacity: capacity as u32,
    }
}

/// Builds the base, reads roots from its words, and tells of all.
fn build_and_read<R: Clock>(
    rt: &R,
    alloc: Global,
    base: &Base,
    dataset: &Dataset,
    read: u128,
    seed: u64,
) -> Option<Timed>
    requires dataset { IsDataset dataset.now }
    requires base { IsBase dataset.now base.now }
{
    let (mut words, build) = time_build(rt, alloc, base, dataset)?;
    let roots = time_roots(
        rt,
        alloc,
        &mut words,
        base.supervoxels.list.as_slice(),
        seed,
    )?;
    Some(Timed {
        edges: base.edges.list.len(),
        records: words.len() / 8,
        read,
        build,
        roots,
    })
}

/// Generates the tables, and times all.
fn run<R: Clock>(rt: &R, alloc: Global, wish: Wish) -> Option<Timed>
    requires { IsCount wish.count }
{
    let dataset = dataset_of(wish.count);
    let texts = make_tables(alloc, dataset.layout, wish.count, wish.seed)?;
    let (base, read) = time_read(
        rt,
        alloc,
        texts.supervoxels.as_slice(),
        texts.edges.as_slice(),
        &dataset,
    )?;
    build_and_read(rt, alloc, &base, &dataset, read, wish.seed)
}

/// A number that tells of time, or 0 where there are too few supervoxels to tell.
fn told(count: u64, number: u128) -> u128 {
    if count < 1000 { 0 } else { number }
}

fn main(rt: HostRuntime) -> ExitCode {
    let alloc = rt.alloc();
    let Some(wish) = read_wish(&rt) else {
        let _ = println!(rt; "bench_base: N SEED, with N from 1 to 1000000");
        return ExitCode::from(1);
    };
    let count = wish.count;
    let Some(found) = run(&rt, alloc, wish) else {
        return ExitCode::from(5);
    };
    let rate = READS as u128 * 1000000 / found.roots.max(1);
    let _ = println!(rt;
        "supervoxels {count} edges {} records {} read {} build {} reads-a-second {}",
        found.edges,
        found.records,
        told(count, found.read / 1000),
        told(count, found.build / 1000),
        told(count, rate)
    );
    ExitCode::from(0)
}
