//! The steps that are timed.

ghost use Rattle.std.specs.Prelude.{◌≡◌, IfSome};
ghost use Rattle.op_model.specs.Valid.{IsBase, IsDataset};
ghost use Rattle.bench_base.specs.Bases.{IsReadable};

use hierarchy_build::build;
use node_ids::NodeId;
use op_model::{Base, Dataset, Read, Reply};
use pcg_base::{VecWords, Words};
use rand::RngExt;
use rand_core::SeedableRng;
use rand_xoshiro::Xoshiro256PlusPlus;
use std::alloc::Global;
use std::rt::Clock;
use std::time::Instant;
use table_ingest::read_base;
use timestamp_reader::answer;

/// How many roots are read.
pub const READS: u64 = 200000;

/// The base that two texts spell, and how many microseconds it took to read it.
pub fn time_read<R: Clock>(
    rt: &R,
    alloc: Global,
    supervoxels: &[u8],
    edges: &[u8],
    dataset: &Dataset,
) -> Option<(Base, u128)>
    ensures { IfSome result (λ p. IsBase dataset.now p.0) }
{
    let start = Instant::now(rt).ok()?;
    let base = read_base(alloc, supervoxels, edges, dataset).ok()?;
    let time = start.elapsed(rt).ok()?;
    Some((base, time.as_micros()))
}

/// The words of a base, and how many microseconds it took to build them.
pub fn time_build<R: Clock>(
    rt: &R,
    alloc: Global,
    base: &Base,
    dataset: &Dataset,
) -> Option<(VecWords, u128)>
    requires dataset { IsDataset dataset.now }
    requires base { IsBase dataset.now base.now }
    ensures { IfSome result (λ p. IsReadable p.0.words) }
{
    let start = Instant::now(rt).ok()?;
    let Ok(words) = build(alloc, base, dataset, 1) else {
        return None;
    };
    let time = start.elapsed(rt).ok()?;
    Some((words, time.as_micros()))
}

/// Whether the root of a supervoxel is read.
fn finds_root(alloc: Global, words: &mut VecWords, sv: NodeId) -> bool
    requires { IsReadable words.old.words }
    ensures { words.new ≡ words.old }
{
    match answer(alloc, words, &Read::Root { sv, at: None }) {
        Reply::Root { .. } => true,
        _ => false,
    }
}

/// How many microseconds it takes to read the roots of `READS` drawn supervoxels.
pub fn time_roots<R: Clock>(
    rt: &R,
    alloc: Global,
    words: &mut VecWords,
    ids: &[NodeId],
    seed: u64,
) -> Option<u128>
    requires { IsReadable words.old.words }
{
    let mut numbers = Xoshiro256PlusPlus::seed_from_u64(seed);
    if ids.is_empty() {
        return None;
    }
    let start = Instant::now(rt).ok()?;
    for _ in 0..READS {
        let sv = ids[numbers.random_range(0..ids.len())];
        if !finds_root(alloc, words, sv) {
            return None;
        }
    }
    let time = start.elapsed(rt).ok()?;
    Some(time.as_micros())
}
