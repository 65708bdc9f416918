//! The tables of drawn bases.

ghost use Rattle.std.specs.Prelude.{◌<◌};

use node_ids::{NodeId, Parts};
use op_model::{Dataset, Pair};
use rand::RngExt;
use rand_core::Rng;
use std::alloc::Global;
use std::fmt::Write;
use std::test::Fail;

/// The texts of a base's two tables.
#[derive(Drop)]
pub struct Tables {
    /// The supervoxels.
    pub supervoxels: String,
    /// The edges between them.
    pub edges: String,
}

/// The tables of up to 14 supervoxels in any chunks of the dataset, and of up to 27 edges.
pub fn drawn_tables<G: Rng>(
    alloc: Global,
    numbers: &mut G,
    dataset: &Dataset,
) -> Result<Tables, Fail> {
    let ids = drawn_ids(alloc, numbers, dataset)?;
    let pairs = drawn_pairs(alloc, numbers, ids.as_slice())?;
    Ok(Tables {
        supervoxels: supervoxel_table(alloc, ids.as_slice())?,
        edges: edge_table(alloc, numbers, pairs.as_slice())?,
    })
}

/// A supervoxel of any chunk, with a segment from 1 to 20.
fn drawn_id<G: Rng>(numbers: &mut G, dataset: &Dataset) -> NodeId {
    let grid = dataset.grid;
    let parts = Parts {
        layer: 1,
        x: numbers.random_range(0..grid.nx()),
        y: numbers.random_range(0..grid.ny()),
        z: numbers.random_range(0..grid.nz()),
        segment: numbers.random_range(1..21u64),
    };
    match dataset.layout.pack(parts) {
        Ok(id) => id,
        Err(_) => NodeId(0),
    }
}

/// From 1 to 14 different supervoxels, in any order.
fn drawn_ids<G: Rng>(
    alloc: Global,
    numbers: &mut G,
    dataset: &Dataset,
) -> Result<Vec<NodeId>, Fail> {
    let mut ids = Vec::new(alloc);
    for _ in 0..numbers.random_range(1..15u32) {
        let id = drawn_id(numbers, dataset);
        if !ids.contains(&id) {
            ids.push(id)?;
        }
    }
    Ok(ids)
}

/// Two of these supervoxels, if they are different.
fn drawn_pair<G: Rng>(numbers: &mut G, ids: &[NodeId]) -> Option<Pair> {
    let count = ids.len().min(14) as u32;
    if count == 0 {
        return None;
    }
    let a = *ids.get(numbers.random_range(0..count) as usize)?;
    let b = *ids.get(numbers.random_range(0..count) as usize)?;
    if a == b { None } else { Some(Pair { a, b }) }
}

/// Whether this pair is among them, its ends in either order.
fn has_pair(pairs: &[Pair], pair: &Pair) -> bool {
    let turned = Pair {
        a: pair.b,
        b: pair.a,
    };
    pairs.contains(pair) || pairs.contains(&turned)
}

/// Different pairs of different supervoxels, in any order.
fn drawn_pairs<G: Rng>(alloc: Global, numbers: &mut G, ids: &[NodeId]) -> Result<Vec<Pair>, Fail> {
    let mut pairs = Vec::new(alloc);
    for _ in 0..numbers.random_range(0..28u32) {
        if let Some(pair) = drawn_pair(numbers, ids) {
            if !has_pair(pairs.as_slice(), &pair) {
                pairs.push(pair)?;
            }
        }
    }
    Ok(pairs)
}

fn supervoxel_table(alloc: Global, ids: &[NodeId]) -> Result<String, Fail> {
    let mut text = String::from_str(alloc, "supervoxel\n")?;
    for id in ids {
        writeln!(text, "{}", id.0)?;
    }
    Ok(text)
}

/// A third of the edges is of glue, a third is active with an affinity, and a third is not active.
fn edge_table<G: Rng>(alloc: Global, numbers: &mut G, pairs: &[Pair]) -> Result<String, Fail> {
    let mut text = String::from_str(alloc, "a,b,affinity,active\n")?;
    for pair in pairs {
        let affinity = numbers.random_range(1..101u32);
        match numbers.random_range(0..3u32) {
            0 => writeln!(text, "{},{},glue,1", pair.a.0, pair.b.0)?,
            1 => writeln!(text, "{},{},{affinity},1", pair.a.0, pair.b.0)?,
            _ => writeln!(text, "{},{},{affinity},0", pair.a.0, pair.b.0)?,
        }
    }
    Ok(text)
}
