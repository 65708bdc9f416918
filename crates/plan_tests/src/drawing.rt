//! Drawn bases and edits.

use crate::plain_edits::Asked;
use crate::plain_logs::Log;
use node_ids::{NodeId, Parts};
use op_model::{AskedPair, Dataset, Kind, Pair};
use rand::RngExt;
use rand_core::Rng;
use std::alloc::{AllocError, Global};
use std::fmt::Write;
use std::test::Fail;

/// The texts of a base's two tables.
#[derive(Drop)]
pub struct Tables {
    pub supervoxels: String,
    pub edges: String,
}

/// The tables of up to 9 supervoxels in any chunks of the dataset, and of up to 19 edges: half of them
/// active with an affinity from 1 to 6, an eighth of glue, and the others not active.
pub fn drawn_tables<G: Rng>(
    alloc: Global,
    numbers: &mut G,
    dataset: &Dataset,
) -> Result<Tables, Fail> {
    let ids = drawn_ids(alloc, numbers, dataset)?;
    let pairs = drawn_pairs(alloc, numbers, ids.as_slice())?;
    Ok(Tables {
        supervoxels: supervoxel_table(alloc, ids.as_slice())?,
        edges: edge_table(alloc, numbers, pairs.as_slice())?,
    })
}

fn drawn_id<G: Rng>(numbers: &mut G, dataset: &Dataset) -> NodeId {
    let parts = Parts {
        layer: 1,
        x: numbers.random_range(0..dataset.grid.nx()),
        y: numbers.random_range(0..dataset.grid.ny()),
        z: numbers.random_range(0..dataset.grid.nz()),
        segment: numbers.random_range(1..9u64),
    };
    match dataset.layout.pack(parts) {
        Ok(id) => id,
        Err(_) => NodeId(0),
    }
}

/// From 1 to 9 different supervoxels, in any order.
fn drawn_ids<G: Rng>(
    alloc: Global,
    numbers: &mut G,
    dataset: &Dataset,
) -> Result<Vec<NodeId>, Fail> {
    let mut ids = Vec::new(alloc);
    for _ in 0..numbers.random_range(3..10u32) {
        let id = drawn_id(numbers, dataset);
        if !ids.contains(&id) {
            ids.push(id)?;
        }
    }
    Ok(ids)
}

/// One of these ids, or one that no supervoxel has.
fn drawn_of<G: Rng>(numbers: &mut G, ids: &[NodeId]) -> NodeId {
    let count = ids.len().min(1000) as u32;
    if count == 0 {
        return NodeId(5);
    }
    match ids.get(numbers.random_range(0..count) as usize) {
        Some(id) => *id,
        None => NodeId(5),
    }
}

fn has_pair(pairs: &[Pair], pair: &Pair) -> bool {
    let turned = Pair {
        a: pair.b,
        b: pair.a,
    };
    pairs.contains(pair) || pairs.contains(&turned)
}

/// Different pairs of different supervoxels, in any order.
fn drawn_pairs<G: Rng>(alloc: Global, numbers: &mut G, ids: &[NodeId]) -> Result<Vec<Pair>, Fail> {
    let mut pairs = Vec::new(alloc);
    for _ in 0..numbers.random_range(4..20u32) {
        let pair = Pair {
            a: drawn_of(numbers, ids),
            b: drawn_of(numbers, ids),
        };
        if pair.a != pair.b && !has_pair(pairs.as_slice(), &pair) {
            pairs.push(pair)?;
        }
    }
    Ok(pairs)
}

fn supervoxel_table(alloc: Global, ids: &[NodeId]) -> Result<String, Fail> {
    let mut text = String::from_str(alloc, "supervoxel\n")?;
    for id in ids {
        writeln!(text, "{}", id.0)?;
    }
    Ok(text)
}

fn edge_table<G: Rng>(alloc: Global, numbers: &mut G, pairs: &[Pair]) -> Result<String, Fail> {
    let mut text = String::from_str(alloc, "a,b,affinity,active\n")?;
    for pair in pairs {
        let affinity = numbers.random_range(1..7u32);
        match numbers.random_range(0..8u32) {
            0 => writeln!(text, "{},{},glue,1", pair.a.0, pair.b.0)?,
            1 | 2 | 3 | 4 => writeln!(text, "{},{},{affinity},1", pair.a.0, pair.b.0)?,
            _ => writeln!(text, "{},{},{affinity},0", pair.a.0, pair.b.0)?,
        }
    }
    Ok(text)
}

/// One of 40 times an id that no supervoxel has, else one of these.
fn drawn_mark<G: Rng>(numbers: &mut G, ids: &[NodeId]) -> NodeId {
    if numbers.random_range(0..40u32) == 0 {
        return NodeId(numbers.random_range(0..10u64));
    }
    drawn_of(numbers, ids)
}

fn drawn_asked<G: Rng>(numbers: &mut G, ids: &[NodeId]) -> AskedPair {
    AskedPair {
        a: drawn_mark(numbers, ids),
        b: drawn_mark(numbers, ids),
    }
}

/// From 0 to 3 pairs, mostly one, and one of 40 times 65.
fn drawn_merge<G: Rng>(
    alloc: Global,
    numbers: &mut G,
    ids: &[NodeId],
) -> Result<Vec<AskedPair>, AllocError> {
    let mut pairs = Vec::new(alloc);
    for _ in 0..drawn_count(numbers, 3) {
        pairs.push(drawn_asked(numbers, ids))?;
    }
    Ok(pairs)
}

/// How many are in a list: mostly one, one of 40 times none, another one 65, and else from 2 to so many.
fn drawn_count<G: Rng>(numbers: &mut G, most: u32) -> u32 {
    match numbers.random_range(0..40u32) {
        0 => 0,
        1 => 65,
        2..16 => numbers.random_range(2..most.max(2).min(9) + 1),
        _ => 1,
    }
}

/// The supervoxels with the root of a drawn one, or one of 5 times all of them.
fn drawn_side<G: Rng>(
    alloc: Global,
    numbers: &mut G,
    log: &Log,
) -> Result<Vec<NodeId>, AllocError> {
    let ids = log.ids.as_slice();
    let root = log.root(drawn_of(numbers, ids));
    let all = numbers.random_range(0..5u32) == 0;
    let mut list = Vec::new(alloc);
    for id in ids {
        if all || log.root(*id) == root {
            list.push(*id)?;
        }
    }
    Ok(list)
}

/// From 0 to 2 of these marks, mostly one, and one of 40 times 65.
fn drawn_marks<G: Rng>(
    alloc: Global,
    numbers: &mut G,
    ids: &[NodeId],
) -> Result<Vec<NodeId>, AllocError> {
    let mut marks = Vec::new(alloc);
    for _ in 0..drawn_count(numbers, 2) {
        marks.push(drawn_mark(numbers, ids))?;
    }
    Ok(marks)
}

/// The number of an entry, or of the one that comes next.
fn drawn_op<G: Rng>(numbers: &mut G, log: &Log) -> u64 {
    let count = log.steps.len().min(1000) as u64;
    numbers.random_range(0..count + 1)
}

/// An edit of a log.
pub fn drawn_edit<G: Rng>(alloc: Global, numbers: &mut G, log: &Log) -> Result<Asked, AllocError> {
    let kind = match numbers.random_range(0..10u32) {
        0..3 => Kind::Merge,
        3..7 => Kind::Split,
        7 | 8 => Kind::Undo,
        _ => Kind::Redo,
    };
    let near = drawn_side(alloc, numbers, log)?;
    Ok(Asked {
        kind,
        pairs: drawn_merge(alloc, numbers, log.ids.as_slice())?,
        sources: drawn_marks(alloc, numbers, near.as_slice())?,
        sinks: drawn_marks(alloc, numbers, near.as_slice())?,
        op: drawn_op(numbers, log),
    })
}
