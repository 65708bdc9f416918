//! The tables of drawn bases.

use node_ids::{NodeId, Parts};
use op_model::Dataset;
use rand::RngExt;
use rand_xoshiro::Xoshiro256PlusPlus;
use std::alloc::Global;
use std::fmt::Write;
use std::test::Fail;

/// The texts of a base's two tables.
#[derive(Drop)]
pub struct Tables {
    /// The supervoxels.
    pub supervoxels: String,
    /// The edges between them.
    pub edges: String,
}

/// A number below another one, which counts as 1 at least.
pub fn below(numbers: &mut Xoshiro256PlusPlus, end: usize) -> usize {
    numbers.random_range(0..end.max(1))
}

/// One of some ids, if there are any.
pub fn pick(numbers: &mut Xoshiro256PlusPlus, ids: &[NodeId]) -> Option<NodeId> {
    let k = below(numbers, ids.len());
    let id = ids.get(k)?;
    Some(*id)
}

/// The tables of 1 to 20 supervoxels in any chunks of the dataset, and of up to 30 edges.
pub fn drawn_tables(
    alloc: Global,
    numbers: &mut Xoshiro256PlusPlus,
    dataset: &Dataset,
) -> Result<Tables, Fail> {
    let ids = drawn_ids(alloc, numbers, dataset)?;
    Ok(Tables {
        supervoxels: supervoxel_table(alloc, ids.as_slice())?,
        edges: edge_table(alloc, numbers, ids.as_slice())?,
    })
}

// a supervoxel of any chunk, with a segment from 1 to 20
fn drawn_id(numbers: &mut Xoshiro256PlusPlus, dataset: &Dataset) -> NodeId {
    let grid = dataset.grid;
    let parts = Parts {
        layer: 1,
        x: numbers.random_range(0..grid.nx()),
        y: numbers.random_range(0..grid.ny()),
        z: numbers.random_range(0..grid.nz()),
        segment: numbers.random_range(1..21u64),
    };
    match dataset.layout.pack(parts) {
        Ok(id) => id,
        Err(_) => NodeId(0),
    }
}

// from 1 to 20 different supervoxels, in any order
fn drawn_ids(
    alloc: Global,
    numbers: &mut Xoshiro256PlusPlus,
    dataset: &Dataset,
) -> Result<Vec<NodeId>, Fail> {
    let mut ids = Vec::new(alloc);
    for _ in 0..below(numbers, 20).wrapping_add(1) {
        let id = drawn_id(numbers, dataset);
        if !ids.contains(&id) {
            ids.push(id)?;
        }
    }
    Ok(ids)
}

fn supervoxel_table(alloc: Global, ids: &[NodeId]) -> Result<String, Fail> {
    let mut text = String::from_str(alloc, "supervoxel\n")?;
    for id in ids {
        writeln!(text, "{}", id.0)?;
    }
    Ok(text)
}

// an edge of glue
fn put_glue(text: &mut String, a: u64, b: u64) -> Result<(), Fail> {
    writeln!(text, "{a},{b},glue,1")?;
    Ok(())
}

// an edge with an affinity, which is active or not
fn put_affinity(
    text: &mut String,
    a: u64,
    b: u64,
    affinity: usize,
    active: u8,
) -> Result<(), Fail> {
    writeln!(text, "{a},{b},{affinity},{active}")?;
    Ok(())
}

// a fifth of the edges is of glue, two fifths are active with an affinity, the others aren't active
fn put_edge(
    text: &mut String,
    numbers: &mut Xoshiro256PlusPlus,
    a: u64,
    b: u64,
) -> Result<(), Fail> {
    let affinity = below(numbers, 100).wrapping_add(1);
    match below(numbers, 5) {
        0 => put_glue(text, a, b),
        1 => put_affinity(text, a, b, affinity, 1),
        2 => put_affinity(text, a, b, affinity, 1),
        _ => put_affinity(text, a, b, affinity, 0),
    }
}

// each two supervoxels are joined by an edge, by chance
fn edge_table(
    alloc: Global,
    numbers: &mut Xoshiro256PlusPlus,
    ids: &[NodeId],
) -> Result<String, Fail> {
    let mut text = String::from_str(alloc, "a,b,affinity,active\n")?;
    for a in ids {
        for b in ids {
            if a < b && below(numbers, ids.len()) < 2 {
                put_edge(&mut text, numbers, a.0, b.0)?;
            }
        }
    }
    Ok(text)
}
