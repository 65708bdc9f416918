//! The texts of the two tables.
//!
//! Supervoxels are numbered from 0. Each 256 of them make a base chunk; chunks follow one another x
//! fastest, then y, then z, over a grid of 16 by 16 by 16. An object is a run of supervoxels, of which
//! each has an active edge to the next one. Nine in ten have another one to a supervoxel of the object
//! from 2 to 1,001 further on, if there is one.

use crate::words::Wish;
use itoa::Buffer;
use node_ids::{Layout, NodeId, Parts};
use rand::RngExt;
use rand_core::{Rng, SeedableRng};
use rand_xoshiro::Xoshiro256PlusPlus;
use std::alloc::Global;

/// The texts of a supervoxel table and an edge table.
#[derive(Drop)]
pub struct Tables {
    /// The text of the supervoxel table.
    pub supervoxels: Vec<u8>,
    /// The text of the edge table.
    pub edges: Vec<u8>,
}

/// The id of the supervoxel with this number.
fn id_of(layout: Layout, number: u32) -> Option<NodeId> {
    let chunk = number / 256;
    let parts = Parts {
        layer: 1,
        x: chunk % 16,
        y: chunk / 16 % 16,
        z: chunk / 256,
        segment: (number % 256 + 1) as u64,
    };
    layout.pack(parts).ok()
}

/// Puts the digits of a number behind a text.
fn put_digits(text: &mut Vec<u8>, n: u64) -> Option<()> {
    let mut buffer = Buffer::new();
    text.extend_from_slice(buffer.format(n).as_bytes()).ok()
}

/// Puts a piece behind a text.
fn put(text: &mut Vec<u8>, piece: &[u8]) -> Option<()> {
    text.extend_from_slice(piece).ok()
}

/// Puts the record of an active edge with a drawn affinity from 1 to 1,000.
fn put_edge<G: Rng>(
    text: &mut Vec<u8>,
    numbers: &mut G,
    layout: Layout,
    from: u32,
    to: u32,
) -> Option<()> {
    put_digits(text, id_of(layout, from)?.0)?;
    put(text, b",")?;
    put_digits(text, id_of(layout, to)?.0)?;
    put(text, b",")?;
    put_digits(text, numbers.random_range(1..1001u64))?;
    put(text, b",1\n")
}

/// Puts the edges from a supervoxel to later ones of its object, which ends before `end`.
fn put_edges<G: Rng>(
    text: &mut Vec<u8>,
    numbers: &mut G,
    layout: Layout,
    from: u32,
    end: u32,
) -> Option<()> {
    let next = from.wrapping_add(1);
    if next < end {
        put_edge(text, numbers, layout, from, next)?;
    }
    let far = next.wrapping_add(numbers.random_range(1..1001u32));
    if far < end && numbers.random_range(0..10u32) > 0 {
        put_edge(text, numbers, layout, from, far)?;
    }
    Some(())
}

fn supervoxel_table(alloc: Global, layout: Layout, count: u32) -> Option<Vec<u8>> {
    let mut text = Vec::from_slice(alloc, b"supervoxel\n").ok()?;
    for number in 0..count {
        put_digits(&mut text, id_of(layout, number)?.0)?;
        put(&mut text, b"\n")?;
    }
    Some(text)
}

fn edge_table(alloc: Global, layout: Layout, wish: Wish) -> Option<Vec<u8>> {
    let mut numbers = Xoshiro256PlusPlus::seed_from_u64(wish.seed);
    let mut text = Vec::from_slice(alloc, b"a,b,affinity,active\n").ok()?;
    let mut end: u32 = 0;
    for from in 0..wish.count {
        if from == end {
            end = end.wrapping_add(wish.object).min(wish.count);
        }
        put_edges(&mut text, &mut numbers, layout, from, end)?;
    }
    Some(text)
}

/// The tables of a base. None where memory ran out.
pub fn make_tables(alloc: Global, layout: Layout, wish: Wish) -> Option<Tables> {
    Some(Tables {
        supervoxels: supervoxel_table(alloc, layout, wish.count)?,
        edges: edge_table(alloc, layout, wish)?,
    })
}
