//! The texts of the two tables.
//!
//! Supervoxels are numbered from 0. Each 256 of them make a base chunk; chunks follow one another x fastest,
//! then y, then z, over a grid of 16 by 16 by 16. From a supervoxel there are three edges to later ones, where
//! there are so many: 8 to 32 further on, 40 to 64 further on, and for three in four 72 to 96 further on, for
//! the others 256, 4096 or 65536, which is the next chunk along x, y or z. All of these are multiples of 8, and
//! no two edges have one pair. Three in four edges are active.

ghost use Rattle.std.specs.Prelude.{◌<◌, ◌≤◌};
ghost use Rattle.bench_base.specs.Bases.{IsCount};

use itoa::Buffer;
use node_ids::{Layout, NodeId, Parts};
use rand::RngExt;
use rand_core::{Rng, SeedableRng};
use rand_xoshiro::Xoshiro256PlusPlus;
use std::alloc::Global;

/// How many supervoxels a base chunk has.
const CROWD: u64 = 256;

/// The texts of a supervoxel table and an edge table.
#[derive(Drop)]
pub struct Tables {
    /// The text of the supervoxel table.
    pub supervoxels: Vec<u8>,
    /// The text of the edge table.
    pub edges: Vec<u8>,
}

/// The number that stands at this place of a table.
fn number_at(place: u64, count: u64) -> u64
    requires count { IsCount count }
    requires place { place < count }
    ensures { result < count }
{
    place * 7368787 % count
}

/// The id of the supervoxel with this number.
fn id_of(layout: Layout, number: u64) -> Option<NodeId>
    requires { number < 1000000 }
{
    let chunk = number / CROWD;
    let parts = Parts {
        layer: 1,
        x: (chunk % 16) as u32,
        y: (chunk / 16 % 16) as u32,
        z: (chunk / 256) as u32,
        segment: number % CROWD + 1,
    };
    layout.pack(parts).ok()
}

/// Puts the digits of a number behind a text.
fn put_digits(text: &mut Vec<u8>, n: u64) -> Option<()> {
    let mut buffer = Buffer::new();
    text.extend_from_slice(buffer.format(n).as_bytes()).ok()
}

/// Puts a piece behind a text.
fn put(text: &mut Vec<u8>, piece: &[u8]) -> Option<()> {
    text.extend_from_slice(piece).ok()
}

/// Puts the record of the edge between two ids, with a drawn affinity from 1 to 1,000 and a drawn state.
fn put_record<G: Rng>(text: &mut Vec<u8>, numbers: &mut G, a: NodeId, b: NodeId) -> Option<()> {
    put_digits(text, a.0)?;
    put(text, b",")?;
    put_digits(text, b.0)?;
    put(text, b",")?;
    put_digits(text, numbers.random_range(1..1001u64))?;
    if numbers.random_range(0..4u64) == 0 {
        put(text, b",0\n")
    } else {
        put(text, b",1\n")
    }
}

/// Puts the edge between two supervoxels, in a drawn order of its ends, if there is the second.
fn put_edge<G: Rng>(
    text: &mut Vec<u8>,
    numbers: &mut G,
    layout: Layout,
    count: u64,
    from: u64,
    to: u64,
) -> Option<()>
    requires count { IsCount count }
    requires from { from < count }
{
    if to >= count {
        return Some(());
    }
    let a = id_of(layout, from)?;
    let b = id_of(layout, to)?;
    if numbers.random_range(0..2u64) == 0 {
        put_record(text, numbers, a, b)
    } else {
        put_record(text, numbers, b, a)
    }
}

/// How much further on the third edge of a supervoxel leads.
fn third<G: Rng>(numbers: &mut G) -> u64
    ensures { result ≤ 65536 }
{
    if numbers.random_range(0..4u64) > 0 {
        return numbers.random_range(9..13u64) * 8;
    }
    match numbers.random_range(0..3u64) {
        0 => 256,
        1 => 4096,
        _ => 65536,
    }
}

/// Puts the three edges from a supervoxel.
fn put_edges<G: Rng>(
    text: &mut Vec<u8>,
    numbers: &mut G,
    layout: Layout,
    count: u64,
    from: u64,
) -> Option<()>
    requires count { IsCount count }
    requires from { from < count }
{
    let near = from + numbers.random_range(1..5u64) * 8;
    put_edge(text, numbers, layout, count, from, near)?;
    let next = from + numbers.random_range(5..9u64) * 8;
    put_edge(text, numbers, layout, count, from, next)?;
    let far = from + third(numbers);
    put_edge(text, numbers, layout, count, from, far)
}

/// The text of the supervoxel table, in mixed order.
fn supervoxel_table(alloc: Global, layout: Layout, count: u64) -> Option<Vec<u8>>
    requires { IsCount count }
{
    let mut text = Vec::from_slice(alloc, b"supervoxel\n").ok()?;
    for place in 0..count {
        let id = id_of(layout, number_at(place, count))?;
        put_digits(&mut text, id.0)?;
        put(&mut text, b"\n")?;
    }
    Some(text)
}

/// The text of the edge table, in the order of the supervoxel table.
fn edge_table(alloc: Global, layout: Layout, count: u64, seed: u64) -> Option<Vec<u8>>
    requires { IsCount count }
{
    let mut numbers = Xoshiro256PlusPlus::seed_from_u64(seed);
    let mut text = Vec::from_slice(alloc, b"a,b,affinity,active\n").ok()?;
    for place in 0..count {
        let from = number_at(place, count);
        put_edges(&mut text, &mut numbers, layout, count, from)?;
    }
    Some(text)
}

/// The tables of so many supervoxels. None where memory ran out.
pub fn make_tables(alloc: Global, layout: Layout, count: u64, seed: u64) -> Option<Tables>
    requires { IsCount count }
{
    Some(Tables {
        supervoxels: supervoxel_table(alloc, layout, count)?,
        edges: edge_table(alloc, layout, count, seed)?,
    })
}
