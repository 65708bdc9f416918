//! The edges that are made from a number.

ghost use Rattle.std.specs.Prelude.{◌≡◌, ◌≤◌, ◌<◌, ◌*◌, IfOk, length};
ghost use Rattle.made_input.specs.Edges.{IsWish, chunks, edges_below, has_neighbour, parts, supervoxel, with_inner, with_outer};

use crate::draws::{next, shown};
use crate::wish::Wish;
use node_ids::{NodeId, Parts};
use pcg_base::NoMemory;
use std::alloc::Global;

/// An edge between the supervoxels with two numbers.
#[derive(Clone, Copy, Debug)]
pub struct MadeEdge {
    /// The number of the one supervoxel.
    pub a: u32,
    /// The number of the other.
    pub b: u32,
    /// The affinity, from 1 to 100.
    pub affinity: u32,
    /// Whether it is active.
    pub active: bool,
}

/// How many base chunks there are.
pub(crate) fn chunks(wish: &Wish) -> u64
    ensures is { result ≡ chunks wish.now }
    ensures some { 1 ≤ result }
{
    wish.grid.nx() as u64 * wish.grid.ny() as u64 * wish.grid.nz() as u64
}

/// The layer, the chunk and the segment of the supervoxel with a number.
#[tactic(auto, unfolding(crate::specs::Edges::parts))]
fn parts(wish: &Wish, k: u32) -> Parts
    requires fits { IsWish wish.now }
    requires there { k < wish.now.size }
    ensures { result ≡ parts wish.now k }
{
    let chunks = chunks(wish);
    let nx = wish.grid.nx() as u64;
    let ny = wish.grid.ny() as u64;
    let number = k as u64 % chunks;
    Parts {
        layer: 1,
        x: (number % nx) as u32,
        y: (number / nx % ny) as u32,
        z: (number / (nx * ny)) as u32,
        segment: k as u64 / chunks + 1,
    }
}

/// The id of the supervoxel with a number.
pub(crate) fn supervoxel(wish: &Wish, k: u32) -> NodeId
    requires fits { IsWish wish.now }
    requires there { k < wish.now.size }
    ensures { result ≡ supervoxel wish.now k }
{
    match wish.layout.pack(parts(wish, k)) {
        Ok(id) => id,
        // a wish has room for its supervoxels, so this never comes
        Err(_) => NodeId(0),
    }
}

/// Puts the edge from the last supervoxel of the same chunk behind the edges, if there is one. Answers
/// the state behind it.
#[tactic(auto, unfolding(crate::specs::Edges::with_inner))]
fn with_inner(wish: &Wish, k: u32, edges: &mut Vec<MadeEdge>, state: u64) -> Result<u64, NoMemory>
    ensures { IfOk result (λ s. with_inner wish.now k (edges.old.items, state) ≡ (edges.new.items, s)) }
{
    let chunks = chunks(wish);
    if (k as u64) < chunks {
        return Ok(state);
    }
    let first = next(state);
    let second = next(first);
    let edge = MadeEdge {
        a: (k as u64 - chunks) as u32,
        b: k,
        affinity: 1 + shown(100, first) as u32,
        active: shown(8, second) != 0,
    };
    match edges.push(edge) {
        Ok(()) => Ok(second),
        Err(_) => Err(NoMemory),
    }
}

/// Whether a supervoxel has a neighbour in the next chunk along x.
#[tactic(auto, unfolding(crate::specs::Edges::has_neighbour))]
fn has_neighbour(wish: &Wish, k: u32) -> bool
    requires { k < 1000000 }
    ensures { result ≡ has_neighbour wish.now k }
{
    let nx = wish.grid.nx() as u64;
    (k as u64 % chunks(wish)) % nx + 1 < nx && k + 1 < wish.size
}

/// Puts the edge to the next chunk along x behind the edges, if one is drawn. Answers the state behind
/// it.
#[tactic(auto, unfolding(crate::specs::Edges::with_outer))]
fn with_outer(wish: &Wish, k: u32, edges: &mut Vec<MadeEdge>, state: u64) -> Result<u64, NoMemory>
    requires { k < 1000000 }
    ensures { IfOk result (λ s. with_outer wish.now k (edges.old.items, state) ≡ (edges.new.items, s)) }
{
    if !has_neighbour(wish, k) {
        return Ok(state);
    }
    let first = next(state);
    if shown(4, first) != 0 {
        return Ok(first);
    }
    let second = next(first);
    let third = next(second);
    let edge = MadeEdge {
        a: k,
        b: k + 1,
        affinity: 1 + shown(100, second) as u32,
        active: shown(2, third) == 0,
    };
    match edges.push(edge) {
        Ok(()) => Ok(third),
        Err(_) => Err(NoMemory),
    }
}

/// The edges between all supervoxels, and the state behind them.
#[derive(Drop)]
pub struct MadeEdges {
    /// The edges, in order.
    pub list: Vec<MadeEdge>,
    /// The state behind them.
    pub state: u64,
}

/// The edges between all supervoxels, and the state behind them.
pub fn make_edges(alloc: Global, wish: &Wish) -> Result<MadeEdges, NoMemory>
    requires { IsWish wish.now }
    ensures edges { IfOk result (λ made. edges_below wish.now wish.now.size ≡ (made.list.items, made.state)) }
    ensures few { IfOk result (λ made. length made.list.items ≤ 2000000) }
{
    let mut list = Vec::new(alloc);
    let mut state = wish.number;
    for k in 0..wish.size {
        state = with_inner(wish, k, &mut list, state)?;
        state = with_outer(wish, k, &mut list, state)?;
    }
    Ok(MadeEdges { list, state })
}
