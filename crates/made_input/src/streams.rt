//! Request streams, and all that is made.

ghost use Rattle.std.specs.Prelude.{◌≡◌, ◌≤◌, ◌++◌, IfOk, map};
ghost use Rattle.made_input.specs.Edges.{IsWish, edges_below};
ghost use Rattle.made_input.specs.Texts.{input_of, line_of, said, stream_of, streams_of};

use crate::draws::{next, shown};
use crate::edges::make_edges;
use crate::texts::{
    edge_table, put_merge, put_path, put_root, put_split, put_undo, supervoxel_table,
};
use crate::wish::Wish;
use pcg_base::NoMemory;
use std::alloc::Global;

/// Puts line j of a stream behind a text. Answers the state behind it.
#[tactic(auto, unfolding(crate::specs::Texts::line_of))]
pub fn put_line(wish: &Wish, j: u32, state: u64, text: &mut Vec<u8>) -> Result<u64, NoMemory>
    requires fits { IsWish wish.now }
    requires few { j ≤ 100000 }
    ensures text { IfOk result (λ s. text.new.items ≡ text.old.items ++ (line_of wish.now j state).0) }
    ensures state { IfOk result (λ s. s ≡ (line_of wish.now j state).1) }
{
    let size = wish.size as u64;
    let first = next(state);
    let kind = shown(10, first);
    let second = next(first);
    if kind < 4 {
        put_root(wish, shown(size, second) as u32, text)?;
        return Ok(second);
    }
    if kind == 4 {
        put_path(wish, shown(size, second) as u32, text)?;
        return Ok(second);
    }
    if kind < 8 {
        let third = next(second);
        put_merge(
            wish,
            shown(size, second) as u32,
            shown(size, third) as u32,
            text,
        )?;
        return Ok(third);
    }
    if kind == 8 {
        put_split(wish, shown(size, second) as u32, text)?;
        return Ok(second);
    }
    put_undo(1 + shown(j as u64 + 1, second), text)?;
    Ok(second)
}

/// A request stream, and the state behind it.
#[derive(Drop)]
struct Stream {
    /// The lines.
    text: Vec<u8>,
    /// The state behind them.
    state: u64,
}

/// The stream that begins at a state.
fn make_stream(alloc: Global, wish: &Wish, state: u64) -> Result<Stream, NoMemory>
    requires { IsWish wish.now }
    ensures text { IfOk result (λ s. s.text.items ≡ (stream_of wish.now state wish.now.requests).0) }
    ensures state { IfOk result (λ s. s.state ≡ (stream_of wish.now state wish.now.requests).1) }
{
    let mut text = Vec::new(alloc);
    let mut at = state;
    for j in 0..wish.requests {
        at = put_line(wish, j + 1, at, &mut text)?;
    }
    Ok(Stream { text, state: at })
}

/// What is made: the two tables of a base, and a request stream for each client.
#[derive(Drop)]
pub struct MadeInput {
    /// The supervoxel table.
    pub supervoxels: Vec<u8>,
    /// The edge table.
    pub edges: Vec<u8>,
    /// The clients' request streams, in order.
    pub streams: Vec<Vec<u8>>,
    /// How many edges there are.
    pub edge_count: u32,
}

/// The clients' request streams, from the state that the edges leave.
fn make_streams(alloc: Global, wish: &Wish, state: u64) -> Result<Vec<Vec<u8>>, NoMemory>
    requires fits { IsWish wish.now }
    requires behind { state ≡ (edges_below wish.now wish.now.size).1 }
    ensures { IfOk result (λ streams. map (λ v. v.items) streams.items ≡ (streams_of wish.now wish.now.clients).0) }
{
    let mut streams = Vec::new(alloc);
    let mut at = state;
    for i in 0..wish.clients {
        let Stream { text, state } = make_stream(alloc, wish, at)?;
        match streams.push(text) {
            Ok(()) => at = state,
            Err(_) => return Err(NoMemory),
        }
    }
    Ok(streams)
}

/// The tables and the request streams that are made from a wish's number, each held whole. The only
/// error is that memory ran out.
pub fn make_tables(alloc: Global, wish: &Wish) -> Result<MadeInput, NoMemory>
    requires { IsWish wish.now }
    ensures { IfOk result (λ made. said made ≡ input_of wish.now) }
{
    let edges = make_edges(alloc, wish)?;
    let supervoxels = supervoxel_table(alloc, wish)?;
    let table = edge_table(alloc, wish, edges.list.as_slice())?;
    let streams = make_streams(alloc, wish, edges.state)?;
    Ok(MadeInput {
        supervoxels,
        edges: table,
        streams,
        edge_count: edges.list.len() as u32,
    })
}
