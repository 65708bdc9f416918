//! The worked bases, and edits as the tests write them.

use bench_servers::{Server, dataset};
use node_ids::NodeId;
use op_model::{AskedPair, AskedPairs, Edit, Ids};
use std::alloc::{AllocError, Global};
use std::fmt::Write;
use std::test::Fail;
use table_ingest::read_base;

pub const P: u64 = 72057594037927937;

pub const Q: u64 = 72057594037927938;

pub const R: u64 = 72339069014638593;

pub const S: u64 = 72339069014638594;

/// The id of a root of the base of p, q, r and s, less its number.
pub const TOP: u64 = 216172782113783808;

/// The node that is no root yet, behind all that the tests make.
pub const NONE: u64 = 216172782113783899;

/// p and q in one base chunk, r and s in the next one.
pub const SUPERVOXELS: &str =
    "supervoxel\n72057594037927937\n72057594037927938\n72339069014638593\n72339069014638594\n";

/// Edges that join p, q and r, and one that doesn't join s to them.
pub const EDGES: &str =
    "a,b,affinity,active\n72057594037927937,72057594037927938,10,1\n72057594037927938,72339069014638593,7,1\n72339069014638593,72339069014638594,5,0\n";

/// The same with glue between p and q.
pub const GLUED: &str =
    "a,b,affinity,active\n72057594037927937,72057594037927938,glue,1\n72057594037927938,72339069014638593,7,1\n72339069014638593,72339069014638594,5,0\n";

/// The server of a base that two texts spell; its ingest is of 1,000 milliseconds.
pub fn server_of(
    alloc: Global,
    bits: u8,
    width: u32,
    supervoxels: &str,
    edges: &str,
) -> Result<Option<Server>, Fail> {
    let Some(dataset) = dataset(bits, (width, 1, 1), 1048576) else {
        return Ok(None);
    };
    let base = read_base(alloc, supervoxels.as_bytes(), edges.as_bytes(), &dataset)?;
    let server = Server::new(alloc, &base, dataset, 1000)?;
    Ok(Some(server))
}

/// The table of the supervoxels p, p + 1 and so on, so many.
pub fn table_of(alloc: Global, count: u64) -> Result<String, Fail> {
    let mut text = String::from_str(alloc, "supervoxel\n")?;
    for number in 0..count {
        writeln!(text, "{}", P.wrapping_add(number))?;
    }
    Ok(text)
}

/// The table of the edges between neighbours of them, each of the affinity 5.
pub fn walk_of(alloc: Global, count: u64) -> Result<String, Fail> {
    let mut text = String::from_str(alloc, "a,b,affinity,active\n")?;
    for number in 1..count {
        let a = P.wrapping_add(number).wrapping_sub(1);
        writeln!(text, "{a},{},5,1", P.wrapping_add(number))?;
    }
    Ok(text)
}

/// The table of the edges between any two of them, each of the affinity 1.
pub fn clique_of(alloc: Global, count: u64) -> Result<String, Fail> {
    let mut text = String::from_str(alloc, "a,b,affinity,active\n")?;
    for number in 1..count {
        let b = P.wrapping_add(number);
        for other in 0..number {
            writeln!(text, "{},{b},1,1", P.wrapping_add(other))?;
        }
    }
    Ok(text)
}

fn ids_of(alloc: Global, ids: &[u64]) -> Result<Ids, AllocError> {
    let mut list = Vec::new(alloc);
    for id in ids {
        list.push(NodeId(*id))?;
    }
    Ok(Ids { list })
}

/// A merge of these pairs.
pub fn merge(alloc: Global, pairs: &[(u64, u64)]) -> Result<Edit, AllocError> {
    let mut list = Vec::new(alloc);
    for pair in pairs {
        list.push(AskedPair {
            a: NodeId(pair.0),
            b: NodeId(pair.1),
        })?;
    }
    Ok(Edit::Merge {
        pairs: AskedPairs { list },
    })
}

/// A split between these marks.
pub fn split(alloc: Global, sources: &[u64], sinks: &[u64]) -> Result<Edit, AllocError> {
    let sources = ids_of(alloc, sources)?;
    let sinks = ids_of(alloc, sinks)?;
    Ok(Edit::Split { sources, sinks })
}

/// An undo of an operation.
pub fn undo(op: u64) -> Edit {
    Edit::Undo { op }
}

/// A redo of an operation.
pub fn redo(op: u64) -> Edit {
    Edit::Redo { op }
}
