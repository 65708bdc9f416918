//! Edits: those of tables, and drawn ones.

use crate::tables::{below, pick};
use node_ids::NodeId;
use op_model::{AskedPair, AskedPairs, Edit, Ids};
use plain_history::History;
use rand_xoshiro::Xoshiro256PlusPlus;
use std::alloc::{AllocError, Global};

/// An edit as a table has it.
#[derive(Clone, Copy, Drop)]
pub enum Ask<'a> {
    /// A merge of these pairs.
    Merge(&'a [(u64, u64)]),
    /// A split of the first from the second.
    Split(u64, u64),
    /// An undo of this operation.
    Undo(u64),
    /// A redo of this operation.
    Redo(u64),
}

fn merge(alloc: Global, pairs: &[(u64, u64)]) -> Result<Edit, AllocError> {
    let mut list = Vec::new(alloc);
    for x in pairs {
        list.push(AskedPair {
            a: NodeId(x.0),
            b: NodeId(x.1),
        })?;
    }
    Ok(Edit::Merge {
        pairs: AskedPairs { list },
    })
}

fn one_id(alloc: Global, id: u64) -> Result<Ids, AllocError> {
    let mut list = Vec::new(alloc);
    list.push(NodeId(id))?;
    Ok(Ids { list })
}

fn split(alloc: Global, source: u64, sink: u64) -> Result<Edit, AllocError> {
    Ok(Edit::Split {
        sources: one_id(alloc, source)?,
        sinks: one_id(alloc, sink)?,
    })
}

/// The edit that a table has.
pub fn asked(alloc: Global, ask: Ask) -> Result<Edit, AllocError> {
    match ask {
        Ask::Merge(pairs) => merge(alloc, pairs),
        Ask::Split(source, sink) => split(alloc, source, sink),
        Ask::Undo(op) => Ok(Edit::Undo { op }),
        Ask::Redo(op) => Ok(Edit::Redo { op }),
    }
}

// a merge of up to so many pairs whose ends have different roots
fn drawn_merge(
    alloc: Global,
    numbers: &mut Xoshiro256PlusPlus,
    svs: &[NodeId],
    history: &History,
    most: usize,
) -> Result<Edit, AllocError> {
    let mut list = Vec::new(alloc);
    for _ in 0..below(numbers, most).wrapping_add(1) {
        if let Some(pair) = drawn_pair(numbers, svs) {
            if history.root(pair.a.0) != history.root(pair.b.0) {
                list.push(pair)?;
            }
        }
    }
    Ok(Edit::Merge {
        pairs: AskedPairs { list },
    })
}

fn drawn_pair(numbers: &mut Xoshiro256PlusPlus, svs: &[NodeId]) -> Option<AskedPair> {
    let a = pick(numbers, svs)?;
    let b = pick(numbers, svs)?;
    Some(AskedPair { a, b })
}

// up to two more marks of a root
fn drawn_marks(
    alloc: Global,
    numbers: &mut Xoshiro256PlusPlus,
    svs: &[NodeId],
    history: &History,
    first: NodeId,
) -> Result<Ids, AllocError> {
    let mut list = Vec::new(alloc);
    list.push(first)?;
    for _ in 0..below(numbers, 3) {
        if let Some(other) = pick(numbers, svs) {
            if history.root(other.0) == history.root(first.0) {
                list.push(other)?;
            }
        }
    }
    Ok(Ids { list })
}

// a split, mostly of marks with one root
fn drawn_split(
    alloc: Global,
    numbers: &mut Xoshiro256PlusPlus,
    svs: &[NodeId],
    history: &History,
) -> Result<Edit, AllocError> {
    let mut pair = AskedPair {
        a: NodeId(0),
        b: NodeId(0),
    };
    for _ in 0..20 {
        if let Some(found) = drawn_pair(numbers, svs) {
            pair = found;
            if pair.a != pair.b && history.root(pair.a.0) == history.root(pair.b.0) {
                break;
            }
        }
    }
    Ok(Edit::Split {
        sources: drawn_marks(alloc, numbers, svs, history, pair.a)?,
        sinks: drawn_marks(alloc, numbers, svs, history, pair.b)?,
    })
}

// the operation that the last entry undid, if it is an undo
fn last_undone(history: &History) -> Option<u64> {
    let row = history.rows.list.last()?;
    let word = row.fixed[0];
    if word % 4294967296 == 777 {
        return Some(word / 4294967296);
    }
    None
}

// an undo of an operation, or a redo of the one that was just undone
fn drawn_turn(numbers: &mut Xoshiro256PlusPlus, history: &History) -> Edit {
    if let Some(op) = last_undone(history) {
        return Edit::Redo { op };
    }
    let op = below(numbers, history.entries as usize) as u64;
    if below(numbers, 8) == 0 {
        return Edit::Redo { op };
    }
    Edit::Undo { op }
}

/// An edit of these supervoxels: four of ten are merges of up to so many pairs, three are splits,
/// three are undos and redos.
pub fn drawn_edit(
    alloc: Global,
    numbers: &mut Xoshiro256PlusPlus,
    svs: &[NodeId],
    history: &History,
    most: usize,
) -> Result<Edit, AllocError> {
    let kind = below(numbers, 10);
    if kind < 4 {
        return drawn_merge(alloc, numbers, svs, history, most);
    }
    if kind < 7 {
        return drawn_split(alloc, numbers, svs, history);
    }
    Ok(drawn_turn(numbers, history))
}
