//! The children of new nodes: those that stand already, and the new nodes behind them.

ghost use Rattle.std.specs.Prelude.{◌≡◌, ◌<◌, ◌≤◌, ◌+◌, ◌^◌, ◌++◌, [], length, map, OnOk, IfOk};
ghost use Rattle.base_rows.specs.States.{tails_from};
ghost use Rattle.entry_rows.specs.Listed.{places_from};

use base_rows::BaseNode;
use node_ids::NodeId;
use pcg_base::NoMemory;
use row_append::Tail;
use row_words::Spot;
use std::alloc::Global;

// the same pointers
pub(crate) fn same_tails(alloc: Global, tails: &[Tail]) -> Result<Vec<Tail>, NoMemory>
    ensures { IfOk result (λ v. v.items ≡ tails.now) }
{
    let mut list = Vec::new(alloc);
    let Ok(()) = list.extend_from_slice(tails) else {
        return Err(NoMemory);
    };
    Ok(list)
}

// the same places
fn same_places(alloc: Global, places: &[Spot]) -> Result<Vec<Spot>, NoMemory>
    ensures { IfOk result (λ v. v.items ≡ places.now) }
{
    let mut list = Vec::new(alloc);
    let Ok(()) = list.extend_from_slice(places) else {
        return Err(NoMemory);
    };
    Ok(list)
}

// the same ids
fn same_ids(alloc: Global, ids: &[NodeId]) -> Result<Vec<NodeId>, NoMemory>
    ensures { IfOk result (λ v. v.items ≡ ids.now) }
{
    let mut list = Vec::new(alloc);
    let Ok(()) = list.extend_from_slice(ids) else {
        return Err(NoMemory);
    };
    Ok(list)
}

// puts the pointer of this number of each of so many records behind a list; the first record stands
// at the place `from`
fn put_tails(list: &mut Vec<Tail>, from: u32, count: u32, word: u8) -> Result<(), NoMemory>
    requires places { from + count < 2 ^ 32 }
    ensures { OnOk result (list.new.items ≡ list.old.items ++ tails_from from word count) }
{
    for k in 0..count {
        let tail = Tail {
            spot: Spot(from + k),
            word,
        };
        let Ok(()) = list.push(tail) else {
            return Err(NoMemory);
        };
    }
    Ok(())
}

// puts so many places behind a list, one after the other
fn put_places(list: &mut Vec<Spot>, from: u32, count: u32) -> Result<(), NoMemory>
    requires places { from + count < 2 ^ 32 }
    ensures { OnOk result (list.new.items ≡ list.old.items ++ places_from from count) }
{
    for k in 0..count {
        let Ok(()) = list.push(Spot(from + k)) else {
            return Err(NoMemory);
        };
    }
    Ok(())
}

// puts the ids of nodes behind a list
fn put_ids(list: &mut Vec<NodeId>, nodes: &[BaseNode]) -> Result<(), NoMemory>
    ensures { OnOk result (list.new.items ≡ list.old.items ++ map (λ n. n.id) nodes.now) }
{
    for node in nodes {
        let Ok(()) = list.push(node.id) else {
            return Err(NoMemory);
        };
    }
    Ok(())
}

/// These pointers, and behind them the pointer of this number of each of so many records; the first
/// record stands at the place `from`.
///
/// # Errors
///
/// `NoMemory` where there is none for the list.
pub(crate) fn with_tails(
    alloc: Global,
    tails: &[Tail],
    from: u32,
    count: u32,
    word: u8,
) -> Result<Vec<Tail>, NoMemory>
    requires places { from + count < 2 ^ 32 }
    ensures { IfOk result (λ v. v.items ≡ tails.now ++ tails_from from word count) }
{
    let mut list = same_tails(alloc, tails)?;
    put_tails(&mut list, from, count, word)?;
    Ok(list)
}

/// The pointer of this number of each of so many records.
///
/// # Errors
///
/// `NoMemory` where there is none for the list.
pub(crate) fn own_tails(
    alloc: Global,
    from: u32,
    count: u32,
    word: u8,
) -> Result<Vec<Tail>, NoMemory>
    requires places { from + count < 2 ^ 32 }
    ensures { IfOk result (λ v. v.items ≡ tails_from from word count) }
{
    let mut list = Vec::new(alloc);
    put_tails(&mut list, from, count, word)?;
    Ok(list)
}

/// These places, and so many behind them, one after the other.
///
/// # Errors
///
/// `NoMemory` where there is none for the list.
pub(crate) fn with_places(
    alloc: Global,
    places: &[Spot],
    from: u32,
    count: u32,
) -> Result<Vec<Spot>, NoMemory>
    requires places { from + count < 2 ^ 32 }
    ensures { IfOk result (λ v. v.items ≡ places.now ++ places_from from count) }
{
    let mut list = same_places(alloc, places)?;
    put_places(&mut list, from, count)?;
    Ok(list)
}

/// So many places, one after the other.
///
/// # Errors
///
/// `NoMemory` where there is none for the list.
pub(crate) fn own_places(alloc: Global, from: u32, count: u32) -> Result<Vec<Spot>, NoMemory>
    requires places { from + count < 2 ^ 32 }
    ensures { IfOk result (λ v. v.items ≡ places_from from count) }
{
    let mut list = Vec::new(alloc);
    put_places(&mut list, from, count)?;
    Ok(list)
}

/// These ids, and those of nodes behind them.
///
/// # Errors
///
/// `NoMemory` where there is none for the list.
pub(crate) fn with_ids(
    alloc: Global,
    ids: &[NodeId],
    nodes: &[BaseNode],
) -> Result<Vec<NodeId>, NoMemory>
    ensures { IfOk result (λ v. v.items ≡ ids.now ++ map (λ n. n.id) nodes.now) }
{
    let mut list = same_ids(alloc, ids)?;
    put_ids(&mut list, nodes)?;
    Ok(list)
}
