//! The edges, nodes and links of an entry, from its lists.

ghost use Rattle.std.specs.Prelude.{◌≡◌, ℕ, List, [], ◌∷◌, ◌++◌, ◌<◌, ◌≤◌, ◌+◌, ◌*◌, ◌^◌, length, map, OnOk};
ghost use Rattle.record_rows.specs.Rows.{Row, EdgeRow, LinkRow, NodeRow, Node};
ghost use Rattle.base_rows.specs.BaseRows.{ids_of};
ghost use Rattle.grown_rows.specs.Growths.{IsGrowth};
ghost use Rattle.entry_rows.specs.Listed.{EdgesListed, LinksListed, NodesListed};
ghost use Rattle.entry_rows.specs.States.{link_by};

use crate::edges::put_edges;
use crate::links::put_links;
use crate::lists::EntryLists;
use crate::nodes::put_nodes;
use crate::owners::{own_places, own_tails, same_tails, with_ids, with_places, with_tails};
use grown_rows::Growth;
use pcg_base::NoMemory;
use std::alloc::Global;

/// Puts the edges of an entry behind the records that stand.
///
/// # Errors
///
/// `NoMemory` where there is none for the records.
pub(crate) fn add_edges(
    alloc: Global,
    growth: &mut Growth,
    lists: &EntryLists,
) -> Result<(), NoMemory>
    requires places { 8 * growth.old.tail + length growth.old.more + 8 * length lists.now.edges.items ≤ 8 * 2 ^ 32 }
    requires listed { (old : List Row) × IsGrowth old [] growth.old × EdgesListed old lists.now }
    ensures pushed { (old : List Row) → IsGrowth old [] growth.old → EdgesListed old lists.now
        → OnOk result (IsGrowth old (map (λ x. EdgeRow lists.now.head.number x.edge) lists.now.edges.items) growth.new) }
    ensures length { OnOk result (length growth.new.more ≡ length growth.old.more + 8 * length lists.now.edges.items) }
    ensures tail { growth.new.tail ≡ growth.old.tail }
{
    let mut tails = same_tails(alloc, &lists.edge_ends)?;
    put_edges(growth, &mut tails, &lists.edges, lists.head.number)?;
    Ok(())
}

/// Puts the nodes of an entry behind the other records.
///
/// # Errors
///
/// `NoMemory` where there is none for the records.
pub(crate) fn add_nodes(
    alloc: Global,
    growth: &mut Growth,
    lists: &EntryLists,
) -> Result<(), NoMemory>
    requires places { 8 * growth.old.tail + length growth.old.more + 8 * length lists.now.nodes.items ≤ 8 * 2 ^ 32 }
    requires listed { (old : List Row) × (more : List Row) × (ns : List Node) × IsGrowth old more growth.old × NodesListed lists.now.head.number (old ++ more) lists.now ns }
    ensures pushed { (old more : List Row) (ns : List Node) → IsGrowth old more growth.old → NodesListed lists.now.head.number (old ++ more) lists.now ns
        → OnOk result (IsGrowth old (more ++ map NodeRow ns) growth.new) }
    ensures length { OnOk result (length growth.new.more ≡ length growth.old.more + 8 * length lists.now.nodes.items) }
    ensures tail { growth.new.tail ≡ growth.old.tail }
{
    let mut tails = same_tails(alloc, &lists.node_ends)?;
    put_nodes(growth, &mut tails, &lists.nodes, lists.head.number)?;
    Ok(())
}

/// Puts the links of an entry behind its nodes, the first of which stands at the place `first`.
///
/// # Errors
///
/// `NoMemory` where there is none for the records.
pub(crate) fn add_links(
    alloc: Global,
    growth: &mut Growth,
    lists: &EntryLists,
    first: u32,
) -> Result<(), NoMemory>
    requires places { 8 * growth.old.tail + length growth.old.more + 8 * length lists.now.links.items ≤ 8 * 2 ^ 32 }
    requires nodes { first + length lists.now.nodes.items < 2 ^ 32 }
    requires listed { (old : List Row) × (more : List Row) × (ns : List Node) × IsGrowth old (more ++ map NodeRow ns) growth.old × LinksListed (old ++ more) lists.now ns × (first ≡ length (old ++ more)) }
    ensures pushed { (old more : List Row) (ns : List Node) → IsGrowth old (more ++ map NodeRow ns) growth.old → LinksListed (old ++ more) lists.now ns → first ≡ length (old ++ more)
        → OnOk result (IsGrowth old ((more ++ map NodeRow ns) ++ map (λ x. LinkRow (link_by lists.now.head.number (lists.now.kept.items ++ ids_of ns) (ids_of ns) x)) lists.now.links.items) growth.new) }
    ensures length { OnOk result (length growth.new.more ≡ length growth.old.more + 8 * length lists.now.links.items) }
    ensures tail { growth.new.tail ≡ growth.old.tail }
{
    let count = lists.nodes.len() as u32;
    let children = with_ids(alloc, &lists.kept, &lists.nodes)?;
    let child_places = with_places(alloc, &lists.kept_places, first, count)?;
    let parent_places = own_places(alloc, first, count)?;
    let mut ends = own_tails(alloc, first, count, 4)?;
    let mut versions = with_tails(alloc, &lists.kept_ends, first, count, 5)?;
    put_links(
        growth,
        &mut ends,
        &mut versions,
        &children,
        &child_places,
        &parent_places,
        &lists.links,
        lists.head.number,
    )?;
    Ok(())
}
