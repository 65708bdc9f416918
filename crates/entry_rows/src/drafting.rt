//! The draft of one more entry.

ghost use Rattle.std.specs.Prelude.{◌≡◌, ℕ, List, [], ◌∷◌, ◌++◌, ◌<◌, ◌≤◌, ◌+◌, ◌*◌, ◌^◌, length, map, OnOk, IfOk};
ghost use Rattle.op_model.specs.declared.base.Dataset.{Dataset};
ghost use Rattle.op_model.specs.declared.base.Base.{Base};
ghost use Rattle.op_model.specs.declared.base.Edge.{Edge};
ghost use Rattle.op_model.specs.declared.entry.Entry.{Entry};
ghost use Rattle.record_rows.specs.Rows.{Row, ChangeRow, EntryRow, ItemRow, Item, Link, Node};
ghost use Rattle.record_rows.specs.LogRows.{entry_rows, marks, new_edges, new_links, new_nodes, rows_of};
ghost use Rattle.grown_rows.specs.Drafted.{IsDrafted};
ghost use Rattle.grown_rows.specs.Entries.{IsNewEntry};
ghost use Rattle.grown_rows.specs.Growths.{IsGrowth};
ghost use Rattle.entry_rows.specs.Listed.{IsHead, IsListed, RestListed, made_rows};

use crate::changes::put_changes;
use crate::items::put_items;
use crate::lists::{EntryHead, EntryLists};
use crate::putting::{add_edges, add_links, add_nodes};
use grown_rows::{Growth, NewEntry, begin, draft_of, push_entry};
use pcg_base::NoMemory;
use row_words::{Draft, Spot};
use std::alloc::Global;

// what the entry's record tells, with the places of its first item and its first change
fn new_entry(head: &EntryHead, items: Spot, changes: Spot) -> NewEntry
    ensures told { (e : Entry) → IsHead e head.now → IsNewEntry e result }
    ensures items { result.items ≡ items }
    ensures changes { result.changes ≡ changes }
    ensures before { result.before ≡ head.now.before }
{
    NewEntry {
        kind: head.kind,
        names: head.names,
        at: head.at,
        client: head.client,
        line: head.line,
        number: head.number,
        items,
        changes,
        before: head.before,
    }
}

// the place of the first of so many records, 0 where there is none
fn first_of(count: usize, place: Spot) -> Spot
    ensures none { count ≡ 0 → result ≡ 0 }
    ensures some { 0 < count → result ≡ place }
{
    if count == 0 { Spot(0) } else { place }
}

// puts the items and changes of an entry and its own record behind its links
fn add_entry(growth: &mut Growth, lists: &EntryLists) -> Result<(), NoMemory>
    requires places { 8 * growth.old.tail + length growth.old.more + 8 * (length lists.now.items.items + length lists.now.changes.items + 1) ≤ 8 * 2 ^ 32 }
    requires listed { (old : List Row) × (more : List Row) × (e : Entry) × (is : List Item) × IsGrowth old more growth.old × RestListed (old ++ more) e is lists.now }
    ensures pushed { (old more : List Row) (e : Entry) (is : List Item) → IsGrowth old more growth.old → RestListed (old ++ more) e is lists.now
        → OnOk result (IsGrowth old (((more ++ map ItemRow is) ++ map (ChangeRow e.number) e.changed) ++ EntryRow e ∷ []) growth.new) }
    ensures length { OnOk result (length growth.new.more ≡ length growth.old.more + 8 * (length lists.now.items.items + length lists.now.changes.items + 1)) }
    ensures tail { growth.new.tail ≡ growth.old.tail }
{
    let items = growth.next_place();
    put_items(growth, &lists.items)?;
    let changes = growth.next_place();
    put_changes(growth, lists.head.number, &lists.changes)?;
    let first_item = first_of(lists.items.len(), items);
    let first_change = first_of(lists.changes.len(), changes);
    let entry = new_entry(&lists.head, first_item, first_change);
    push_entry(growth, entry, &lists.retired)?;
    Ok(())
}

/// The draft of one more entry behind so many records: with it the words of a log are those of the
/// log with the entry in front.
///
/// Time is linear in the lists.
///
/// # Errors
///
/// `NoMemory` where there is none for the draft.
pub fn draft_entry(alloc: Global, tail: u32, lists: &EntryLists) -> Result<Draft, NoMemory>
    requires places { tail + (length lists.now.edges.items + length lists.now.nodes.items + length lists.now.links.items + length lists.now.items.items + length lists.now.changes.items + 1) ≤ 2 ^ 31 }
    requires listed { (old : List Row) × (e : Entry) × (es : List Edge) × (ns : List Node) × (ls : List Link) × (is : List Item) × (tail ≡ length old) × IsListed old e es ns ls is lists.now }
    ensures drafted { (old : List Row) (e : Entry) (es : List Edge) (ns : List Node) (ls : List Link) (is : List Item) → tail ≡ length old → IsListed old e es ns ls is lists.now
        → IfOk result (IsDrafted old (made_rows e es ns ls is)) }
    ensures entry { (d : Dataset) (b : Base) (log : List Entry) (e : Entry) → tail ≡ length (rows_of d b log)
        → IsListed (rows_of d b log) e (new_edges d b log e) (new_nodes d b (e ∷ log) e.number) (new_links d b (e ∷ log) e.number) (marks e.number e.asked) lists.now
        → IfOk result (IsDrafted (rows_of d b log) (entry_rows d b log e)) }
{
    let mut growth = begin(alloc, tail);
    add_edges(alloc, &mut growth, lists)?;
    add_nodes(alloc, &mut growth, lists)?;
    let first = tail + lists.edges.len() as u32;
    add_links(alloc, &mut growth, lists, first)?;
    add_entry(&mut growth, lists)?;
    let draft = draft_of(alloc, &growth)?;
    Ok(draft)
}
