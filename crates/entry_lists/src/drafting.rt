//! The draft of an entry from its plan and the nodes and links that it makes.

ghost use Rattle.std.specs.Prelude.{◌≡◌, ◌∷◌, ℕ, List, map, IfOk};
ghost use Rattle.op_model.specs.declared.base.Dataset.{Dataset};
ghost use Rattle.op_model.specs.declared.base.Base.{Base};
ghost use Rattle.op_model.specs.declared.base.Edge.{Edge};
ghost use Rattle.op_model.specs.declared.entry.Asked.TheVariants as asked;
ghost use Rattle.op_model.specs.declared.entry.Entry.{Entry};
ghost use Rattle.op_model.specs.Operations.{next_entry};
ghost use Rattle.record_rows.specs.Rows.{Link, Node, Row};
ghost use Rattle.record_rows.specs.LogRows.{entry_rows, marks, rows_of};
ghost use Rattle.grown_rows.specs.Drafted.{IsDrafted};
ghost use Rattle.entry_rows.specs.LogLists.{AreLogLists};
ghost use Rattle.entry_rows.specs.States.{AreItems};
ghost use Rattle.entry_lists.specs.Drafting.{IsDrafting};

use crate::changes::{count, list_changes};
use crate::edges::{EdgeLists, list_edges};
use crate::heads::entry_head;
use crate::items::{merge_items, split_items};
use crate::links::{LinkLists, list_links};
use crate::nodes::{NodeLists, list_nodes};
use entry_parts::{MadeLink, MadeNode};
use entry_rows::laws::log_lists_tell;
use entry_rows::{EntryChange, EntryHead, EntryItem, EntryLists, draft_entry};
use op_model::{Changed, Dataset, Edit, Plan};
use pcg_base::{NoMemory, Words};
use row_words::{Draft, Spot};
use std::alloc::Global;

// the ids of an edit's request with their sides
fn edit_items(alloc: Global, edit: &Edit) -> Result<Vec<EntryItem>, NoMemory>
    ensures { (n : ℕ) → IfOk result (λ v. AreItems n v.items (marks n (asked.Edit edit.now))) }
{
    match edit {
        Edit::Merge { pairs } => merge_items(alloc, &pairs.list),
        Edit::Split { sources, sinks } => split_items(alloc, &sources.list, &sinks.list),
        Edit::Undo { .. } => Ok(Vec::new(alloc)),
        Edit::Redo { .. } => Ok(Vec::new(alloc)),
    }
}

// the lists of an entry from those of its records' kinds
fn joined(
    head: EntryHead,
    edges: EdgeLists,
    nodes: NodeLists,
    links: LinkLists,
    items: Vec<EntryItem>,
    changes: Vec<EntryChange>,
    retired: Vec<Spot>,
) -> EntryLists
    ensures head { result.head ≡ head }
    ensures edges { (result.edges.items ≡ edges.edges.items) × (result.edge_ends.items ≡ edges.ends.items) }
    ensures nodes { (result.nodes.items ≡ nodes.nodes.items) × (result.node_ends.items ≡ nodes.ends.items) }
    ensures kept { (result.kept.items ≡ links.kept.items) × (result.kept_places.items ≡ links.kept_places.items) × (result.kept_ends.items ≡ links.kept_ends.items) }
    ensures links { result.links.items ≡ links.links.items }
    ensures rest { (result.items.items ≡ items.items) × (result.changes.items ≡ changes.items) × (result.retired.items ≡ retired.items) }
{
    let EdgeLists {
        edges,
        ends: edge_ends,
    } = edges;
    let NodeLists {
        nodes,
        ends: node_ends,
    } = nodes;
    let LinkLists {
        kept,
        kept_places,
        kept_ends,
        links,
    } = links;
    EntryLists {
        head,
        edges,
        edge_ends,
        nodes,
        node_ends,
        kept,
        kept_places,
        kept_ends,
        links,
        items,
        changes,
        retired,
    }
}

// the lists of the entry that an edit makes behind a log
fn lists_of<W: Words>(
    alloc: Global,
    w: &mut W,
    dataset: &Dataset,
    edit: &Edit,
    changed: &[Changed],
    client: u32,
    line: u32,
    at: u64,
    nodes: &[MadeNode],
    links: &[MadeLink],
    retired: Vec<Spot>,
) -> Result<EntryLists, NoMemory>
    requires drafting { (b : Base) × (log : List Entry) × IsDrafting dataset.now b log edit.now changed.now client line at nodes.now links.now retired.items (W.words w.old) }
    ensures same { w.new ≡ w.old }
    ensures listed { (b : Base) (log : List Entry) → IsDrafting dataset.now b log edit.now changed.now client line at nodes.now links.now retired.items (W.words w.old)
        → IfOk result (AreLogLists dataset.now b log (next_entry dataset.now b log client line at edit.now)) }
{
    let head = entry_head(w, edit, client, line, at);
    let edge_lists = list_edges(alloc, w, dataset.merge_affinity, changed)?;
    let node_lists = list_nodes(alloc, w, nodes)?;
    let link_lists = list_links(alloc, w, nodes, links)?;
    let items = edit_items(alloc, edit)?;
    let changes = list_changes(alloc, w, changed)?;
    Ok(joined(
        head, edge_lists, node_lists, link_lists, items, changes, retired,
    ))
}

// the draft of the entry that an edit makes behind a log
fn edit_draft<W: Words>(
    alloc: Global,
    w: &mut W,
    dataset: &Dataset,
    edit: &Edit,
    changed: &[Changed],
    client: u32,
    line: u32,
    at: u64,
    nodes: &[MadeNode],
    links: &[MadeLink],
    retired: Vec<Spot>,
) -> Result<Draft, NoMemory>
    requires drafting { (b : Base) × (log : List Entry) × IsDrafting dataset.now b log edit.now changed.now client line at nodes.now links.now retired.items (W.words w.old) }
    ensures same { w.new ≡ w.old }
    ensures drafted { (b : Base) (log : List Entry) → IsDrafting dataset.now b log edit.now changed.now client line at nodes.now links.now retired.items (W.words w.old)
        → IfOk result (IsDrafted (rows_of dataset.now b log) (entry_rows dataset.now b log (next_entry dataset.now b log client line at edit.now))) }
{
    let lists = lists_of(
        alloc, w, dataset, edit, changed, client, line, at, nodes, links, retired,
    )?;
    let tail = count(w);
    log_lists_tell();
    let draft = draft_entry(alloc, tail, &lists)?;
    Ok(draft)
}

/// The draft of the entry that a plan makes behind a log for a client's line at a time, from the
/// nodes and links that it makes and the places of the nodes that it retires: with the draft the
/// words of the log become those of the log with the entry in front. The plan must be one that the
/// log allows, and there must be room for the entry's records.
///
/// Each changed pair, and each chunk and child that stands, costs a search in the log's records or a
/// walk along one chain of them. All else takes time n log n in the lists.
///
/// # Errors
///
/// `NoMemory` where there is none for the lists or the draft.
pub fn draft_of_lists<W: Words>(
    alloc: Global,
    w: &mut W,
    dataset: &Dataset,
    plan: &Plan,
    client: u32,
    line: u32,
    at: u64,
    nodes: &[MadeNode],
    links: &[MadeLink],
    retired: Vec<Spot>,
) -> Result<Draft, NoMemory>
    requires drafting { (b : Base) × (log : List Entry) × IsDrafting dataset.now b log plan.now.edit plan.now.changed client line at nodes.now links.now retired.items (W.words w.old) }
    ensures same { w.new ≡ w.old }
    ensures drafted { (b : Base) (log : List Entry) → IsDrafting dataset.now b log plan.now.edit plan.now.changed client line at nodes.now links.now retired.items (W.words w.old)
        → IfOk result (IsDrafted (rows_of dataset.now b log) (entry_rows dataset.now b log (next_entry dataset.now b log client line at plan.now.edit))) }
{
    edit_draft(
        alloc,
        w,
        dataset,
        &plan.edit,
        &plan.changed.list,
        client,
        line,
        at,
        nodes,
        links,
        retired,
    )
}
