//! The changes of an entry, by the places of their pairs' edges.

ghost use Rattle.std.specs.Prelude.{◌≡◌, ◌∷◌, ◌++◌, ◌+◌, ◌<◌, ◌≤◌, ◌^◌, ◌==◌, if◌then◌else◌, List, length, map, IfOk};
ghost use Rattle.op_model.specs.declared.base.Dataset.{Dataset};
ghost use Rattle.op_model.specs.declared.base.Base.{Base};
ghost use Rattle.op_model.specs.declared.entry.Entry.{Entry};
ghost use Rattle.record_rows.specs.Rows.{EdgeRow};
ghost use Rattle.record_rows.specs.LogRows.{new_edges, rows_of};
ghost use Rattle.record_rows.specs.Readings.{Image};
ghost use Rattle.entry_rows.specs.Changes.{AreChanges};
ghost use Rattle.entry_lists.specs.Parts.{IsBehind};
ghost use Rattle.entry_lists.specs.Changing.{IsChange};

use chain_ends::changes_end;
use edge_rows::find_edge;
use entry_rows::EntryChange;
use op_model::Changed;
use pcg_base::{NoMemory, Words};
use row_append::Tail;
use row_words::Spot;
use std::alloc::Global;

/// How many records there are.
pub(crate) fn count<W: Words>(w: &W) -> u32
    requires image { (d : Dataset) × (b : Base) × (log : List Entry) × Image d b log (W.words w.now) }
    ensures is { (d : Dataset) (b : Base) (log : List Entry) → Image d b log (W.words w.now) → result ≡ length (rows_of d b log) }
    ensures few { result ≤ 16777216 }
{
    (w.len() / 8) as u32
}

// a change of a pair, with the place of its edge, and where the pair's changes end. Where no edge
// joins the pair yet, its edge is to stand at the place `next`.
fn change_at<W: Words>(w: &mut W, changed: &Changed, next: Spot) -> EntryChange
    requires image { (d : Dataset) × (b : Base) × (log : List Entry) × Image d b log (W.words w.old) }
    ensures same { w.new ≡ w.old }
    ensures changed { result.changed ≡ changed.now }
    ensures is { (d : Dataset) (b : Base) (log : List Entry) → Image d b log (W.words w.old) → IsChange d b log next result }
{
    let Some(edge) = find_edge(w, changed.pair) else {
        return EntryChange {
            changed: *changed,
            edge: next,
            last: Tail {
                spot: next,
                word: 4,
            },
        };
    };
    let last = changes_end(w, edge);
    EntryChange {
        changed: *changed,
        edge,
        last,
    }
}

// the place for the next new edge behind one more change
fn next_place(next: u32, placed: &EntryChange) -> u32
    requires { next + 1 < 2 ^ 32 }
    ensures is { result ≡ (if placed.now.edge == next then next + 1 else next) }
    ensures bound { result ≤ next + 1 }
{
    let edge = placed.edge;
    if edge.0 == next { next + 1 } else { next }
}

/// The changes of an entry behind a log and its new edges, which stand first of its records.
///
/// # Errors
///
/// `NoMemory` where there is none for the list.
pub fn list_changes<W: Words>(
    alloc: Global,
    w: &mut W,
    changed: &[Changed],
) -> Result<Vec<EntryChange>, NoMemory>
    requires few { length changed.now ≤ 16777216 }
    requires image { (d : Dataset) × (b : Base) × (log : List Entry) × Image d b log (W.words w.old) }
    ensures same { w.new ≡ w.old }
    ensures pairs { IfOk result (λ v. map (λ x. x.changed) v.items ≡ changed.now) }
    ensures changes { (d : Dataset) (b : Base) (log : List Entry) (e : Entry) → IsBehind d b log e (W.words w.old) → e.changed ≡ changed.now
        → IfOk result (λ v. AreChanges (rows_of d b log ++ map (EdgeRow e.number) (new_edges d b log e)) v.items) }
{
    let mut list = Vec::new(alloc);
    let mut next = count(w);
    for change in changed {
        let placed = change_at(w, change, Spot(next));
        next = next_place(next, &placed);
        let Ok(()) = list.push(placed) else {
            return Err(NoMemory);
        };
    }
    Ok(list)
}
