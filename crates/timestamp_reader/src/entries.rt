//! Whole entries of the log.

ghost use Rattle.std.specs.Prelude.{◌≡◌, ◌<◌, List, IfOk, length};
ghost use Rattle.op_model.specs.declared.base.Dataset.{Dataset};
ghost use Rattle.op_model.specs.declared.base.Base.{Base};
ghost use Rattle.op_model.specs.declared.entry.Entry.{Entry};
ghost use Rattle.record_rows.specs.Readings.{ForSomeLog, Image};
ghost use Rattle.log_rows.specs.Entries.{ForEntry, ForEntryAt, InEntry};
ghost use Rattle.change_reader.specs.Walks.{IsChangedBy};

use crate::first_roots::first_roots;
use log_rows::{all_changed_at, asked_at, entry_spot, head_at, number};
use node_reader::roots_of;
use op_model::{ChangedPairs, Entry, Ids};
use pcg_base::{NoMemory, Words};
use row_words::Spot;
use std::alloc::Global;

/// The entry with this number, which must be below how many the log has. What it retired and made
/// isn't stored: it is the roots of its changed pairs' ends before it and after it, and all roots of
/// the base for the ingest.
///
/// # Errors
///
/// `NoMemory` where there is none for the entry's lists.
pub fn entry<W: Words>(alloc: Global, w: &mut W, n: u32) -> Result<Entry, NoMemory>
    requires entry { ForSomeLog Image (W.words w.old) (λ d b log. n < length log) }
    ensures same { w.new ≡ w.old }
    ensures is { ForEntry Image (W.words w.old) n (λ d b log e. IfOk result (λ x. x ≡ e)) }
{
    let spot = entry_spot(w, n);
    entry_at_spot(alloc, w, spot)
}

/// The entry whose record stands there. A walk by [`log_rows::next_entry`] reads the whole log so,
/// and looks for no entry.
///
/// # Errors
///
/// `NoMemory` where there is none for the entry's lists.
pub fn entry_at_spot<W: Words>(alloc: Global, w: &mut W, spot: Spot) -> Result<Entry, NoMemory>
    requires entry { InEntry (W.words w.old) spot }
    ensures same { w.new ≡ w.old }
    ensures is { ForEntryAt Image (W.words w.old) spot (λ d b log e. IfOk result (λ x. x ≡ e)) }
{
    let n = number(w, spot);
    let head = head_at(w, spot);
    let asked = asked_at(alloc, w, spot)?;
    let changed = all_changed_at(alloc, w, spot)?;
    let retired = retired_by(alloc, w, &changed, n)?;
    let made = made_by(alloc, w, &changed, n)?;
    Ok(Entry {
        number: n,
        client: head.client,
        line: head.line,
        at: head.at,
        asked,
        changed,
        retired,
        made,
    })
}

/// The roots that this entry retired: those of its changed pairs' ends before it, and none of the
/// ingest.
fn retired_by<W: Words>(
    alloc: Global,
    w: &mut W,
    changed: &ChangedPairs,
    n: u32,
) -> Result<Ids, NoMemory>
    requires entry { (d : Dataset) × (b : Base) × (log : List Entry) × (e : Entry) × IsChangedBy d b log (W.words w.old) n e changed.now }
    ensures same { w.new ≡ w.old }
    ensures is { (d : Dataset) (b : Base) (log : List Entry) (e : Entry) → IsChangedBy d b log (W.words w.old) n e changed.now → IfOk result (λ ids. ids ≡ e.retired) }
{
    if n == 0 {
        Ok(Ids {
            list: Vec::new(alloc),
        })
    } else {
        roots_of(alloc, w, changed, n)
    }
}

/// The roots that this entry made: those of its changed pairs' ends after it, and all roots of the
/// base for the ingest.
fn made_by<W: Words>(
    alloc: Global,
    w: &mut W,
    changed: &ChangedPairs,
    n: u32,
) -> Result<Ids, NoMemory>
    requires entry { (d : Dataset) × (b : Base) × (log : List Entry) × (e : Entry) × IsChangedBy d b log (W.words w.old) n e changed.now }
    ensures same { w.new ≡ w.old }
    ensures is { (d : Dataset) (b : Base) (log : List Entry) (e : Entry) → IsChangedBy d b log (W.words w.old) n e changed.now → IfOk result (λ ids. ids ≡ e.made) }
{
    if n == 0 {
        first_roots(alloc, w)
    } else {
        roots_of(alloc, w, changed, n + 1)
    }
}
