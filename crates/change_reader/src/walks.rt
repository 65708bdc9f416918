//! The walk back from a root.

ghost use Rattle.std.specs.Prelude.{◌≡◌, ◌∷◌, [], ◌++◌, ◌<◌, List, length, map, IfOk, OnOk};
ghost use Rattle.op_model.specs.declared.base.Dataset.{Dataset};
ghost use Rattle.op_model.specs.declared.base.Base.{Base};
ghost use Rattle.op_model.specs.declared.entry.Entry.{Entry};
ghost use Rattle.op_model.specs.Answers.{ancestors, changes, summary};
ghost use Rattle.op_model.specs.Transcript.{log_at};
ghost use Rattle.record_rows.specs.Readings.{ForSomeLog, Image, ParentImage};
ghost use Rattle.log_rows.specs.Entries.{ForEntry};
ghost use Rattle.change_laws.specs.Visits.{visits};
ghost use Rattle.change_reader.specs.Walks.{IsMadeRoot};

use crate::makers::own_entries;
use crate::steps::go_back;
use log_rows::head;
use node_ids::NodeId;
use node_reader::put;
use op_model::{Summaries, Summary};
use pcg_base::{NoMemory, Words};
use std::alloc::Global;

/// The entries of a prefix that made or retired a root or one of its ancestors, ascending, each once.
/// One of the prefix's entries must have made the root.
///
/// # Errors
///
/// `NoMemory` where a list can't be had: that of the answer, of the roots that were met, or of the
/// entries that wait.
pub fn changes<W: Words>(
    alloc: Global,
    w: &mut W,
    root: NodeId,
    prefix: u32,
) -> Result<Summaries, NoMemory>
    requires root { (d : Dataset) × (b : Base) × (log : List Entry) × Image d b log (W.words w.old) × IsMadeRoot d b log (W.words w.old) root prefix }
    ensures same { w.new ≡ w.old }
    ensures is { (d : Dataset) (b : Base) (log : List Entry) → Image d b log (W.words w.old) → IsMadeRoot d b log (W.words w.old) root prefix → IfOk result (λ ops. ops ≡ changes d b (log_at d b log prefix) (ancestors d b (log_at d b log prefix) (root ∷ []))) }
{
    let mut list = visited(alloc, w, root, prefix)?;
    list.reverse();
    Ok(Summaries { list })
}

/// The same entries, the newest first.
fn visited<W: Words>(
    alloc: Global,
    w: &mut W,
    root: NodeId,
    prefix: u32,
) -> Result<Vec<Summary>, NoMemory>
    requires root { (d : Dataset) × (b : Base) × (log : List Entry) × Image d b log (W.words w.old) × IsMadeRoot d b log (W.words w.old) root prefix }
    ensures same { w.new ≡ w.old }
    ensures is { (d : Dataset) (b : Base) (log : List Entry) → Image d b log (W.words w.old) → IsMadeRoot d b log (W.words w.old) root prefix → IfOk result (λ v. v.items ≡ map summary (visits d b (log_at d b log prefix) (root ∷ []))) }
{
    let mut waiting = own_entries(alloc, w, root, prefix)?;
    let mut roots = Vec::new(alloc);
    put(&mut roots, root)?;
    let mut list = Vec::new(alloc);
    while let Some(n) = waiting.pop() {
        add(w, &mut list, n)?;
        go_back(alloc, w, &mut waiting, &mut roots, n)?;
    }
    Ok(list)
}

/// Puts entry `n` behind the others of a list of changes.
fn add<W: Words>(w: &mut W, list: &mut Vec<Summary>, n: u32) -> Result<(), NoMemory>
    requires entry { ForSomeLog ParentImage (W.words w.old) (λ d b log. n < length log) }
    ensures same { w.new ≡ w.old }
    ensures is { ForEntry ParentImage (W.words w.old) n (λ d b log e. OnOk result (list.new.items ≡ list.old.items ++ summary e ∷ [])) }
{
    let summary = summary_of(w, n);
    match list.push(summary) {
        Ok(()) => Ok(()),
        Err(_) => Err(NoMemory),
    }
}

/// Entry `n`, of which there must be one, as a list of changes shows it.
fn summary_of<W: Words>(w: &mut W, n: u32) -> Summary
    requires entry { ForSomeLog ParentImage (W.words w.old) (λ d b log. n < length log) }
    ensures same { w.new ≡ w.old }
    ensures is { ForEntry ParentImage (W.words w.old) n (λ d b log e. result ≡ summary e) }
{
    let told = head(w, n);
    Summary {
        op: n,
        at: told.at,
        kind: told.kind,
    }
}
