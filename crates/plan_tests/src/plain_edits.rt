//! What a plain program says of an edit: its first refusal, its locks and what it changes.

use crate::plain_cuts::{glued, least_cut};
use crate::plain_logs::{Log, Step, is_active};
use crate::plain_members::all_of;
use node_ids::NodeId;
use op_model::pairs::pair_between;
use op_model::{AskedPair, AskedPairs, Changed, Edit, Ids, Kind, Pair, Refusal};
use std::alloc::{AllocError, Global};

/// An edit as it is drawn.
#[derive(Drop)]
pub struct Asked {
    /// A merge, a split, an undo or a redo.
    pub kind: Kind,
    pub pairs: Vec<AskedPair>,
    pub sources: Vec<NodeId>,
    pub sinks: Vec<NodeId>,
    pub op: u64,
}

/// What an edit that isn't refused changes, and what its cut weighs.
#[derive(Drop)]
pub struct Change {
    pub changed: Vec<Changed>,
    pub total: u64,
}

/// The edit itself.
pub fn edit_of(alloc: Global, asked: &Asked) -> Result<Edit, AllocError> {
    match asked.kind {
        Kind::Split => {
            let sources = asked.sources.as_slice().to_vec(alloc)?;
            let sinks = asked.sinks.as_slice().to_vec(alloc)?;
            Ok(Edit::Split {
                sources: Ids { list: sources },
                sinks: Ids { list: sinks },
            })
        }
        Kind::Undo => Ok(Edit::Undo { op: asked.op }),
        Kind::Redo => Ok(Edit::Redo { op: asked.op }),
        _ => {
            let list = asked.pairs.as_slice().to_vec(alloc)?;
            Ok(Edit::Merge {
                pairs: AskedPairs { list },
            })
        }
    }
}

/// The refusal of the first id that is no supervoxel.
fn unknown_in(log: &Log, ids: &[NodeId]) -> Option<Refusal> {
    for id in ids {
        if !log.ids.contains(id) {
            return Some(Refusal::NoSuchSupervoxel { id: *id });
        }
    }
    None
}

fn merge_refusal(log: &Log, pairs: &[AskedPair]) -> Option<Refusal> {
    for pair in pairs {
        if let Some(refusal) = unknown_in(log, &[pair.a, pair.b]) {
            return Some(refusal);
        }
    }
    if pairs.is_empty() {
        return Some(Refusal::NoPairs);
    }
    if pairs.len() > 64 {
        return Some(Refusal::TooManyPairs {
            count: pairs.len() as u64,
        });
    }
    for pair in pairs {
        let root = log.root(pair.a)?;
        if log.root(pair.b) == Some(root) {
            return Some(Refusal::SameRoot { root });
        }
    }
    None
}

/// The refusal of lists of known marks, whatever their roots.
fn list_refusal(sources: &[NodeId], sinks: &[NodeId]) -> Option<Refusal> {
    if sources.is_empty() || sinks.is_empty() {
        return Some(Refusal::NoMarks);
    }
    if sources.len() > 64 {
        return Some(Refusal::TooManyMarks {
            count: sources.len() as u64,
        });
    }
    if sinks.len() > 64 {
        return Some(Refusal::TooManyMarks {
            count: sinks.len() as u64,
        });
    }
    for source in sources {
        if sinks.contains(source) {
            return Some(Refusal::BothSides { id: *source });
        }
    }
    None
}

/// The refusal of the first mark that has another root than the first one.
fn root_refusal(log: &Log, first: NodeId, marks: &[NodeId]) -> Option<Refusal> {
    for mark in marks {
        let other = log.root(*mark)?;
        if other != first {
            return Some(Refusal::DifferentRoots { first, other });
        }
    }
    None
}

fn split_refusal(log: &Log, sources: &[NodeId], sinks: &[NodeId]) -> Option<Refusal> {
    if let Some(refusal) = unknown_in(log, sources) {
        return Some(refusal);
    }
    if let Some(refusal) = unknown_in(log, sinks) {
        return Some(refusal);
    }
    if let Some(refusal) = list_refusal(sources, sinks) {
        return Some(refusal);
    }
    let source = sources.first()?;
    let first = log.root(*source)?;
    if let Some(refusal) = root_refusal(log, first, sources) {
        return Some(refusal);
    }
    root_refusal(log, first, sinks)
}

/// Whether the last undo or redo of an operation is an undo.
fn is_undone(steps: &[Step], op: u64) -> bool {
    let mut undone = false;
    for step in steps {
        if step.kind == Kind::Undo && step.names == op {
            undone = true;
        }
        if step.kind == Kind::Redo && step.names == op {
            undone = false;
        }
    }
    undone
}

/// The number of the last entry that changed a pair.
fn changer(steps: &[Step], pair: Pair) -> u32 {
    let mut number: u32 = 0;
    let mut by: u32 = 0;
    for step in steps {
        for change in step.changed.as_slice() {
            if change.pair == pair {
                by = number;
            }
        }
        number = number.wrapping_add(1);
    }
    by
}

/// The refusal of the first pair that isn't in the state that was left.
fn overtaken(log: &Log, last: &Step, changed: &[Changed], undone: bool) -> Option<Refusal> {
    for change in changed {
        let left = change.active != undone;
        if is_active(last.edges.as_slice(), change.pair) != left {
            return Some(Refusal::Overtaken {
                by: changer(log.steps.as_slice(), change.pair),
            });
        }
    }
    None
}

fn turn_refusal(log: &Log, op: u64, back: bool) -> Option<Refusal> {
    let Some(step) = log.steps.get(op as usize) else {
        return Some(Refusal::NoSuchOp { op });
    };
    if step.kind != Kind::Merge && step.kind != Kind::Split {
        return Some(Refusal::NotAnEdit { op });
    }
    let undone = is_undone(log.steps.as_slice(), op);
    if back && undone {
        return Some(Refusal::NotInForce { op });
    }
    if !back && !undone {
        return Some(Refusal::InForce { op });
    }
    let last = log.last()?;
    overtaken(log, last, step.changed.as_slice(), undone)
}

/// The first refusal of an edit's ids, operation, marks and roots.
pub fn early_refusal(log: &Log, asked: &Asked) -> Option<Refusal> {
    match asked.kind {
        Kind::Split => split_refusal(log, asked.sources.as_slice(), asked.sinks.as_slice()),
        Kind::Undo => turn_refusal(log, asked.op, true),
        Kind::Redo => turn_refusal(log, asked.op, false),
        _ => merge_refusal(log, asked.pairs.as_slice()),
    }
}

/// The refusal of a split for glue.
pub fn late_refusal(
    alloc: Global,
    log: &Log,
    asked: &Asked,
) -> Result<Option<Refusal>, AllocError> {
    let Some(last) = log.last() else {
        return Ok(None);
    };
    if asked.kind != Kind::Split {
        return Ok(None);
    }
    glued(
        alloc,
        log.ids.as_slice(),
        last.edges.as_slice(),
        asked.sources.as_slice(),
        asked.sinks.as_slice(),
    )
}

/// The mask with the lock of a supervoxel's root too: the root's number, modulo 64.
fn with_lock(log: &Log, mask: u64, sv: NodeId) -> u64 {
    match log.root(sv) {
        Some(root) => {
            let segment = log.layout.unpack(root).segment;
            mask | 1u64.wrapping_shl((segment % 64) as u32)
        }
        None => mask,
    }
}

/// The locks of an edit that isn't refused early, as bits of a mask.
pub fn mask_of(log: &Log, asked: &Asked) -> u64 {
    let mut mask: u64 = 0;
    match asked.kind {
        Kind::Split => {
            for mark in asked.sources.as_slice() {
                mask = with_lock(log, mask, *mark);
            }
        }
        Kind::Undo | Kind::Redo => {
            if let Some(step) = log.steps.get(asked.op as usize) {
                for change in step.changed.as_slice() {
                    mask = with_lock(log, mask, change.pair.a);
                    mask = with_lock(log, mask, change.pair.b);
                }
            }
        }
        _ => {
            for pair in asked.pairs.as_slice() {
                mask = with_lock(log, mask, pair.a);
                mask = with_lock(log, mask, pair.b);
            }
        }
    }
    mask
}

/// The pairs of a merge, ascending, each once.
fn merged(alloc: Global, pairs: &[AskedPair]) -> Result<Vec<Changed>, AllocError> {
    let mut list = Vec::new(alloc);
    for pair in pairs {
        let change = Changed {
            pair: pair_between(pair.a, pair.b),
            active: true,
        };
        if !list.contains(&change) {
            list.push(change)?;
        }
    }
    list.sort_unstable_by_key(|change| (change.pair.a.0, change.pair.b.0));
    Ok(list)
}

fn turned(alloc: Global, step: &Step, back: bool) -> Result<Vec<Changed>, AllocError> {
    let mut list = Vec::new(alloc);
    for change in step.changed.as_slice() {
        list.push(Changed {
            pair: change.pair,
            active: change.active != back,
        })?;
    }
    Ok(list)
}

fn cut(alloc: Global, log: &Log, asked: &Asked) -> Result<Option<Change>, AllocError> {
    let Some(last) = log.last() else {
        return Ok(None);
    };
    let Some(source) = asked.sources.as_slice().first() else {
        return Ok(None);
    };
    let Some(root) = log.root(*source) else {
        return Ok(None);
    };
    let leaves = all_of(alloc, last.roots.as_slice(), root)?;
    let Some(least) = least_cut(
        alloc,
        leaves.as_slice(),
        last.edges.as_slice(),
        asked.sources.as_slice(),
        asked.sinks.as_slice(),
    )?
    else {
        return Ok(None);
    };
    let mut changed = Vec::new(alloc);
    for pair in least.pairs.as_slice() {
        changed.push(Changed {
            pair: *pair,
            active: false,
        })?;
    }
    Ok(Some(Change {
        changed,
        total: least.total,
    }))
}

/// What an edit that isn't refused changes.
pub fn change_of(alloc: Global, log: &Log, asked: &Asked) -> Result<Option<Change>, AllocError> {
    let changed = match asked.kind {
        Kind::Split => return cut(alloc, log, asked),
        Kind::Undo | Kind::Redo => {
            let Some(step) = log.steps.get(asked.op as usize) else {
                return Ok(None);
            };
            turned(alloc, step, asked.kind == Kind::Undo)?
        }
        _ => merged(alloc, asked.pairs.as_slice())?,
    };
    Ok(Some(Change { changed, total: 0 }))
}
