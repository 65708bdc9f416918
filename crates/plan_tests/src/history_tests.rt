//! The calls on drawn histories beside the plain program.

use crate::checks::{cuts_least, is_barred, is_mask, is_refused, is_unread};
use crate::drawing::{drawn_edit, drawn_tables};
use crate::plain_changes::{active_among, changes_of};
use crate::plain_edits::{Asked, Change, change_of, early_refusal, edit_of, late_refusal, mask_of};
use crate::plain_logs::{Head, Log, Step, append, log_of};
use crate::plain_members::all_of;
use bench_servers::{Server, dataset};
use component_reader::AmongError;
use hierarchy_edit::{Remade, Stamp};
use node_ids::NodeId;
use op_model::{Dataset, Edge, EdgeList, Kind, Plan, Read, Refusal, Reply, Summary};
use rand_core::{Rng, SeedableRng};
use rand_xoshiro::Xoshiro256PlusPlus;
use std::alloc::Global;
use std::test::Fail;
use table_ingest::read_base;

/// What is compared.
#[derive(Clone, Copy, PartialEq, Eq, Debug, Drop)]
enum Subject {
    /// The locks of an edit, or its first refusal.
    Locks,
    /// The plan of an edit, or its first refusal.
    Plan,
    /// The entry of an edit.
    Entry,
    /// The changes of a root.
    Changes,
    /// The active edges of an object.
    Edges,
}

/// How many edits were put, by their kinds, and how many splits were refused for glue.
#[derive(Clone, Copy, Drop)]
struct Tally {
    merges: u32,
    splits: u32,
    turns: u32,
    glued: u32,
}

impl Tally {
    fn add(&mut self, kind: Kind) {
        match kind {
            Kind::Split => self.splits = self.splits.wrapping_add(1),
            Kind::Merge => self.merges = self.merges.wrapping_add(1),
            _ => self.turns = self.turns.wrapping_add(1),
        }
    }
}

/// Whether the plan of an edit changes these pairs; of a split, whether its cut weighs as much and
/// `check_cut` accepts it.
fn is_planned(
    server: &mut Server,
    alloc: Global,
    asked: &Asked,
    plan: &Plan,
    change: &Change,
) -> Result<bool, Fail> {
    if plan.changed.list.as_slice() != change.changed.as_slice() {
        return Ok(false);
    }
    let Some(shown) = &plan.shown else {
        return Ok(asked.kind != Kind::Split);
    };
    if asked.kind != Kind::Split || shown.total != change.total {
        return Ok(false);
    }
    let sources = asked.sources.as_slice();
    cuts_least(server, alloc, sources, asked.sinks.as_slice(), plan)
}

/// Nothing where all is alike, else the subject.
fn unless(alike: bool, subject: Subject) -> Option<Subject> {
    if alike { None } else { Some(subject) }
}

fn is_entry(found: &Remade, step: &Step, op: usize) -> bool {
    found.op as usize == op
        && found.at == step.at
        && found.retired.list.as_slice() == step.retired.as_slice()
        && found.made.list.as_slice() == step.made.as_slice()
}

/// Puts an edit that isn't refused in both, and compares the entries.
fn puts_alike(
    server: &mut Server,
    alloc: Global,
    log: &mut Log,
    asked: &Asked,
    change: &Change,
) -> Result<bool, Fail> {
    let op = log.steps.len();
    let at = (op as u64).wrapping_mul(10).wrapping_add(1000);
    let stamp = Stamp {
        client: 1,
        line: 1,
        now: at,
    };
    let head = Head {
        kind: asked.kind,
        names: asked.op,
        at,
    };
    append(alloc, log, head, change.changed.as_slice())?;
    let Ok(found) = server.put(alloc, edit_of(alloc, asked)?, stamp) else {
        return Ok(false);
    };
    let Some(step) = log.last() else {
        return Ok(false);
    };
    Ok(is_entry(&found, step, op))
}

/// The first subject in which an edit differs that isn't refused. It is put.
fn change_differs(
    server: &mut Server,
    alloc: Global,
    log: &mut Log,
    asked: &Asked,
    plan: &Plan,
    tally: &mut Tally,
) -> Result<Option<Subject>, Fail> {
    let Some(change) = change_of(alloc, log, asked)? else {
        return Ok(Some(Subject::Plan));
    };
    if !is_planned(server, alloc, asked, plan, &change)? {
        return Ok(Some(Subject::Plan));
    }
    tally.add(asked.kind);
    let alike = puts_alike(server, alloc, log, asked, &change)?;
    Ok(unless(alike, Subject::Entry))
}

/// The first subject in which an edit differs. It is put where it isn't refused.
fn edit_differs(
    server: &mut Server,
    alloc: Global,
    log: &mut Log,
    asked: &Asked,
    tally: &mut Tally,
) -> Result<Option<Subject>, Fail> {
    let locks = server.locks(&edit_of(alloc, asked)?);
    let plan = server.plan(alloc, edit_of(alloc, asked)?);
    if let Some(refusal) = early_refusal(log, asked) {
        let alike = is_barred(&locks, &refusal) && is_refused(&plan, &refusal);
        return Ok(unless(alike, Subject::Locks));
    }
    if !is_mask(&locks, mask_of(log, asked)) {
        return Ok(Some(Subject::Locks));
    }
    if let Some(refusal) = late_refusal(alloc, log, asked)? {
        tally.glued = tally.glued.wrapping_add(1);
        return Ok(unless(is_refused(&plan, &refusal), Subject::Plan));
    }
    let Ok(plan) = plan else {
        return Ok(Some(Subject::Plan));
    };
    change_differs(server, alloc, log, asked, &plan, tally)
}

/// Whether a read of a root's changes at a time gives these entries.
fn are_changes(
    server: &mut Server,
    alloc: Global,
    root: NodeId,
    at: Option<u64>,
    wanted: &[Summary],
) -> bool {
    match server.read(alloc, &Read::Changes { root, at }) {
        Reply::Changes { ops, .. } => ops.list.as_slice() == wanted,
        _ => false,
    }
}

/// Whether a read of a root's changes at a time is refused, since no entry had made it.
fn is_unmade(server: &mut Server, alloc: Global, root: NodeId, at: u64) -> bool {
    let reply = server.read(alloc, &Read::Changes { root, at: Some(at) });
    is_unread(&reply, &Refusal::NoSuchRoot { id: root })
}

/// Whether the changes of a root that an entry made are alike: at that entry, at the last one, and
/// refused at the one before.
fn root_alike(
    server: &mut Server,
    alloc: Global,
    log: &Log,
    op: usize,
    root: NodeId,
) -> Result<bool, Fail> {
    let count = log.steps.len();
    let now = changes_of(alloc, log, count, root)?;
    if !are_changes(server, alloc, root, None, now.as_slice()) {
        return Ok(false);
    }
    let Some(step) = log.steps.get(op) else {
        return Ok(false);
    };
    let then = changes_of(alloc, log, op.wrapping_add(1), root)?;
    if !are_changes(server, alloc, root, Some(step.at), then.as_slice()) {
        return Ok(false);
    }
    Ok(op == 0 || is_unmade(server, alloc, root, step.at.wrapping_sub(1)))
}

fn changes_alike(server: &mut Server, alloc: Global, log: &Log) -> Result<bool, Fail> {
    let mut op: usize = 0;
    for step in log.steps.as_slice() {
        for root in step.made.as_slice() {
            if !root_alike(server, alloc, log, op, *root)? {
                return Ok(false);
            }
        }
        op = op.wrapping_add(1);
    }
    Ok(true)
}

/// Whether these edges were found, or their number, where more than 3 of them are too many.
fn are_edges(found: &Result<EdgeList, AmongError>, wanted: &[Edge]) -> bool {
    match found {
        Ok(found) => found.list.as_slice() == wanted,
        Err(AmongError::TooMany { edges }) => *edges == wanted.len() as u64 && wanted.len() > 3,
        Err(_) => false,
    }
}

/// Whether the active edges of a supervoxel's object are alike, as some entries left them.
fn edges_alike(
    server: &mut Server,
    alloc: Global,
    last: &Step,
    step: &Step,
    prefix: u32,
    sv: NodeId,
    root: NodeId,
) -> Result<bool, Fail> {
    let leaves = all_of(alloc, last.roots.as_slice(), root)?;
    let wanted = active_among(alloc, step.edges.as_slice(), leaves.as_slice())?;
    let all = server.component(alloc, sv, prefix, 100);
    let few = server.component(alloc, sv, prefix, 3);
    Ok(are_edges(&all, wanted.as_slice()) && are_edges(&few, wanted.as_slice()))
}

/// Whether those of all objects are, at each prefix.
fn objects_alike(server: &mut Server, alloc: Global, log: &Log) -> Result<bool, Fail> {
    let Some(last) = log.last() else {
        return Ok(false);
    };
    for member in last.roots.as_slice() {
        let mut prefix: u32 = 1;
        for step in log.steps.as_slice() {
            if !edges_alike(server, alloc, last, step, prefix, member.sv, member.of)? {
                return Ok(false);
            }
            prefix = prefix.wrapping_add(1);
        }
    }
    Ok(true)
}

/// The first subject in which a history of 14 drawn edits differs.
fn history_differs<G: Rng>(
    server: &mut Server,
    alloc: Global,
    log: &mut Log,
    numbers: &mut G,
    tally: &mut Tally,
) -> Result<Option<Subject>, Fail> {
    for _ in 0..14u32 {
        let asked = drawn_edit(alloc, numbers, log)?;
        let subject = edit_differs(server, alloc, log, &asked, tally)?;
        if subject.is_some() {
            return Ok(subject);
        }
    }
    if !changes_alike(server, alloc, log)? {
        return Ok(Some(Subject::Changes));
    }
    if !objects_alike(server, alloc, log)? {
        return Ok(Some(Subject::Edges));
    }
    Ok(None)
}

/// The grids and bits of drawn bases.
const SHAPES: [(u8, (u32, u32, u32)); 4] = [
    (8, (1, 1, 1)),
    (8, (2, 1, 1)),
    (16, (2, 2, 1)),
    (8, (3, 2, 2)),
];

/// The first subject in which a drawn history differs.
fn differs<G: Rng>(
    alloc: Global,
    number: usize,
    numbers: &mut G,
    tally: &mut Tally,
) -> Result<Option<Subject>, Fail> {
    let (bits, grid) = SHAPES[number % 4];
    let Some(dataset) = dataset(bits, grid, 1048576) else {
        return Ok(Some(Subject::Entry));
    };
    let tables = drawn_tables(alloc, numbers, &dataset)?;
    let supervoxels = tables.supervoxels.as_bytes();
    let base = read_base(alloc, supervoxels, tables.edges.as_bytes(), &dataset)?;
    let mut log = log_of(alloc, &dataset, &base, 1000)?;
    let mut server = Server::new(alloc, &base, dataset, 1000)?;
    history_differs(&mut server, alloc, &mut log, numbers, tally)
}

#[test]
fn drawn_histories_agree(rt: HostRuntime) -> Result<(), Fail> {
    let alloc = rt.alloc();
    let mut numbers = Xoshiro256PlusPlus::seed_from_u64(1);
    let mut tally = Tally {
        merges: 0,
        splits: 0,
        turns: 0,
        glued: 0,
    };
    for number in 0..300usize {
        let subject = differs(alloc, number, &mut numbers, &mut tally)?;
        assert_eq!(rt; subject, None, "history {number}");
    }
    let Tally {
        merges,
        splits,
        turns,
        glued,
    } = tally;
    assert!(rt;
        merges > 100 && splits > 100 && turns > 100 && glued > 10,
        "{merges} {splits} {turns} {glued}"
    );
    Ok(())
}
