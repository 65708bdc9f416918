//! Whether an edit is planned, refused or put as is wanted.

use bench_servers::Server;
use bench_servers::nets::is_shown;
use hierarchy_edit::{Remade, Stamp};
use node_ids::NodeId;
use op_model::{
    Carry, Changed, ChangedPairs, Edit, Ids, Kind, Pair, Plan, Read, Refusal, Reply, Shown, Summary,
};
use std::alloc::Global;
use std::test::Fail;

/// What a worked split cuts: pairs, their weight, and all carries of its flow.
#[derive(Clone, Copy)]
pub struct Cut<'a> {
    pub pairs: &'a [(u64, u64)],
    pub total: u64,
    pub flow: &'a [(u64, u64, u64)],
}

pub fn are_ids(ids: &Ids, wanted: &[u64]) -> bool {
    let list = ids.list.as_slice();
    for (id, x) in list.iter().zip(wanted.iter()) {
        if id.0 != *x {
            return false;
        }
    }
    list.len() == wanted.len()
}

/// Whether these pairs have these new states.
pub fn are_changed(changed: &ChangedPairs, wanted: &[(u64, u64, bool)]) -> bool {
    let list = changed.list.as_slice();
    for (found, x) in list.iter().zip(wanted.iter()) {
        if found.pair.a.0 != x.0 || found.pair.b.0 != x.1 || found.active != x.2 {
            return false;
        }
    }
    list.len() == wanted.len()
}

/// Whether these pairs, and no others, are to be inactive.
fn are_off(changed: &[Changed], pairs: &[Pair]) -> bool {
    for (found, pair) in changed.iter().zip(pairs.iter()) {
        if found.pair != *pair || found.active {
            return false;
        }
    }
    changed.len() == pairs.len()
}

fn are_pairs(pairs: &[Pair], wanted: &[(u64, u64)]) -> bool {
    for (found, x) in pairs.iter().zip(wanted.iter()) {
        if found.a.0 != x.0 || found.b.0 != x.1 {
            return false;
        }
    }
    pairs.len() == wanted.len()
}

fn are_carries(flow: &[Carry], wanted: &[(u64, u64, u64)]) -> bool {
    for (found, x) in flow.iter().zip(wanted.iter()) {
        if found.from.0 != x.0 || found.to.0 != x.1 || found.amount != x.2 {
            return false;
        }
    }
    flow.len() == wanted.len()
}

pub fn is_mask(locks: &Result<u64, Refusal>, mask: u64) -> bool {
    match locks {
        Ok(found) => *found == mask,
        Err(_) => false,
    }
}

pub fn is_barred(locks: &Result<u64, Refusal>, refusal: &Refusal) -> bool {
    match locks {
        Ok(_) => false,
        Err(found) => found == refusal,
    }
}

pub fn is_refused(plan: &Result<Plan, Refusal>, refusal: &Refusal) -> bool {
    match plan {
        Ok(_) => false,
        Err(found) => found == refusal,
    }
}

/// Whether locks and plan are refused alike.
pub fn refuses(server: &mut Server, alloc: Global, edit: Edit, refusal: Refusal) -> bool {
    let locks = server.locks(&edit);
    let plan = server.plan(alloc, edit);
    is_barred(&locks, &refusal) && is_refused(&plan, &refusal)
}

/// Whether the edit has these locks, and its plan is refused.
pub fn locks_and_refuses(
    server: &mut Server,
    alloc: Global,
    edit: Edit,
    mask: u64,
    refusal: Refusal,
) -> bool {
    let locks = server.locks(&edit);
    let plan = server.plan(alloc, edit);
    is_mask(&locks, mask) && is_refused(&plan, &refusal)
}

fn changes_pairs(plan: &Result<Plan, Refusal>, wanted: &[(u64, u64, bool)]) -> bool {
    match plan {
        Ok(plan) => are_changed(&plan.changed, wanted) && plan.shown.is_none(),
        Err(_) => false,
    }
}

/// Whether the edit, which is no split, has these locks and changes these pairs.
pub fn plans(
    server: &mut Server,
    alloc: Global,
    edit: Edit,
    mask: u64,
    wanted: &[(u64, u64, bool)],
) -> bool {
    let locks = server.locks(&edit);
    let plan = server.plan(alloc, edit);
    is_mask(&locks, mask) && changes_pairs(&plan, wanted)
}

/// Whether a cut and a flow are the least of the object between the marks, by `check_cut`.
pub fn is_judged(
    server: &mut Server,
    alloc: Global,
    sources: &[NodeId],
    sinks: &[NodeId],
    shown: &Shown,
) -> Result<bool, Fail> {
    let Some(source) = sources.first() else {
        return Ok(false);
    };
    let leaves = server.leaves(alloc, *source)?;
    let Ok(part) = server.component(alloc, *source, u32::MAX, 500000) else {
        return Ok(false);
    };
    let accepted = is_shown(
        alloc,
        leaves.list.as_slice(),
        part.list.as_slice(),
        sources,
        sinks,
        shown,
    )?;
    Ok(accepted)
}

/// Whether a plan cuts what it shows, and that is least by `check_cut`.
pub fn cuts_least(
    server: &mut Server,
    alloc: Global,
    sources: &[NodeId],
    sinks: &[NodeId],
    plan: &Plan,
) -> Result<bool, Fail> {
    let Some(shown) = &plan.shown else {
        return Ok(false);
    };
    if !are_off(plan.changed.list.as_slice(), shown.cut.list.as_slice()) {
        return Ok(false);
    }
    is_judged(server, alloc, sources, sinks, shown)
}

fn is_cut(plan: &Plan, wanted: Cut) -> bool {
    let Some(shown) = &plan.shown else {
        return false;
    };
    shown.total == wanted.total
        && are_pairs(shown.cut.list.as_slice(), wanted.pairs)
        && are_carries(shown.flow.list.as_slice(), wanted.flow)
}

/// Whether a split between a source and a sink has these locks and this cut, which `check_cut` accepts.
pub fn splits(
    server: &mut Server,
    alloc: Global,
    edit: Edit,
    source: u64,
    sink: u64,
    mask: u64,
    wanted: Cut,
) -> Result<bool, Fail> {
    let locks = server.locks(&edit);
    let Ok(plan) = server.plan(alloc, edit) else {
        return Ok(false);
    };
    if !is_mask(&locks, mask) || !is_cut(&plan, wanted) {
        return Ok(false);
    }
    cuts_least(server, alloc, &[NodeId(source)], &[NodeId(sink)], &plan)
}

fn stamp_of(now: u64) -> Stamp {
    Stamp {
        client: 1,
        line: 1,
        now,
    }
}

fn is_entry(found: &Remade, op: u32, at: u64, retired: &[u64], made: &[u64]) -> bool {
    found.op == op
        && found.at == at
        && are_ids(&found.retired, retired)
        && are_ids(&found.made, made)
}

/// Whether the edit is put as this entry, whose time is 10 milliseconds a number behind the ingest.
pub fn puts(
    server: &mut Server,
    alloc: Global,
    edit: Edit,
    op: u32,
    retired: &[u64],
    made: &[u64],
) -> bool {
    let at = (op as u64).wrapping_mul(10).wrapping_add(1000);
    match server.put(alloc, edit, stamp_of(at)) {
        Ok(found) => is_entry(&found, op, at, retired, made),
        Err(_) => false,
    }
}

/// Whether the edit isn't put, for this refusal.
pub fn refuses_put(server: &mut Server, alloc: Global, edit: Edit, refusal: Refusal) -> bool {
    let found = server.put(alloc, edit, stamp_of(1000));
    is_unput(&found, &refusal)
}

fn is_unput(found: &Result<Remade, Refusal>, wanted: &Refusal) -> bool {
    match found {
        Ok(_) => false,
        Err(refusal) => refusal == wanted,
    }
}

/// Whether a read of a root's changes gives these entries.
pub fn has_changes(
    server: &mut Server,
    alloc: Global,
    root: u64,
    at: Option<u64>,
    wanted: &[Summary],
) -> bool {
    let read = Read::Changes {
        root: NodeId(root),
        at,
    };
    let Reply::Changes { ops, .. } = server.read(alloc, &read) else {
        return false;
    };
    ops.list.as_slice() == wanted
}

/// Whether a read of a root's leaves gives these.
pub fn has_leaves(server: &mut Server, alloc: Global, root: u64, wanted: &[u64]) -> bool {
    let read = Read::Leaves {
        root: NodeId(root),
        at: None,
    };
    let Reply::Leaves { leaves, .. } = server.read(alloc, &read) else {
        return false;
    };
    are_ids(&leaves, wanted)
}

/// Whether a read of a root's leaves and one of its changes are refused alike.
pub fn refuses_reads(
    server: &mut Server,
    alloc: Global,
    root: u64,
    at: Option<u64>,
    wanted: Refusal,
) -> bool {
    let root = NodeId(root);
    is_unread(&server.read(alloc, &Read::Leaves { root, at }), &wanted)
        && is_unread(&server.read(alloc, &Read::Changes { root, at }), &wanted)
}

/// Whether the reply is this refusal.
pub fn is_unread(reply: &Reply, wanted: &Refusal) -> bool {
    match reply {
        Reply::Refused { refusal, .. } => refusal == wanted,
        _ => false,
    }
}

/// An entry as a list of changes shows it.
pub fn summary(op: u32, at: u64, kind: Kind) -> Summary {
    Summary { op, at, kind }
}
