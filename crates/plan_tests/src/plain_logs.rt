//! A log as a plain program keeps it: with each entry the state of all edges and the roots of all
//! supervoxels.

use crate::plain_members::{Member, components, of, put};
use node_ids::{Layout, NodeId, Parts};
use op_model::{Base, Changed, Dataset, Edge, Kind, Pair, Weight};
use std::alloc::{AllocError, Global};

/// An entry, with what it left.
#[derive(Drop)]
pub struct Step {
    pub kind: Kind,
    /// The operation that an undo or a redo names.
    pub names: u64,
    pub at: u64,
    pub changed: Vec<Changed>,
    pub retired: Vec<NodeId>,
    pub made: Vec<NodeId>,
    /// All edges with their states.
    pub edges: Vec<Edge>,
    /// The root of each supervoxel.
    pub roots: Vec<Member>,
}

/// A log.
#[derive(Drop)]
pub struct Log {
    pub layout: Layout,
    /// The layer of roots.
    pub top: u8,
    /// The supervoxels, ascending.
    pub ids: Vec<NodeId>,
    /// How many roots were made.
    pub used: u64,
    pub steps: Vec<Step>,
}

/// What an entry is about, and when.
#[derive(Clone, Copy, Drop)]
pub struct Head {
    pub kind: Kind,
    pub names: u64,
    pub at: u64,
}

/// The layer at which one chunk holds so many base chunks along the longest axis.
fn top_of(dataset: &Dataset) -> u8 {
    let grid = dataset.grid;
    let longest = grid.nx().max(grid.ny()).max(grid.nz());
    let mut layer: u8 = 2;
    let mut size: u32 = 1;
    for _ in 0..16u8 {
        if size < longest {
            size = size.wrapping_mul(2);
            layer = layer.wrapping_add(1);
        }
    }
    layer
}

impl Log {
    /// The last entry; `None` in a log without one.
    pub fn last(&self) -> Option<&Step> {
        self.steps.as_slice().last()
    }

    /// The root of a supervoxel, as the whole log left it.
    pub fn root(&self, sv: NodeId) -> Option<NodeId> {
        let last = self.last()?;
        of(last.roots.as_slice(), sv)
    }
}

/// The root of this number.
fn root_id(layout: Layout, top: u8, number: u64) -> NodeId {
    let parts = Parts {
        layer: top,
        x: 0,
        y: 0,
        z: 0,
        segment: number,
    };
    match layout.pack(parts) {
        Ok(id) => id,
        Err(_) => NodeId(0),
    }
}

/// Whether an end of a changed pair lies in the component with this least member.
fn is_touched(members: &[Member], changed: &[Changed], least: NodeId) -> bool {
    for change in changed {
        if of(members, change.pair.a) == Some(least) || of(members, change.pair.b) == Some(least) {
            return true;
        }
    }
    false
}

/// How many touched components have a least member up to this one.
fn rank_of(members: &[Member], touched: &[NodeId], least: NodeId) -> u64 {
    let mut rank: u64 = 0;
    for member in members {
        if member.sv == member.of && member.sv <= least && touched.contains(&member.of) {
            rank = rank.wrapping_add(1);
        }
    }
    rank
}

/// The roots of supervoxels whose components are touched are new, and the others as before.
fn relabelled(
    alloc: Global,
    log: &Log,
    members: &[Member],
    touched: &[NodeId],
    before: &[Member],
) -> Result<Vec<Member>, AllocError> {
    let mut roots = Vec::new(alloc);
    for member in members {
        let old = of(before, member.sv);
        let rank = rank_of(members, touched, member.of);
        let made = root_id(log.layout, log.top, log.used.wrapping_add(rank));
        let of = if touched.contains(&member.of) {
            made
        } else {
            old.unwrap_or(NodeId(0))
        };
        roots.push(Member { sv: member.sv, of })?;
    }
    Ok(roots)
}

/// The least members of the touched components.
fn touched_by(
    alloc: Global,
    members: &[Member],
    changed: &[Changed],
) -> Result<Vec<NodeId>, AllocError> {
    let mut touched = Vec::new(alloc);
    for member in members {
        if member.sv == member.of && is_touched(members, changed, member.of) {
            touched.push(member.sv)?;
        }
    }
    Ok(touched)
}

/// What stands beside the ends of changed pairs, ascending, each once.
fn ends_of(
    alloc: Global,
    roots: &[Member],
    changed: &[Changed],
) -> Result<Vec<NodeId>, AllocError> {
    let mut list = Vec::new(alloc);
    for change in changed {
        if let Some(root) = of(roots, change.pair.a) {
            put(&mut list, root)?;
        }
        if let Some(root) = of(roots, change.pair.b) {
            put(&mut list, root)?;
        }
    }
    list.sort_unstable();
    Ok(list)
}

/// All that stands beside supervoxels, ascending, each once.
fn all_roots(alloc: Global, roots: &[Member]) -> Result<Vec<NodeId>, AllocError> {
    let mut list = Vec::new(alloc);
    for member in roots {
        put(&mut list, member.of)?;
    }
    list.sort_unstable();
    Ok(list)
}

/// Whether a pair is among the edges; its state is set if it is.
fn set_state(edges: &mut [Edge], change: Changed) -> bool {
    let mut found = false;
    for edge in edges.iter_mut() {
        if edge.pair == change.pair {
            edge.active = change.active;
            found = true;
        }
    }
    found
}

/// The edges with the states of changed pairs. A pair that is no edge becomes one, of affinity 1.
fn changed_edges(
    alloc: Global,
    edges: &[Edge],
    changed: &[Changed],
) -> Result<Vec<Edge>, AllocError> {
    let mut list = edges.to_vec(alloc)?;
    for change in changed {
        if !set_state(list.as_mut_slice(), *change) {
            list.push(Edge {
                pair: change.pair,
                weight: Weight::Affinity(1),
                active: change.active,
            })?;
        }
    }
    Ok(list)
}

/// The log of a base, with the entry of its ingest.
pub fn log_of(alloc: Global, dataset: &Dataset, base: &Base, at: u64) -> Result<Log, AllocError> {
    let mut log = Log {
        layout: dataset.layout,
        top: top_of(dataset),
        ids: base.supervoxels.list.as_slice().to_vec(alloc)?,
        used: 0,
        steps: Vec::new(alloc),
    };
    let edges = base.edges.list.as_slice().to_vec(alloc)?;
    let members = components(alloc, log.ids.as_slice(), edges.as_slice(), false)?;
    let mut touched = Vec::new(alloc);
    for member in members.as_slice() {
        put(&mut touched, member.of)?;
    }
    let roots = relabelled(alloc, &log, members.as_slice(), touched.as_slice(), &[])?;
    let made = all_roots(alloc, roots.as_slice())?;
    log.used = touched.len() as u64;
    log.steps.push(Step {
        kind: Kind::Ingest,
        names: 0,
        at,
        changed: Vec::new(alloc),
        retired: Vec::new(alloc),
        made,
        edges,
        roots,
    })?;
    Ok(log)
}

/// The entry that changes these pairs, and how many roots were made with it.
fn step_of(
    alloc: Global,
    log: &Log,
    last: &Step,
    head: Head,
    changed: &[Changed],
) -> Result<(Step, u64), AllocError> {
    let edges = changed_edges(alloc, last.edges.as_slice(), changed)?;
    let members = components(alloc, log.ids.as_slice(), edges.as_slice(), false)?;
    let touched = touched_by(alloc, members.as_slice(), changed)?;
    let roots = relabelled(
        alloc,
        log,
        members.as_slice(),
        touched.as_slice(),
        last.roots.as_slice(),
    )?;
    let used = log.used.wrapping_add(touched.len() as u64);
    let step = Step {
        kind: head.kind,
        names: head.names,
        at: head.at,
        changed: changed.to_vec(alloc)?,
        retired: ends_of(alloc, last.roots.as_slice(), changed)?,
        made: ends_of(alloc, roots.as_slice(), changed)?,
        edges,
        roots,
    };
    Ok((step, used))
}

/// Appends the entry that changes these pairs.
pub fn append(
    alloc: Global,
    log: &mut Log,
    head: Head,
    changed: &[Changed],
) -> Result<(), AllocError> {
    let Some(last) = log.last() else {
        return Ok(());
    };
    let (step, used) = step_of(alloc, log, last, head, changed)?;
    log.used = used;
    log.steps.push(step)?;
    Ok(())
}

/// The state of a pair among edges; a pair that is no edge isn't active.
pub fn is_active(edges: &[Edge], pair: Pair) -> bool {
    for edge in edges {
        if edge.pair == pair {
            return edge.active;
        }
    }
    false
}
