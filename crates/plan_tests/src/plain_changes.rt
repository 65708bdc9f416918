//! The changes of a root by a plain program: the ancestors of the root are closed under links.

use crate::plain_logs::{Log, Step};
use crate::plain_members::{Member, put};
use node_ids::NodeId;
use op_model::{Edge, Summary};
use std::alloc::{AllocError, Global};

/// Whether two roots, one of before an entry and one of behind it, have a leaf in common.
fn share_leaf(before: &[Member], behind: &[Member], old: NodeId, new: NodeId) -> bool {
    for (one, other) in before.iter().zip(behind.iter()) {
        if one.of == old && other.of == new {
            return true;
        }
    }
    false
}

/// Whether an entry leads back to this root from one of these.
fn leads_back(before: &Step, step: &Step, old: NodeId, ancestors: &[NodeId]) -> bool {
    for new in step.made.as_slice() {
        if ancestors.contains(new)
            && share_leaf(before.roots.as_slice(), step.roots.as_slice(), old, *new)
        {
            return true;
        }
    }
    false
}

/// The root with all that it came from, by the first entries.
fn ancestors_of(alloc: Global, steps: &[Step], root: NodeId) -> Result<Vec<NodeId>, AllocError> {
    let mut list = Vec::new(alloc);
    list.push(root)?;
    for _ in steps {
        for (before, step) in steps.iter().zip(steps.iter().skip(1)) {
            for old in step.retired.as_slice() {
                if leads_back(before, step, *old, list.as_slice()) {
                    put(&mut list, *old)?;
                }
            }
        }
    }
    Ok(list)
}

/// Whether an entry made or retired one of these roots.
fn concerns(step: &Step, roots: &[NodeId]) -> bool {
    step.made.as_slice().iter().any(|root| roots.contains(root))
        || step
            .retired
            .as_slice()
            .iter()
            .any(|root| roots.contains(root))
}

/// The entries of a prefix that made or retired a root or one of its ancestors.
pub fn changes_of(
    alloc: Global,
    log: &Log,
    prefix: usize,
    root: NodeId,
) -> Result<Vec<Summary>, AllocError> {
    let mut steps = log.steps.as_slice();
    if prefix < steps.len() {
        steps = &steps[..prefix];
    }
    let ancestors = ancestors_of(alloc, steps, root)?;
    let mut list = Vec::new(alloc);
    let mut op: u32 = 0;
    for step in steps {
        if concerns(step, ancestors.as_slice()) {
            list.push(Summary {
                op,
                at: step.at,
                kind: step.kind,
            })?;
        }
        op = op.wrapping_add(1);
    }
    Ok(list)
}

/// The active edges among supervoxels, ascending by pair.
pub fn active_among(
    alloc: Global,
    edges: &[Edge],
    leaves: &[NodeId],
) -> Result<Vec<Edge>, AllocError> {
    let mut list = Vec::new(alloc);
    for edge in edges {
        if edge.active && leaves.contains(&edge.pair.a) && leaves.contains(&edge.pair.b) {
            list.push(*edge)?;
        }
    }
    list.sort_unstable_by_key(|edge| (edge.pair.a.0, edge.pair.b.0));
    Ok(list)
}
