//! Components by relabelling: each supervoxel with a number that all of its component share.

use node_ids::NodeId;
use op_model::{Edge, Weight};
use std::alloc::{AllocError, Global};

/// A supervoxel with the least member of its component, or with its root.
#[derive(Clone, Copy, PartialEq, Eq, Debug, Drop)]
pub struct Member {
    pub sv: NodeId,
    pub of: NodeId,
}

/// What stands beside a supervoxel; `None` if it isn't there.
pub fn of(members: &[Member], sv: NodeId) -> Option<NodeId> {
    for member in members {
        if member.sv == sv {
            return Some(member.of);
        }
    }
    None
}

/// The supervoxels beside which this stands, in their order.
pub fn all_of(alloc: Global, members: &[Member], id: NodeId) -> Result<Vec<NodeId>, AllocError> {
    let mut list = Vec::new(alloc);
    for member in members {
        if member.of == id {
            list.push(member.sv)?;
        }
    }
    Ok(list)
}

/// Gives the greater of two numbers' members the lesser number.
fn unite(members: &mut [Member], one: NodeId, other: NodeId) {
    let low = if one < other { one } else { other };
    let high = if one < other { other } else { one };
    for member in members.iter_mut() {
        if member.of == high {
            member.of = low;
        }
    }
}

fn join(members: &mut [Member], edge: &Edge) {
    let Some(one) = of(members, edge.pair.a) else {
        return;
    };
    let Some(other) = of(members, edge.pair.b) else {
        return;
    };
    unite(members, one, other);
}

/// The least member of each supervoxel's component, by the active edges, or by glue alone.
pub fn components(
    alloc: Global,
    ids: &[NodeId],
    edges: &[Edge],
    glue: bool,
) -> Result<Vec<Member>, AllocError> {
    let mut members = Vec::new(alloc);
    for id in ids {
        members.push(Member { sv: *id, of: *id })?;
    }
    for edge in edges {
        if edge.active && (!glue || edge.weight == Weight::Glue) {
            join(members.as_mut_slice(), edge);
        }
    }
    Ok(members)
}

/// Puts an id into a list, unless it is there.
pub fn put(list: &mut Vec<NodeId>, id: NodeId) -> Result<(), AllocError> {
    if !list.contains(&id) {
        list.push(id)?;
    }
    Ok(())
}
