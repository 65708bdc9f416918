//! The supervoxels of chunks, and which of them active pairs join.

use node_ids::{NodeId, Parts};
use op_model::{Changed, Dataset, Edge};
use std::alloc::{AllocError, Global};

/// A supervoxel in a layer.
#[derive(Clone, Copy, Drop)]
pub struct Member {
    /// The supervoxel.
    pub sv: u64,
    /// The layer, from 2 on.
    pub layer: u8,
    /// The chunk of the layer that holds it.
    pub chunk: u64,
    /// Its node in the layer; 0 before the first entry.
    pub node: u64,
}

// the chunk of a layer that holds a supervoxel
fn chunk_of(dataset: &Dataset, layer: u8, sv: NodeId) -> u64 {
    let base = dataset.layout.unpack(sv);
    let (mut x, mut y, mut z) = (base.x, base.y, base.z);
    for _ in 2..layer {
        x = x / 2;
        y = y / 2;
        z = z / 2;
    }
    let parts = Parts {
        layer,
        x,
        y,
        z,
        segment: 0,
    };
    match dataset.layout.pack(parts) {
        Ok(id) => id.0,
        Err(_) => 0,
    }
}

/// These supervoxels in the layers from 2 to the top layer, by layer and then by id.
pub fn members_of(
    alloc: Global,
    dataset: &Dataset,
    svs: &[NodeId],
) -> Result<Vec<Member>, AllocError> {
    let mut list = Vec::new(alloc);
    for layer in 2..dataset.grid.top_layer().wrapping_add(1) {
        for sv in svs {
            list.push(Member {
                sv: sv.0,
                layer,
                chunk: chunk_of(dataset, layer, *sv),
                node: 0,
            })?;
        }
    }
    Ok(list)
}

/// The chunks that hold a supervoxel, ascending and so by layer.
pub fn chunks_of(alloc: Global, members: &[Member]) -> Result<Vec<u64>, AllocError> {
    let mut list = Vec::new(alloc);
    for m in members {
        list.push(m.chunk)?;
    }
    list.sort_unstable();
    list.dedup();
    Ok(list)
}

/// The node of a supervoxel in a layer; in layer 1 itself.
pub fn node_of(members: &[Member], layer: u8, sv: u64) -> u64 {
    for m in members {
        if m.layer == layer && m.sv == sv {
            return m.node;
        }
    }
    sv
}

// whether a supervoxel lies in a chunk
fn is_inside(members: &[Member], chunk: u64, sv: u64) -> bool {
    for m in members {
        if m.chunk == chunk && m.sv == sv {
            return true;
        }
    }
    false
}

// the other end of an active pair
fn other_end(edge: &Edge, from: u64) -> Option<u64> {
    if edge.active && edge.pair.a.0 == from {
        return Some(edge.pair.b.0);
    }
    if edge.active && edge.pair.b.0 == from {
        return Some(edge.pair.a.0);
    }
    None
}

// finds the supervoxels of a chunk that active pairs join to one
fn add_joined(
    members: &[Member],
    edges: &[Edge],
    chunk: u64,
    from: u64,
    found: &mut Vec<u64>,
) -> Result<(), AllocError> {
    for edge in edges {
        if let Some(end) = other_end(edge, from) {
            if is_inside(members, chunk, end) && !found.contains(&end) {
                found.push(end)?;
            }
        }
    }
    Ok(())
}

/// The supervoxels that walks of active pairs inside its chunk join to a member, itself among them.
pub fn component(
    alloc: Global,
    members: &[Member],
    edges: &[Edge],
    member: &Member,
) -> Result<Vec<u64>, AllocError> {
    let mut found = Vec::new(alloc);
    found.push(member.sv)?;
    for next in 0..members.len() {
        let Some(from) = found.get(next) else {
            break;
        };
        let from = *from;
        add_joined(members, edges, member.chunk, from, &mut found)?;
    }
    Ok(found)
}

/// The least of some ids, or this one.
pub fn least(ids: &[u64], id: u64) -> u64 {
    let mut first = id;
    for other in ids {
        first = first.min(*other);
    }
    first
}

/// Whether an end of a changed pair is among these supervoxels.
pub fn is_touched(changed: &[Changed], svs: &[u64]) -> bool {
    for c in changed {
        if svs.contains(&c.pair.a.0) || svs.contains(&c.pair.b.0) {
            return true;
        }
    }
    false
}

/// The nodes of changed pairs' ends in all layers, ascending.
pub fn touched_nodes(
    alloc: Global,
    members: &[Member],
    changed: &[Changed],
) -> Result<Vec<u64>, AllocError> {
    let mut list = Vec::new(alloc);
    for m in members {
        if is_touched(changed, &[m.sv]) {
            list.push(m.node)?;
        }
    }
    list.sort_unstable();
    list.dedup();
    Ok(list)
}

/// Those of some nodes that lie in a chunk of the top layer.
pub fn roots_among(alloc: Global, ids: &[u64], top: u64) -> Result<Vec<u64>, AllocError> {
    let mut list = Vec::new(alloc);
    for id in ids {
        if *id > top {
            list.push(*id)?;
        }
    }
    Ok(list)
}

/// The nodes and supervoxels one layer below a node, ascending.
pub fn children_of(alloc: Global, members: &[Member], id: u64) -> Result<Vec<u64>, AllocError> {
    let mut list = Vec::new(alloc);
    for m in members {
        if m.node == id {
            list.push(node_of(members, m.layer.wrapping_sub(1), m.sv))?;
        }
    }
    list.sort_unstable();
    list.dedup();
    Ok(list)
}

/// Gives supervoxels their node in the layer of a chunk.
pub fn set_node(members: &mut [Member], chunk: u64, svs: &[u64], id: u64) {
    for m in members {
        if m.chunk == chunk && svs.contains(&m.sv) {
            m.node = id;
        }
    }
}
