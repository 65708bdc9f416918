//! Least cuts by all sets of supervoxels, of objects with few.

use crate::plain_members::{Member, components, of};
use node_ids::NodeId;
use op_model::{Edge, Pair, Refusal, Weight};
use std::alloc::{AllocError, Global};

/// An active edge of an object, with a bit for each end.
#[derive(Clone, Copy, Drop)]
struct Wire {
    pair: Pair,
    a: u32,
    b: u32,
    room: Option<u32>,
}

/// The pairs of a least cut, ascending, and their weight.
#[derive(Drop)]
pub struct Least {
    pub pairs: Vec<Pair>,
    pub total: u64,
}

/// The bit of a supervoxel, by its place among these; 0 if it isn't there.
fn bit_of(leaves: &[NodeId], sv: NodeId) -> u32 {
    let mut bit: u32 = 1;
    for leaf in leaves {
        if *leaf == sv {
            return bit;
        }
        bit = bit.wrapping_mul(2);
    }
    0
}

fn bits_of(leaves: &[NodeId], marks: &[NodeId]) -> u32 {
    let mut bits: u32 = 0;
    for mark in marks {
        bits |= bit_of(leaves, *mark);
    }
    bits
}

/// The active edges among an object's supervoxels, ascending by pair.
fn wires_of(alloc: Global, leaves: &[NodeId], edges: &[Edge]) -> Result<Vec<Wire>, AllocError> {
    let mut wires = Vec::new(alloc);
    for edge in edges {
        let a = bit_of(leaves, edge.pair.a);
        let b = bit_of(leaves, edge.pair.b);
        if edge.active && a != 0 && b != 0 {
            let room = match edge.weight {
                Weight::Affinity(affinity) => Some(affinity),
                Weight::Glue => None,
            };
            wires.push(Wire {
                pair: edge.pair,
                a,
                b,
                room,
            })?;
        }
    }
    wires.sort_unstable_by_key(|wire| (wire.pair.a.0, wire.pair.b.0));
    Ok(wires)
}

/// Whether just one end of the edge lies on this side.
fn crosses(wire: &Wire, side: u32) -> bool {
    let one = side & wire.a != 0;
    let other = side & wire.b != 0;
    one != other
}

/// What the edges with just one end on this side weigh; `None` if there is glue among them.
fn weight_of(wires: &[Wire], side: u32) -> Option<u64> {
    let mut sum: u64 = 0;
    for wire in wires {
        if crosses(wire, side) {
            let room = wire.room?;
            sum = sum.wrapping_add(room as u64);
        }
    }
    Some(sum)
}

/// The least weight of a side that has all sources and no sink, and what all sides of this weight
/// share.
fn least_side(wires: &[Wire], count: usize, sources: u32, sinks: u32) -> Option<(u64, u32)> {
    let mut least: Option<(u64, u32)> = None;
    let mut limit: u32 = 1;
    for _ in 0..count {
        limit = limit.wrapping_mul(2);
    }
    for side in 0..limit {
        if side & sources == sources && side & sinks == 0 {
            if let Some(weight) = weight_of(wires, side) {
                least = Some(lesser(least, weight, side));
            }
        }
    }
    least
}

fn lesser(least: Option<(u64, u32)>, weight: u64, side: u32) -> (u64, u32) {
    match least {
        None => (weight, side),
        Some((total, shared)) => {
            if weight < total {
                (weight, side)
            } else if weight == total {
                (total, shared & side)
            } else {
                (total, shared)
            }
        }
    }
}

/// The least cut of an object between marks; `None` where nothing separates them.
pub fn least_cut(
    alloc: Global,
    leaves: &[NodeId],
    edges: &[Edge],
    sources: &[NodeId],
    sinks: &[NodeId],
) -> Result<Option<Least>, AllocError> {
    let wires = wires_of(alloc, leaves, edges)?;
    let from = bits_of(leaves, sources);
    let to = bits_of(leaves, sinks);
    let Some((total, side)) = least_side(wires.as_slice(), leaves.len(), from, to) else {
        return Ok(None);
    };
    let mut pairs = Vec::new(alloc);
    for wire in wires.as_slice() {
        if crosses(wire, side) {
            pairs.push(wire.pair)?;
        }
    }
    Ok(Some(Least { pairs, total }))
}

/// The first sink that glue joins to the source.
fn glued_sink(members: &[Member], source: NodeId, sinks: &[NodeId]) -> Option<NodeId> {
    for sink in sinks {
        if of(members, source) == of(members, *sink) {
            return Some(*sink);
        }
    }
    None
}

/// The refusal of a source that glue joins to a sink: the first such source, with its first sink.
pub fn glued(
    alloc: Global,
    ids: &[NodeId],
    edges: &[Edge],
    sources: &[NodeId],
    sinks: &[NodeId],
) -> Result<Option<Refusal>, AllocError> {
    let members = components(alloc, ids, edges, true)?;
    for source in sources {
        if let Some(sink) = glued_sink(members.as_slice(), *source, sinks) {
            return Ok(Some(Refusal::Glued {
                source: *source,
                sink,
            }));
        }
    }
    Ok(None)
}
