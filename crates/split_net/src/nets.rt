//! Edges as links of a net, whose vertices are places among leaves.

ghost use Rattle.std.specs.Prelude.{◌≡◌, ◌<◌, ◌≤◌, ◌^◌, length, map, IsTrue, IfOk};
ghost use Rattle.graph_model.specs.Lists.{has};
ghost use Rattle.graph_model.specs.Wires.{renamed};
ghost use Rattle.flow_net.specs.Net.{IsNet, wire_of, wires};
ghost use Rattle.op_model.specs.Cuts.{link_of, links_of, room_of};
ghost use Rattle.op_model.specs.Valid.{IsAscending};
ghost use Rattle.split_net.specs.Parts.{AreBelow, IsPart, id_at, named};

use crate::places::place_of;
use flow_net::{Link, Net};
use node_ids::NodeId;
use op_model::{Edge, Weight};
use std::alloc::{AllocError, Global};

/// The room of a link: an affinity, and none for glue.
#[tactic(auto, unfolding(op_model::specs::Cuts::room_of))]
fn room_of(weight: Weight) -> Option<u32>
    ensures { result ≡ room_of weight }
{
    match weight {
        Weight::Affinity(affinity) => Some(affinity),
        Weight::Glue => None,
    }
}

/// An edge of leaves as a link between their places.
fn link_of(leaves: &[NodeId], edge: Edge) -> Link
    requires rising { IsAscending leaves.now }
    requires few { length leaves.now < 2 ^ 32 }
    requires lesser { IsTrue (has leaves.now edge.pair.a) }
    requires greater { IsTrue (has leaves.now edge.pair.b) }
    ensures named { named leaves.now result ≡ link_of edge }
    ensures lesser { result.a < length leaves.now }
    ensures greater { result.b < length leaves.now }
{
    let a = place_of(leaves, edge.pair.a);
    let b = place_of(leaves, edge.pair.b);
    Link {
        a,
        b,
        room: room_of(edge.weight),
    }
}

/// Edges of leaves as links between their places.
#[tactic(auto, unfolding(op_model::specs::Cuts::links_of))]
fn links_of(alloc: Global, leaves: &[NodeId], part: &[Edge]) -> Result<Vec<Link>, AllocError>
    requires part { IsPart leaves.now part.now }
    ensures named { IfOk result (λ links. map (named leaves.now) links.items ≡ links_of part.now) }
    ensures below { IfOk result (λ links. AreBelow (length leaves.now) links.items) }
{
    let mut links = Vec::new(alloc);
    for at in 0..part.len() {
        links.push(link_of(leaves, part[at]))?;
    }
    Ok(links)
}

/// The net of a component's active edges: a vertex for each leaf, and a link for each edge, with its
/// number.
pub(crate) fn net_of(alloc: Global, leaves: &[NodeId], part: &[Edge]) -> Result<Net, AllocError>
    requires part { IsPart leaves.now part.now }
    ensures named { IfOk result (λ net. renamed (id_at leaves.now) (wires net) ≡ links_of part.now) }
    ensures size { IfOk result (λ net. net.size ≡ length leaves.now) }
    ensures count { IfOk result (λ net. length net.links ≡ length part.now) }
    ensures sound { IfOk result IsNet }
{
    let links = links_of(alloc, leaves, part)?;
    Ok(Net::new(leaves.len() as u32, links))
}
