//! The least cut between marks, with a flow that shows it.

ghost use Rattle.std.specs.Prelude.{◌≡◌, ◌<◌, ◌≤◌, length, map, None, IfOk, MatchResult, IsTrue, IsFalse, ℕ};
ghost use Rattle.std.specs.List.{All};
ghost use Rattle.graph_model.specs.Lists.{has};
ghost use Rattle.op_model.specs.Cuts.{IsShown};
ghost use Rattle.op_model.specs.declared.reply.Refusal.TheVariants.{Glued};
ghost use Rattle.split_net.specs.Parts.{AreMarks, IsPart, IsTold, IsUnshown, glue_refusal, id_at};

use crate::nets::net_of;
use crate::places::places_of;
use crate::telling::{flow_of, pairs_of};
use min_cut::{CutError, LeastCut, least_cut};
use node_ids::NodeId;
use op_model::{Edge, Refusal, Shown};
use std::alloc::{AllocError, Global};

/// The refusal of marks at two places that a walk of glue joins.
fn glued_at(leaves: &[NodeId], source: u32, sink: u32) -> Refusal
    requires source { source < length leaves.now }
    requires sink { sink < length leaves.now }
    ensures { result ≡ Glued (id_at leaves.now source) (id_at leaves.now sink) }
{
    Refusal::Glued {
        source: leaves[source as usize],
        sink: leaves[sink as usize],
    }
}

/// A least cut of a net of edges, told by their pairs.
fn tell(alloc: Global, part: &[Edge], least: &LeastCut) -> Result<Shown, AllocError>
    requires below { All (λ k. k < length part.now) least.now.cut.links.items }
    requires amounts { length least.now.flow.amounts.items ≡ length part.now }
    ensures { IfOk result (IsTold part.now least.now) }
{
    let cut = pairs_of(alloc, part, least.cut.links.as_slice())?;
    let flow = flow_of(alloc, part, least.flow.amounts.as_slice())?;
    Ok(Shown {
        cut,
        total: least.total,
        flow,
    })
}

/// The least cut of a component's active edges between sources and sinks, its weight, and a flow of
/// that value.
///
/// The component's supervoxels are `leaves`, ascending, and its active edges are `part`, ascending by
/// pair and at most 500,000. Marks are leaves, at least one on each side and none on both; one that is
/// named twice counts once.
///
/// # Errors
///
/// `Glued` where a walk of glue joins a source to a sink: the first such source, with its first such
/// sink. `NoMemory` where there is no memory for the net, the cut or the flow.
pub fn shown(
    alloc: Global,
    leaves: &[NodeId],
    part: &[Edge],
    sources: &[NodeId],
    sinks: &[NodeId],
) -> Result<Shown, Refusal>
    requires part { IsPart leaves.now part.now }
    requires few { length part.now ≤ 500000 }
    requires sources { AreMarks leaves.now sources.now }
    requires sinks { AreMarks leaves.now sinks.now }
    requires sides { (v : ℕ) → IsTrue (has sources.now v) → IsFalse (has sinks.now v) }
    ensures shown { IfOk result (IsShown part.now sources.now sinks.now) }
    ensures separable { IfOk result (λ s. glue_refusal part.now sources.now sinks.now ≡ None) }
    ensures refused { IsUnshown part.now sources.now sinks.now result }
{
    let Ok(net) = net_of(alloc, leaves, part) else {
        return Err(Refusal::NoMemory);
    };
    let Ok(from) = places_of(alloc, leaves, sources) else {
        return Err(Refusal::NoMemory);
    };
    let Ok(to) = places_of(alloc, leaves, sinks) else {
        return Err(Refusal::NoMemory);
    };
    let least = match least_cut(alloc, &net, from.as_slice(), to.as_slice()) {
        Ok(least) => least,
        Err(CutError::Glued { source, sink }) => {
            return Err(glued_at(leaves, source, sink));
        }
        Err(CutError::NoMemory) => return Err(Refusal::NoMemory),
    };
    match tell(alloc, part, &least) {
        Ok(shown) => Ok(shown),
        Err(_) => Err(Refusal::NoMemory),
    }
}
