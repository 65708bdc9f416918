//! Edges that are met one by one, of which a list keeps no more than were allowed.

ghost use Rattle.std.specs.Prelude.{◌≡◌, ◌<◌, ◌≤◌, ◌+◌, ◌^◌, [], ◌∷◌, ◌++◌, List, length, take, OnOk, MatchResult};
ghost use Rattle.std.specs.List.{filter};
ghost use Rattle.op_model.specs.declared.base.Edge.{Edge};
ghost use Rattle.op_model.specs.Valid.{IsAscending};
ghost use Rattle.graph_model.specs.Lists.{has};
ghost use Rattle.component_reader.specs.Taking.{AreMet, starts};

use node_ids::NodeId;
use op_model::Edge;
use pcg_base::NoMemory;

/// The edges that were met.
#[derive(Drop)]
pub(crate) struct Met {
    /// The first of them, up to how many are allowed.
    pub(crate) list: Vec<Edge>,
    /// How many they are.
    pub(crate) count: u64,
}

// whether an ascending list has the id
fn has_id(ids: &[NodeId], id: NodeId) -> bool
    requires { IsAscending ids.now }
    ensures { result ≡ has ids.now id }
{
    ids.binary_search(&id).is_ok()
}

// whether an edge is active and leads from this supervoxel, as its lesser end, to one of an
// ascending list
#[tactic(auto, unfolding(crate::specs::Taking::starts))]
fn starts(to: &[NodeId], sv: NodeId, edge: &Edge) -> bool
    requires { IsAscending to.now }
    ensures { result ≡ starts to.now sv edge.now }
{
    edge.active && sv == edge.pair.a && has_id(to, edge.pair.b)
}

// puts an edge behind the others, unless as many as are allowed are there
fn keep(list: &mut Vec<Edge>, edge: Edge, most: usize) -> Result<(), NoMemory>
    ensures { (met : List Edge) → list.old.items ≡ take most met → OnOk result (list.new.items ≡ take most (met ++ edge ∷ [])) }
{
    if list.len() >= most {
        return Ok(());
    }
    match list.push(edge) {
        Ok(()) => Ok(()),
        Err(_) => Err(NoMemory),
    }
}

// meets one more edge
fn meet(met: &mut Met, edge: Edge, most: usize) -> Result<(), NoMemory>
    requires { met.old.count + 1 < 2 ^ 64 }
    ensures met { (edges : List Edge) → AreMet most edges met.old → OnOk result (AreMet most (edges ++ edge ∷ []) met.new) }
    ensures count { OnOk result (met.new.count ≡ met.old.count + 1) }
{
    keep(&mut met.list, edge, most)?;
    met.count += 1;
    Ok(())
}

/// Meets those edges of a supervoxel that lead from it, as their lesser end, to one of an ascending
/// list, and are active.
///
/// # Errors
///
/// `NoMemory` where the list can't grow.
pub(crate) fn meet_own(
    met: &mut Met,
    to: &[NodeId],
    sv: NodeId,
    own: &[Edge],
    most: usize,
) -> Result<(), NoMemory>
    requires ascending { IsAscending to.now }
    requires room { met.old.count + length own.now < 2 ^ 64 }
    ensures met { (edges : List Edge) → AreMet most edges met.old → OnOk result (AreMet most (edges ++ filter (starts to.now sv) own.now) met.new) }
{
    for edge in own {
        if starts(to, sv, edge) {
            meet(met, *edge, most)?;
        }
    }
    Ok(())
}
