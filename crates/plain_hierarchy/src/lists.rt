//! Lists of ids.

ghost use Rattle.std.specs.Prelude.{◌≡◌, ◌∷◌, ◌++◌, List, [], IfOk, OnOk};
ghost use Rattle.std.specs.List.{filter};
ghost use Rattle.graph_model.specs.Lists.{has, head_or};
ghost use Rattle.op_model.specs.Operations.{ascending};

use node_ids::NodeId;
use op_model::pairs::has_id;
use op_model::{Edge, EdgeList, Ids};
use pcg_base::NoMemory;
use std::alloc::Global;

// the ids of a list
pub fn ids_of(ids: &Ids) -> &[NodeId]
    ensures { result.now ≡ ids.now }
{
    ids.list.as_slice()
}

// the edges of a list
pub fn edges_of(edges: &EdgeList) -> &[Edge]
    ensures { result.now ≡ edges.now }
{
    edges.list.as_slice()
}

// an id behind a list
pub fn push(ids: &mut Vec<NodeId>, id: NodeId) -> Result<(), NoMemory>
    ensures { OnOk result (ids.new.items ≡ ids.old.items ++ id ∷ []) }
{
    match ids.push(id) {
        Ok(()) => Ok(()),
        Err(_) => Err(NoMemory),
    }
}

// those of a list that are in another one
pub fn keep(alloc: Global, ids: &[NodeId], kept: &[NodeId]) -> Result<Vec<NodeId>, NoMemory>
    ensures { IfOk result (λ v. v.items ≡ filter (has kept.now) ids.now) }
{
    let mut list = Vec::new(alloc);
    for id in ids {
        if has_id(kept, *id) {
            push(&mut list, *id)?;
        }
    }
    Ok(list)
}

// the first of a list, or another id
#[tactic(auto, unfolding(graph_model::specs::Lists::head_or))]
pub fn head_or(ids: &[NodeId], other: NodeId) -> NodeId
    ensures { result ≡ head_or other ids.now }
{
    match ids {
        [] => other,
        [first, ..] => *first,
    }
}

// the same ids ascending, each once
pub fn ascending_ids(ids: Vec<NodeId>) -> Vec<NodeId>
    ensures { result.items ≡ ascending ids.items }
{
    let mut list = ids;
    list.sort_unstable();
    list.dedup();
    list
}
