//! Pairs, ids and edges in lists.

use node_ids::NodeId;
use op_model::pairs::{contains, has_id, is_linked, pair_between, pair_joins};
use op_model::{Edge, Ids, Pair, Weight};
use std::alloc::{AllocError, Global};

const P: NodeId = NodeId(72057594037927937);

const Q: NodeId = NodeId(72057594037927938);

const R: NodeId = NodeId(72339069014638593);

/// Whether an active edge links its ends, and another one doesn't.
fn is_linked_by_active_edges() -> bool {
    let active = Edge {
        pair: pair_between(Q, P),
        weight: Weight::Affinity(10),
        active: true,
    };
    let cut = Edge {
        pair: pair_between(Q, R),
        weight: Weight::Affinity(7),
        active: false,
    };
    let edges = [active, cut];
    active.pair == Pair { a: P, b: Q }
        && pair_joins(active.pair, Q, P)
        && is_linked(&edges, Q, P)
        && !is_linked(&edges, Q, R)
}

/// Whether a list has the ids that were put into it, and no other.
fn has_its_ids(alloc: Global) -> Result<bool, AllocError> {
    let ids = Ids {
        list: vec![in alloc; P, R]?,
    };
    Ok(contains(&ids, R) && has_id(ids.list.as_slice(), P) && !contains(&ids, Q))
}

#[test]
fn pairs_and_lists(rt: HostRuntime) -> Result<(), AllocError> {
    assert!(rt; is_linked_by_active_edges());
    assert!(rt; has_its_ids(rt.alloc())?);
    Ok(())
}
