//! Whether calls answer what is wanted: at each prefix, at each time, and lists.

ghost use Rattle.std.specs.Prelude.{◌≡◌};
ghost use Rattle.row_tests.specs.Kinds.{IsSample};

use crate::calls::{edge_row, edges_at, links_at, nodes_at};
use crate::entry_calls::count_at;
use crate::names::*;
use log_rows::TimeRefusal;
use node_ids::NodeId;
use op_model::{
    Asked, AskedPair, Changed, ChangedPairs, Edge, EdgeList, Edit, Entry, Ids, Pair, Weight,
};
use pcg_base::{NoMemory, VecWords};
use row_words::Spot;
use std::alloc::Global;

/// An edge with its affinity and its state.
pub type Joins = (u64, u64, u32, bool);

pub fn are_ids(ids: &Ids, wanted: &[u64]) -> bool {
    let list = ids.list.as_slice();
    for (id, x) in list.iter().zip(wanted.iter()) {
        if id.0 != *x {
            return false;
        }
    }
    list.len() == wanted.len()
}

pub fn are_lists(found: &Option<(Ids, Ids)>, children: &[u64], leaves: &[u64]) -> bool {
    match found {
        Some((below, all)) => are_ids(below, children) && are_ids(all, leaves),
        None => false,
    }
}

/// Whether the parents of a node or a supervoxel stand at these places at the prefixes from 1 on, and
/// its newest link at this one.
pub fn has_parents(w: &mut VecWords, place: u32, last: u32, wanted: &[u32]) -> bool
    requires sample { IsSample w.old.words }
    ensures same { w.new ≡ w.old }
{
    let mut prefix: u32 = 1;
    for x in wanted {
        if links_at(w, place, prefix) != Some((Some(Spot(*x)), Some(Spot(last)))) {
            return false;
        }
        prefix = prefix.wrapping_add(1);
    }
    true
}

/// Whether the same is answered whatever record is kept as the hint of the node or supervoxel.
pub fn has_parents_by_hints(w: &mut VecWords, place: u32, last: u32, wanted: &[u32]) -> bool
    requires sample { IsSample w.old.words }
    ensures same { w.new ≡ w.old }
{
    for hint in 0..80 {
        w.set_hint(place as u64, hint);
        if !has_parents(w, place, last, wanted) {
            return false;
        }
    }
    true
}

// one record as the hint of each
fn keep_all(w: &mut VecWords, hint: u64)
    ensures same { w.new ≡ w.old }
{
    for k in 0..80 {
        w.set_hint(k, hint);
    }
}

/// Whether the same is answered whatever record is kept as the hint of each link, where the newest
/// link is that of the node or supervoxel.
pub fn has_parents_by_links(w: &mut VecWords, place: u32, last: u32, wanted: &[u32]) -> bool
    requires sample { IsSample w.old.words }
    ensures same { w.new ≡ w.old }
{
    for hint in 0..80 {
        keep_all(w, hint);
        w.set_hint(place as u64, last as u64);
        if !has_parents(w, place, last, wanted) {
            return false;
        }
    }
    true
}

/// Whether a supervoxel has these nodes in layer 2, and these roots, at the prefixes from 1 on.
pub fn has_paths(w: &mut VecWords, place: u32, wanted: &[(u64, u64)]) -> bool
    requires sample { IsSample w.old.words }
    ensures same { w.new ≡ w.old }
{
    let mut prefix: u32 = 1;
    for x in wanted {
        if nodes_at(w, place, prefix) != Some([x.0, x.1, x.1]) {
            return false;
        }
        prefix = prefix.wrapping_add(1);
    }
    true
}

/// A pair and the state that an entry gave it.
pub fn change(a: u64, b: u64, active: bool) -> Changed {
    Changed {
        pair: Pair {
            a: NodeId(a),
            b: NodeId(b),
        },
        active,
    }
}

fn edge(x: Joins) -> Edge {
    Edge {
        pair: Pair {
            a: NodeId(x.0),
            b: NodeId(x.1),
        },
        weight: Weight::Affinity(x.2),
        active: x.3,
    }
}

fn are_edges(edges: &EdgeList, wanted: &[Joins]) -> bool {
    let list = edges.list.as_slice();
    for (found, x) in list.iter().zip(wanted.iter()) {
        if *found != edge(*x) {
            return false;
        }
    }
    list.len() == wanted.len()
}

/// Whether an edge has these states at the prefixes from 1 on, and this last change.
pub fn has_states(w: &mut VecWords, place: u32, last: u32, wanted: &[bool]) -> bool
    requires sample { IsSample w.old.words }
    ensures same { w.new ≡ w.old }
{
    let mut prefix: u32 = 1;
    for x in wanted {
        if edge_row(w, place, prefix) != Some((Some(Spot(last)), *x)) {
            return false;
        }
        prefix = prefix.wrapping_add(1);
    }
    true
}

/// Whether a supervoxel has these edges at the prefixes from 1 on.
pub fn has_edge_lists(
    alloc: Global,
    w: &mut VecWords,
    place: u32,
    wanted: &[&[Joins]],
) -> Result<bool, NoMemory>
    requires sample { IsSample w.old.words }
    ensures same { w.new ≡ w.old }
{
    let mut prefix: u32 = 1;
    for x in wanted {
        let edges = edges_at(alloc, w, place, prefix)?;
        if !are_edges(&edges, *x) {
            return Ok(false);
        }
        prefix = prefix.wrapping_add(1);
    }
    Ok(true)
}

/// Whether so many entries were there at these times, or the time is refused.
pub fn has_times(w: &mut VecWords, wanted: &[(u64, Result<u32, TimeRefusal>)]) -> bool
    requires sample { IsSample w.old.words }
    ensures same { w.new ≡ w.old }
{
    for x in wanted {
        if count_at(w, x.0) != x.1 {
            return false;
        }
    }
    true
}

fn is_merge(asked: &Asked) -> bool {
    match asked {
        Asked::Edit(Edit::Merge { pairs }) => pairs.list.as_slice()
            == [AskedPair {
                a: NodeId(R),
                b: NodeId(S),
            }]
            .as_slice(),
        _ => false,
    }
}

/// Whether these are what was asked, what changed and the whole entry of the merge of r and s.
pub fn are_merge(found: &Option<(Asked, ChangedPairs, Entry)>) -> bool {
    match found {
        Some((asked, changed, entry)) => is_merge(asked)
            && changed.list.as_slice() == [change(R, S, true)].as_slice()
            && is_entry(entry),
        None => false,
    }
}

fn is_entry(found: &Entry) -> bool {
    (found.number, found.at) == (1, 1010)
        && (found.client, found.line) == (1, 1)
        && is_merge(&found.asked)
        && found.changed.list.as_slice() == [change(R, S, true)].as_slice()
        && are_ids(&found.retired, &[TOP_1, TOP_2])
        && are_ids(&found.made, &[TOP_3])
}
