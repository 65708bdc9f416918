//! The calls at the place of a record, where a record of their kind stands there.

ghost use Rattle.std.specs.Prelude.{◌≡◌, true};
ghost use Rattle.row_tests.specs.Kinds.{HasKind, IsOwner, IsSample};

use edge_rows::{edges_of, find_edge, last_change, last_edge, state_at};
use log_rows::{changed, length, next_change};
use node_ids::NodeId;
use op_model::{Changed, EdgeList, Ids, Pair};
use parent_rows::{
    NodeRow, children, chunk, ended, find, first_node, last_node, last_version, next_node, node,
    parent_at,
};
use pcg_base::{NoMemory, VecWords, Words};
use row_words::{Spot, kind_of, supervoxel};
use std::alloc::Global;
use timestamp_reader::{leaves, path_at, root_at};

const SUPERVOXEL: u8 = 2;

const CHUNK: u8 = 3;

const NODE: u8 = 4;

const EDGE: u8 = 6;

const CHANGE: u8 = 7;

/// Whether a record of this kind stands at the place.
fn is_kind(w: &mut VecWords, place: u32, kind: u8) -> bool
    ensures same { w.new ≡ w.old }
    ensures is { result ≡ true → HasKind w.old.words place kind }
{
    if place as u64 >= w.len() / 8 {
        return false;
    }
    kind_of(w, Spot(place)) == kind
}

/// Whether a node or a supervoxel stands at the place.
fn is_owner(w: &mut VecWords, place: u32) -> bool
    requires sample { IsSample w.old.words }
    ensures same { w.new ≡ w.old }
    ensures is { result ≡ true → IsOwner w.old.words place }
{
    is_kind(w, place, NODE) || is_kind(w, place, SUPERVOXEL)
}

/// A node, the next one in its chunk, and the entry below the prefix that retired it.
pub fn node_row(
    w: &mut VecWords,
    place: u32,
    prefix: u32,
) -> Option<(NodeRow, Option<Spot>, Option<u32>)>
    requires sample { IsSample w.old.words }
    ensures same { w.new ≡ w.old }
{
    if is_kind(w, place, NODE) {
        let row = node(w, Spot(place));
        let next = next_node(w, Spot(place));
        let end = ended(w, Spot(place), prefix);
        Some((row, next, end))
    } else {
        None
    }
}

/// The children and the leaves of a node.
pub fn lists_at(alloc: Global, w: &mut VecWords, place: u32) -> Result<Option<(Ids, Ids)>, NoMemory>
    requires sample { IsSample w.old.words }
    ensures same { w.new ≡ w.old }
{
    if is_kind(w, place, NODE) {
        let below = children(alloc, w, Spot(place))?;
        let all = leaves(alloc, w, Spot(place))?;
        Ok(Some((below, all)))
    } else {
        Ok(None)
    }
}

/// The parent of a node or a supervoxel, and its newest link.
pub fn links_at(w: &mut VecWords, place: u32, prefix: u32) -> Option<(Option<Spot>, Option<Spot>)>
    requires sample { IsSample w.old.words }
    ensures same { w.new ≡ w.old }
{
    if is_owner(w, place) {
        let parent = parent_at(w, Spot(place), prefix);
        let last = last_version(w, Spot(place));
        Some((parent, last))
    } else {
        None
    }
}

/// The first and the last node of a chunk.
pub fn chunk_row(w: &mut VecWords, place: u32) -> Option<(Option<Spot>, Option<Spot>)>
    requires sample { IsSample w.old.words }
    ensures same { w.new ≡ w.old }
{
    if is_kind(w, place, CHUNK) {
        let first = first_node(w, Spot(place));
        let last = last_node(w, Spot(place));
        Some((first, last))
    } else {
        None
    }
}

/// The nodes of a supervoxel in the two layers, and its root; `None` at prefixes that the log has not.
pub fn nodes_at(w: &mut VecWords, place: u32, prefix: u32) -> Option<[u64; 3]>
    requires sample { IsSample w.old.words }
    ensures same { w.new ≡ w.old }
{
    let count = length(w);
    if prefix < 1 {
        return None;
    }
    if count < prefix {
        return None;
    }
    if is_kind(w, place, SUPERVOXEL) {
        let path = path_at(w, Spot(place), prefix);
        let root = root_at(w, Spot(place), prefix);
        let lower = path.nodes[0];
        let upper = path.nodes[1];
        Some([lower.0, upper.0, root.0])
    } else {
        None
    }
}

/// The last edge of a supervoxel.
pub fn edge_at(w: &mut VecWords, place: u32) -> Option<Spot>
    requires sample { IsSample w.old.words }
    ensures same { w.new ≡ w.old }
{
    if is_kind(w, place, SUPERVOXEL) {
        last_edge(w, Spot(place))
    } else {
        None
    }
}

pub fn edges_at(
    alloc: Global,
    w: &mut VecWords,
    place: u32,
    prefix: u32,
) -> Result<EdgeList, NoMemory>
    requires sample { IsSample w.old.words }
    ensures same { w.new ≡ w.old }
{
    if prefix > 0 && is_kind(w, place, SUPERVOXEL) {
        edges_of(alloc, w, Spot(place), prefix)
    } else {
        Ok(EdgeList {
            list: Vec::new(alloc),
        })
    }
}

/// The last change of an edge, and its state.
pub fn edge_row(w: &mut VecWords, place: u32, prefix: u32) -> Option<(Option<Spot>, bool)>
    requires sample { IsSample w.old.words }
    ensures same { w.new ≡ w.old }
{
    if is_kind(w, place, EDGE) {
        let last = last_change(w, Spot(place));
        let active = state_at(w, Spot(place), prefix);
        Some((last, active))
    } else {
        None
    }
}

/// What a change says, and the next one of its entry.
pub fn change_row(w: &mut VecWords, place: u32) -> Option<(Changed, Option<Spot>)>
    requires sample { IsSample w.old.words }
    ensures same { w.new ≡ w.old }
{
    if is_kind(w, place, CHANGE) {
        let pair = changed(w, Spot(place));
        let next = next_change(w, Spot(place));
        Some((pair, next))
    } else {
        None
    }
}

/// The places of the records of an id: of a supervoxel or a node, of a chunk, and of a supervoxel.
pub fn places_of(w: &mut VecWords, id: u64) -> (Option<Spot>, Option<Spot>, Option<Spot>)
    requires sample { IsSample w.old.words }
    ensures same { w.new ≡ w.old }
{
    let any = find(w, NodeId(id));
    let of_chunk = chunk(w, NodeId(id));
    let of_supervoxel = supervoxel(w, id);
    (any, of_chunk, of_supervoxel)
}

pub fn edge_of(w: &mut VecWords, a: u64, b: u64) -> Option<Spot>
    requires sample { IsSample w.old.words }
    ensures same { w.new ≡ w.old }
{
    find_edge(
        w,
        Pair {
            a: NodeId(a),
            b: NodeId(b),
        },
    )
}
