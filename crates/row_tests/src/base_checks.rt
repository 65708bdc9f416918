//! Whether the replies to all reads of a base's words are those that the plain program tells. Each
//! read of the log's one entry is asked without a time and at the entry's time.

ghost use Rattle.std.specs.Prelude.{◌≡◌};
ghost use Rattle.row_tests.specs.Logs.{IsBuilt, TellsLog};

use crate::reads::{
    has_leaves, has_path, has_root, leaves_are_refused, path_is_refused, root_is_refused,
};
use crate::wanted::{Wanted, is_known, last_root, leaves_of};
use node_ids::NodeId;
use op_model::{Entry, Refusal};
use pcg_base::{NoMemory, VecWords};
use std::alloc::Global;
use timestamp_reader::entry;

/// The timestamp of the log's one entry, in milliseconds.
pub const AT: u64 = 1000;

/// Whether the log's entry is this one, which changes no pair and retires no root.
#[tactic(auto, using(crate::proofs::Images::built_entry))]
pub fn has_entry(alloc: Global, w: &mut VecWords, wanted: &Entry) -> Result<bool, NoMemory>
    requires built { IsBuilt w.old.words }
    ensures same { w.new ≡ w.old }
{
    let found = entry(alloc, w, 0)?;
    Ok(is_entry(&found, wanted))
}

fn is_entry(found: &Entry, wanted: &Entry) -> bool {
    found.number == wanted.number
        && found.at == wanted.at
        && found.changed.list.is_empty()
        && found.retired.list.is_empty()
        && found.made.list.as_slice() == wanted.made.list.as_slice()
}

/// Whether a supervoxel has its root and its path at a time.
fn has_own_nodes(alloc: Global, w: &mut VecWords, x: &Wanted, at: Option<u64>) -> bool
    requires tells { TellsLog w.old.words }
    ensures same { w.new ≡ w.old }
{
    has_root(alloc, w, x.sv, at, x.root, 1) && has_path(alloc, w, x.sv, at, &x.path, 1)
}

/// Whether each supervoxel has its root and its path.
pub fn has_nodes(alloc: Global, w: &mut VecWords, wanted: &[Wanted]) -> bool
    requires tells { TellsLog w.old.words }
    ensures same { w.new ≡ w.old }
{
    for x in wanted {
        if !has_own_nodes(alloc, w, x, None) {
            return false;
        }
        if !has_own_nodes(alloc, w, x, Some(AT)) {
            return false;
        }
    }
    true
}

/// Whether a root has the supervoxels that have it.
fn has_own_leaves(
    alloc: Global,
    w: &mut VecWords,
    wanted: &[Wanted],
    root: NodeId,
) -> Result<bool, NoMemory>
    requires tells { TellsLog w.old.words }
    ensures same { w.new ≡ w.old }
{
    let leaves = leaves_of(alloc, wanted, root)?;
    Ok(
        has_leaves(alloc, w, root, None, leaves.as_slice(), 1)?
            && has_leaves(alloc, w, root, Some(AT), leaves.as_slice(), 1)?,
    )
}

/// Whether each root has its leaves.
pub fn has_all_leaves(alloc: Global, w: &mut VecWords, wanted: &[Wanted]) -> Result<bool, NoMemory>
    requires tells { TellsLog w.old.words }
    ensures same { w.new ≡ w.old }
{
    for x in wanted {
        if !has_own_leaves(alloc, w, wanted, x.root)? {
            return Ok(false);
        }
    }
    Ok(true)
}

/// Whether reads of a supervoxel and its root are refused like this at a time.
fn refuses_time(alloc: Global, w: &mut VecWords, x: &Wanted, at: u64, refusal: &Refusal) -> bool
    requires tells { TellsLog w.old.words }
    ensures same { w.new ≡ w.old }
{
    root_is_refused(alloc, w, x.sv, Some(at), refusal, 1)
        && leaves_are_refused(alloc, w, x.root, Some(at), refusal, 1)
}

/// Whether each read is refused a millisecond before the entry's time, and one behind it.
pub fn refuses_times(alloc: Global, w: &mut VecWords, wanted: &[Wanted]) -> bool
    requires tells { TellsLog w.old.words }
    ensures same { w.new ≡ w.old }
{
    let early = Refusal::TooEarly { first: AT };
    let late = Refusal::Unpublished { latest: AT };
    for x in wanted {
        if !refuses_time(alloc, w, x, AT - 1, &early) {
            return false;
        }
        if !refuses_time(alloc, w, x, AT + 1, &late) {
            return false;
        }
    }
    true
}

/// Whether an id is no supervoxel's, or refused as a supervoxel.
fn refuses_unknown(alloc: Global, w: &mut VecWords, wanted: &[Wanted], id: NodeId) -> bool
    requires tells { TellsLog w.old.words }
    ensures same { w.new ≡ w.old }
{
    if is_known(wanted, id) {
        return true;
    }
    let refusal = Refusal::NoSuchSupervoxel { id };
    path_is_refused(alloc, w, id, Some(AT), &refusal, 1)
}

/// Whether the ids next to each supervoxel and its root are refused as supervoxels, unless they are.
pub fn refuses_others(alloc: Global, w: &mut VecWords, wanted: &[Wanted]) -> bool
    requires tells { TellsLog w.old.words }
    ensures same { w.new ≡ w.old }
{
    for x in wanted {
        if !refuses_unknown(alloc, w, wanted, NodeId(x.sv.0.wrapping_add(1))) {
            return false;
        }
        if !refuses_unknown(alloc, w, wanted, x.root) {
            return false;
        }
    }
    true
}

/// Whether an id is refused like this as a root.
fn refuses_root(alloc: Global, w: &mut VecWords, root: NodeId, refusal: &Refusal) -> bool
    requires tells { TellsLog w.old.words }
    ensures same { w.new ≡ w.old }
{
    leaves_are_refused(alloc, w, root, None, refusal, 1)
}

/// Whether the id behind the last root is refused as one that no entry made, and each supervoxel and
/// each node of layer 2 that is no root as one that can't be a root.
pub fn refuses_roots(alloc: Global, w: &mut VecWords, wanted: &[Wanted]) -> bool
    requires tells { TellsLog w.old.words }
    ensures same { w.new ≡ w.old }
{
    for x in wanted {
        let id = x.sv;
        if !refuses_root(alloc, w, id, &Refusal::NotARoot { id }) {
            return false;
        }
        let id = x.path.nodes[0];
        if id != x.root && !refuses_root(alloc, w, id, &Refusal::NotARoot { id }) {
            return false;
        }
    }
    let id = NodeId(last_root(wanted).0.wrapping_add(1));
    refuses_root(alloc, w, id, &Refusal::NoSuchRoot { id })
}
