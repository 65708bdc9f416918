//! One read of words each, and whether its reply is what is wanted. A reply is also to have seen so
//! many entries.

ghost use Rattle.std.specs.Prelude.{◌≡◌};
ghost use Rattle.row_tests.specs.Logs.{HoldsLog, TellsLog};

use crate::replies::{are_changes, are_leaves, is_path, is_refused, is_root};
use node_ids::NodeId;
use op_model::{PathIds, Read, Refusal, Summary};
use pcg_base::{NoMemory, VecWords};
use std::alloc::Global;
use timestamp_reader::answer;

/// Whether a supervoxel has this root.
#[tactic(auto, using(crate::proofs::Images::told_parents))]
pub fn has_root(
    alloc: Global,
    w: &mut VecWords,
    sv: NodeId,
    at: Option<u64>,
    root: NodeId,
    seen: u32,
) -> bool
    requires tells { TellsLog w.old.words }
    ensures same { w.new ≡ w.old }
{
    let request = Read::Root { sv, at };
    let reply = answer(alloc, w, &request);
    is_root(&reply, root, seen)
}

/// Whether a supervoxel has this path.
#[tactic(auto, using(crate::proofs::Images::told_parents))]
pub fn has_path(
    alloc: Global,
    w: &mut VecWords,
    sv: NodeId,
    at: Option<u64>,
    path: &PathIds,
    seen: u32,
) -> bool
    requires tells { TellsLog w.old.words }
    ensures same { w.new ≡ w.old }
{
    let request = Read::Path { sv, at };
    let reply = answer(alloc, w, &request);
    is_path(&reply, path, seen)
}

/// Whether a root has these leaves.
#[tactic(auto, using(crate::proofs::Images::told_parents))]
pub fn has_leaves(
    alloc: Global,
    w: &mut VecWords,
    root: NodeId,
    at: Option<u64>,
    leaves: &[NodeId],
    seen: u32,
) -> Result<bool, NoMemory>
    requires tells { TellsLog w.old.words }
    ensures same { w.new ≡ w.old }
{
    let request = Read::Leaves { root, at };
    let reply = answer(alloc, w, &request);
    are_leaves(&reply, leaves, seen)
}

/// Whether a root has these changes.
#[tactic(auto, using(crate::proofs::Images::held_log))]
pub fn has_changes(
    alloc: Global,
    w: &mut VecWords,
    root: NodeId,
    at: Option<u64>,
    changes: &[Summary],
    seen: u32,
) -> Result<bool, NoMemory>
    requires holds { HoldsLog w.old.words }
    ensures same { w.new ≡ w.old }
{
    let request = Read::Changes { root, at };
    let reply = answer(alloc, w, &request);
    are_changes(&reply, changes, seen)
}

/// Whether a read of a supervoxel's root is refused like this.
#[tactic(auto, using(crate::proofs::Images::told_parents))]
pub fn root_is_refused(
    alloc: Global,
    w: &mut VecWords,
    sv: NodeId,
    at: Option<u64>,
    refusal: &Refusal,
    seen: u32,
) -> bool
    requires tells { TellsLog w.old.words }
    ensures same { w.new ≡ w.old }
{
    let request = Read::Root { sv, at };
    let reply = answer(alloc, w, &request);
    is_refused(&reply, refusal, seen)
}

/// Whether a read of a supervoxel's path is refused like this.
#[tactic(auto, using(crate::proofs::Images::told_parents))]
pub fn path_is_refused(
    alloc: Global,
    w: &mut VecWords,
    sv: NodeId,
    at: Option<u64>,
    refusal: &Refusal,
    seen: u32,
) -> bool
    requires tells { TellsLog w.old.words }
    ensures same { w.new ≡ w.old }
{
    let request = Read::Path { sv, at };
    let reply = answer(alloc, w, &request);
    is_refused(&reply, refusal, seen)
}

/// Whether a read of a root's leaves is refused like this.
#[tactic(auto, using(crate::proofs::Images::told_parents))]
pub fn leaves_are_refused(
    alloc: Global,
    w: &mut VecWords,
    root: NodeId,
    at: Option<u64>,
    refusal: &Refusal,
    seen: u32,
) -> bool
    requires tells { TellsLog w.old.words }
    ensures same { w.new ≡ w.old }
{
    let request = Read::Leaves { root, at };
    let reply = answer(alloc, w, &request);
    is_refused(&reply, refusal, seen)
}
