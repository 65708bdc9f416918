//! The root of a supervoxel, with its leaves and its active edges, and replies to reads.

ghost use Rattle.std.specs.Prelude.{◌≡◌, ◌≤◌, true};
ghost use Rattle.bench_servers.specs.Servers.{HasNode, HasSupervoxel, IsServer};

use component_reader::{AmongError, component};
use node_ids::NodeId;
use node_reader::leaves;
use op_model::{Dataset, EdgeList, Ids, Read, Reply};
use parent_rows::find;
use pcg_base::{NoMemory, VecWords};
use root_masks::{is_known, root_now};
use row_words::Spot;
use std::alloc::Global;
use timestamp_reader::answer;

// whether the base has the supervoxel
fn is_here(w: &mut VecWords, dataset: &Dataset, sv: NodeId) -> bool
    requires server { IsServer dataset.now w.old.words w.old.spare }
    ensures same { w.new ≡ w.old }
    ensures is { result ≡ true → HasSupervoxel dataset.now w.old.words sv }
{
    is_known(w, sv)
}

// the root of a supervoxel of the base
fn root_here(w: &mut VecWords, dataset: &Dataset, sv: NodeId) -> NodeId
    requires known { HasSupervoxel dataset.now w.old.words sv }
    ensures same { w.new ≡ w.old }
{
    root_now(w, sv)
}

// the record of the root of a supervoxel of the base
fn root_spot(w: &mut VecWords, dataset: &Dataset, sv: NodeId) -> Spot
    requires known { HasSupervoxel dataset.now w.old.words sv }
    ensures same { w.new ≡ w.old }
    ensures node { HasNode dataset.now w.old.words result }
{
    let root = root_now(w, sv);
    find(w, root).unwrap()
}

// the supervoxels of a node
fn leaves_at(
    alloc: Global,
    w: &mut VecWords,
    dataset: &Dataset,
    spot: Spot,
) -> Result<Ids, NoMemory>
    requires node { HasNode dataset.now w.old.words spot }
    ensures same { w.new ≡ w.old }
{
    leaves(alloc, w, spot)
}

// the active edges among the leaves of a node
fn component_at(
    alloc: Global,
    w: &mut VecWords,
    dataset: &Dataset,
    spot: Spot,
    prefix: u32,
    most: usize,
) -> Result<EdgeList, AmongError>
    requires node { HasNode dataset.now w.old.words spot }
    requires prefix { 1 ≤ prefix }
    ensures same { w.new ≡ w.old }
{
    component(alloc, w, spot, prefix, most)
}

pub(crate) fn root_of(w: &mut VecWords, dataset: &Dataset, sv: NodeId) -> Option<NodeId>
    requires server { IsServer dataset.now w.old.words w.old.spare }
    ensures same { w.new ≡ w.old }
{
    if !is_here(w, dataset, sv) {
        return None;
    }
    Some(root_here(w, dataset, sv))
}

pub(crate) fn leaves_of(
    alloc: Global,
    w: &mut VecWords,
    dataset: &Dataset,
    sv: NodeId,
) -> Result<Ids, NoMemory>
    requires server { IsServer dataset.now w.old.words w.old.spare }
    ensures same { w.new ≡ w.old }
{
    if !is_here(w, dataset, sv) {
        return Ok(Ids {
            list: Vec::new(alloc),
        });
    }
    let spot = root_spot(w, dataset, sv);
    leaves_at(alloc, w, dataset, spot)
}

pub(crate) fn component_of(
    alloc: Global,
    w: &mut VecWords,
    dataset: &Dataset,
    sv: NodeId,
    prefix: u32,
    most: usize,
) -> Result<EdgeList, AmongError>
    requires server { IsServer dataset.now w.old.words w.old.spare }
    ensures same { w.new ≡ w.old }
{
    if !is_here(w, dataset, sv) {
        return Ok(EdgeList {
            list: Vec::new(alloc),
        });
    }
    let spot = root_spot(w, dataset, sv);
    component_at(alloc, w, dataset, spot, prefix.max(1), most)
}

pub(crate) fn reply_of(alloc: Global, w: &mut VecWords, dataset: &Dataset, read: &Read) -> Reply
    requires server { IsServer dataset.now w.old.words w.old.spare }
    ensures same { w.new ≡ w.old }
{
    answer(alloc, w, read)
}
