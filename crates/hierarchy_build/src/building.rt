//! The words of a base and its first entry.

ghost use Rattle.std.specs.Prelude.{◌≡◌, ◌<◌, ◌≤◌, ◌-◌, ◌+◌, ◌*◌, ◌^◌, ℕ, length, min, IfOk, IfErr, OnOk};
ghost use Rattle.op_model.specs.Legal.{LabelsFit};
ghost use Rattle.op_model.specs.Records.{records};
ghost use Rattle.op_model.specs.Valid.{IsBase, IsDataset};
ghost use Rattle.record_rows.specs.Readings.{Image};
ghost use Rattle.op_model.specs.Ingest.{ingested};
ghost use Rattle.octree_layers.specs.Layers.{all_nodes};
ghost use Rattle.hierarchy_build.specs.Links.{AreBuilt};
ghost use Rattle.octree_layers.specs.Places.{ArePlaces};
ghost use Rattle.op_model.specs.declared.base.Base.{Base as TheBase};
ghost use Rattle.hierarchy_build.specs.Built.{AreLists, IsFull, IsListed, IsRefused, Tells};
ghost use Rattle.hierarchy_build.specs.declared.errors.BuildError.{BuildError as TheBuildError};
ghost use Rattle.hierarchy_build.specs.declared.errors.BuildError.TheVariants as builds;

use crate::chunking::{base_chunks, base_nodes, chunk_count};
use crate::counting::records_of;
use crate::errors::BuildError;
use crate::linking::base_links;
use base_rows::{BaseEdge, BaseLists, base_words};
use node_ids::NodeId;
use octree_layers::layers::{Layer, build_layers};
use octree_layers::lists::ids_of;
use octree_layers::{LayersError, base_edges, edge_places};
use op_model::{Base, Dataset};
use pcg_base::{NoMemory, VecWords};
use std::alloc::Global;

/// The greatest timestamp, in milliseconds.
const LATEST: u64 = 4611686018427387903;

// the records between the supervoxels and the first entry
fn lists_of(
    alloc: Global,
    dataset: &Dataset,
    base: &Base,
    layers: &[Layer],
    ends: Vec<BaseEdge>,
) -> Result<BaseLists, NoMemory>
    requires built { AreBuilt dataset.now base.now layers.now }
    requires places { ArePlaces base.now ends.items }
    requires few { length base.now.supervoxels + length (all_nodes base.now layers.now) < 2 ^ 32 }
    ensures { IfOk result (λ x. AreLists dataset.now base.now layers.now x) }
{
    Ok(BaseLists {
        chunks: base_chunks(alloc, dataset, base, layers)?,
        edges: base_edges(dataset, base, ends),
        nodes: base_nodes(alloc, dataset, base, layers)?,
        links: base_links(alloc, base, layers)?,
    })
}

// why the records aren't built where the layers aren't
fn error_of(dataset: &Dataset, error: LayersError) -> BuildError
    ensures { Tells dataset.now error result }
{
    match error {
        LayersError::IdsSpent { layer, chunk } => {
            let parts = dataset.layout.unpack(chunk);
            BuildError::IdsSpent {
                layer,
                x: parts.x,
                y: parts.y,
                z: parts.z,
            }
        }
        LayersError::NoMemory => BuildError::NoMemory,
    }
}

// the lists of a base whose records can be had
fn listed(alloc: Global, base: &Base, dataset: &Dataset) -> Result<BaseLists, BuildError>
    requires dataset { IsDataset dataset.now }
    requires base { IsBase dataset.now base.now }
    ensures listed { IfOk result (λ x. IsListed dataset.now base.now x) }
    ensures refused { IfErr result (λ e. IsRefused dataset.now base.now e) }
    ensures fits { OnOk result ((e : TheBuildError) → IsFull dataset.now base.now e → ⊥) }
{
    if ids_of(base).len() > u32::MAX as usize {
        return Err(BuildError::NoMemory);
    }
    let Ok(ends) = edge_places(alloc, dataset, base) else {
        return Err(BuildError::NoMemory);
    };
    let layers = match build_layers(alloc, dataset, base, &ends) {
        Ok(layers) => layers,
        Err(error) => return Err(error_of(dataset, error)),
    };
    let need = records_of(base, &layers, chunk_count(dataset, base, &layers));
    if need > dataset.capacity as u64 {
        return Err(BuildError::TooSmall {
            need,
            given: dataset.capacity,
        });
    }
    match lists_of(alloc, dataset, base, &layers, ends) {
        Ok(lists) => Ok(lists),
        Err(_) => Err(BuildError::NoMemory),
    }
}

// the words of the log of the first entry, from the base's lists
fn words_of(
    alloc: Global,
    dataset: &Dataset,
    ids: &[NodeId],
    lists: BaseLists,
    at: u64,
) -> Result<VecWords, BuildError>
    requires listed { (b : TheBase) × (ids.now ≡ b.supervoxels) × IsListed dataset.now b lists }
    requires at { at < 2 ^ 62 }
    ensures image { IfOk result (λ w. (b : TheBase) → ids.now ≡ b.supervoxels
        → IsListed dataset.now b lists
        → Image dataset.now b (ingested dataset.now b at) w.words) }
    ensures room { IfOk result (λ w. 8 * dataset.now.capacity ≤ length w.words + w.spare) }
    ensures refused { IfErr result (λ e. e ≡ builds.NoMemory) }
{
    match base_words(alloc, dataset, ids, lists, at) {
        Ok(words) => Ok(words),
        Err(_) => Err(BuildError::NoMemory),
    }
}

/// The words of the log of a base's first entry, with room for all further records of the dataset's
/// capacity. The entry's timestamp is `now` in milliseconds, or 2^62 - 1 where `now` is greater.
///
/// Time is n log n in supervoxels, edges and nodes, and linear in the layers times the supervoxels.
///
/// # Errors
///
/// `IdsSpent` exactly where a chunk has more nodes than its ids have numbers; else `TooSmall` exactly
/// where more records are needed than the capacity; `NoMemory` where there is none for the work, and
/// for a base of 2^32 supervoxels or more, whose places need more than 32 bits.
pub fn build(
    alloc: Global,
    base: &Base,
    dataset: &Dataset,
    now: u64,
) -> Result<VecWords, BuildError>
    requires dataset { IsDataset dataset.now }
    requires base { IsBase dataset.now base.now }
    ensures image { IfOk result (λ w. Image dataset.now base.now
        (ingested dataset.now base.now (min now (2 ^ 62 - 1))) w.words) }
    ensures room { IfOk result (λ w. 8 * dataset.now.capacity ≤ length w.words + w.spare) }
    ensures refused { IfErr result (λ e. IsRefused dataset.now base.now e) }
    ensures fits { OnOk result ((e : TheBuildError) → IsFull dataset.now base.now e → ⊥) }
{
    let lists = match listed(alloc, base, dataset) {
        Ok(lists) => lists,
        Err(error) => return Err(error),
    };
    words_of(alloc, dataset, ids_of(base), lists, now.min(LATEST))
}

/// The same of a base that is let go. Its edges go before their records are made, so that they don't
/// stand in memory twice.
pub fn build_from(
    alloc: Global,
    base: Base,
    dataset: &Dataset,
    now: u64,
) -> Result<VecWords, BuildError>
    requires dataset { IsDataset dataset.now }
    requires base { IsBase dataset.now base }
    ensures image { IfOk result (λ w. Image dataset.now base
        (ingested dataset.now base (min now (2 ^ 62 - 1))) w.words) }
    ensures room { IfOk result (λ w. 8 * dataset.now.capacity ≤ length w.words + w.spare) }
    ensures refused { IfErr result (λ e. IsRefused dataset.now base e) }
    ensures fits { OnOk result ((e : TheBuildError) → IsFull dataset.now base e → ⊥) }
{
    let lists = match listed(alloc, &base, dataset) {
        Ok(lists) => lists,
        Err(error) => return Err(error),
    };
    let Base { supervoxels, edges } = base;
    drop(edges);
    words_of(
        alloc,
        dataset,
        supervoxels.list.as_slice(),
        lists,
        now.min(LATEST),
    )
}
