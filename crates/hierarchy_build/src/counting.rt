//! How many records a base and its first entry take.

ghost use Rattle.std.specs.Prelude.{◌≡◌, ◌<◌, ◌≤◌, ◌+◌, ◌-◌, ◌^◌, ℕ, Some, length, sum_by};
ghost use Rattle.std.specs.List.{slice_get};
ghost use Rattle.op_model.specs.declared.base.Dataset.{Dataset};
ghost use Rattle.op_model.specs.Records.{records};
ghost use Rattle.record_rows.specs.LogRows.{chunks};
ghost use Rattle.op_model.specs.Ingest.{ingested};
ghost use Rattle.octree_layers.specs.declared.layers.Layer.{Layer};
ghost use Rattle.octree_layers.specs.Layers.{all_nodes};
ghost use Rattle.hierarchy_build.specs.Links.{AreBuilt};

use octree_layers::layers::Layer;
use octree_layers::lists::{edges_of, ids_of};
use op_model::Base;

// how many nodes all layers have together
fn node_count(layers: &[Layer]) -> u64
    requires few { sum_by (λ l. length l.made.items) layers.now < 2 ^ 40 }
    ensures few { result < 2 ^ 40 }
    ensures is { result ≡ sum_by (λ l. length l.made.items) layers.now }
{
    let mut count = 0;
    for layer in layers {
        count += layer.made.len() as u64;
    }
    count
}

// how many nodes the last layer has
fn root_count(layers: &[Layer]) -> u64
    ensures is { (l : Layer) → slice_get layers.now (length layers.now - 1) ≡ Some l → result ≡ length l.made.items }
    ensures few { result ≤ sum_by (λ l. length l.made.items) layers.now }
{
    match layers.last() {
        Some(layer) => layer.made.len() as u64,
        None => 0,
    }
}

/// How many records the base and its first entry take: the header, the supervoxels, the chunks that
/// hold one, the edges, the nodes, a link for each supervoxel and each node that is no root, and the
/// entry. `chunk_count` is how many chunks of all layers hold a supervoxel.
///
/// The base has fewer than 2^32 supervoxels, and the count is at least that of the supervoxels and
/// the nodes together.
pub fn records_of(base: &Base, layers: &[Layer], chunk_count: u64) -> u64
    requires built { (d : Dataset) × AreBuilt d base.now layers.now }
    requires size { length base.now.supervoxels < 2 ^ 32 }
    requires chunks { chunk_count ≤ 2 ^ 62 }
    ensures is { (d : Dataset) (now : ℕ) → AreBuilt d base.now layers.now → chunk_count ≡ length (chunks d base.now) → result ≡ records d base.now (ingested d base.now now) }
    ensures all { length base.now.supervoxels + length (all_nodes base.now layers.now) ≤ result }
{
    let supervoxels = ids_of(base).len() as u64;
    let edges = edges_of(base).len() as u64;
    let nodes = node_count(layers);
    let roots = root_count(layers);
    1 + supervoxels + chunk_count + edges + nodes + (supervoxels + nodes - roots) + 1
}
