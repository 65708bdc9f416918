//! The rows of a base of supervoxels without edges.

ghost use Rattle.std.specs.Prelude.{◌≡◌, ◌+◌, ◌*◌, ◌<◌, ◌≤◌, All, IfSome, length};
ghost use Rattle.op_model.specs.Valid.{IsBase, IsDataset};
ghost use Rattle.shared_rows.specs.Origin.{Origin};
ghost use Rattle.shared_rows.specs.Starts.{Opens};
ghost use Rattle.bench_shared.specs.Passes.{IsCount, IsFree};

use chunk_geometry::Grid;
use hierarchy_build::build;
use itoa::Buffer;
use node_ids::{Layout, NodeId, Parts};
use op_model::{Base, Dataset};
use pcg_base::{VecWords, Words};
use shared_rows::{Shared, Started};
use std::alloc::Global;
use table_ingest::read_base;

/// The dataset of so many supervoxels, with room for all records of their base.
#[tactic(auto, unfolding(chunk_geometry::specs::Grids::grid_of))]
fn dataset_of(count: u64) -> Dataset
    requires { IsCount count }
    ensures { IsDataset result }
{
    let layout = Layout::new(8).unwrap();
    let grid = Grid::new(16, 16, 16).unwrap();
    let capacity = count * 15 + 10000;
    Dataset {
        layout,
        grid,
        merge_affinity: 1,
        capacity: capacity as u32,
    }
}

/// The id of the supervoxel with this number: 256 of them make a base chunk.
fn id_of(layout: Layout, number: u64) -> Option<NodeId>
    requires { number < 100000 }
{
    let chunk = number / 256;
    let parts = Parts {
        layer: 1,
        x: (chunk % 16) as u32,
        y: (chunk / 16 % 16) as u32,
        z: (chunk / 256) as u32,
        segment: number % 256 + 1,
    };
    layout.pack(parts).ok()
}

/// Puts the digits of a number behind a text.
fn put_digits(text: &mut Vec<u8>, n: u64) -> Option<()> {
    let mut buffer = Buffer::new();
    text.extend_from_slice(buffer.format(n).as_bytes()).ok()
}

/// The text of the supervoxel table.
fn supervoxel_table(alloc: Global, layout: Layout, count: u64) -> Option<Vec<u8>>
    requires { IsCount count }
{
    let mut text = Vec::from_slice(alloc, b"supervoxel\n").ok()?;
    for number in 0..count {
        let id = id_of(layout, number)?;
        put_digits(&mut text, id.0)?;
        text.push(b'\n').ok()?;
    }
    Some(text)
}

/// The base of so many supervoxels.
fn base_of(alloc: Global, dataset: &Dataset, count: u64) -> Option<Base>
    requires { IsCount count }
    ensures { IfSome result (IsBase dataset.now) }
{
    let supervoxels = supervoxel_table(alloc, dataset.layout, count)?;
    let base = read_base(
        alloc,
        supervoxels.as_slice(),
        b"a,b,affinity,active\n",
        dataset,
    )
    .ok()?;
    Some(base)
}

/// The rows of these words, which are those of the base, with five passes: four readers and one more.
fn start_words(alloc: Global, words: VecWords, dataset: &Dataset, _base: &Base) -> Option<Started>
    ghost told: { Origin }
    requires told { (told.words ≡ words.words) × (told.dataset ≡ dataset.now) }
    requires opens { Opens told }
    ensures { IfSome result (λ s. All (IsFree s.shared) s.passes.items) }
{
    let Ok(started) = Shared::start(alloc, words, dataset, 5) else {
        return None;
    };
    Some(started)
}

/// The rows of a base with five passes, and how many words the base takes.
fn start(alloc: Global, dataset: &Dataset, base: &Base) -> Option<(Started, u64)>
    requires dataset { IsDataset dataset.now }
    requires base { IsBase dataset.now base.now }
    ensures { IfSome result (λ s. All (IsFree s.0.shared) s.0.passes.items) }
{
    let Ok(words) = build(alloc, base, dataset, 1) else {
        return None;
    };
    let length = words.len();
    let started = start_words(alloc, words, dataset, base)?;
    Some((started, length))
}

/// The rows of so many supervoxels with five passes, and how many words their base takes.
pub fn begin(alloc: Global, count: u64) -> Option<(Started, u64)>
    requires { IsCount count }
    ensures { IfSome result (λ s. All (IsFree s.0.shared) s.0.passes.items) }
{
    let dataset = dataset_of(count);
    let base = base_of(alloc, &dataset, count)?;
    start(alloc, &dataset, &base)
}
