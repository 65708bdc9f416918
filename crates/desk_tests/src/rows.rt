//! The rows of four supervoxels: p and q in one base chunk, r and s in the next one, with the edges p-q
//! and q-r active and r-s not.

ghost use Rattle.std.specs.Prelude.{◌≡◌, ◌*◌, ◌<◌, ◌≤◌, ◌+◌, All, IfSome, length};
ghost use Rattle.op_model.specs.Valid.{IsBase, IsDataset};
ghost use Rattle.shared_rows.specs.Origin.{Origin};
ghost use Rattle.shared_rows.specs.Starts.{Opens};
ghost use Rattle.edit_desk.specs.Desk.{IsReady};

use chunk_geometry::Grid;
use hierarchy_build::build;
use node_ids::{Layout, NodeId};
use op_model::{AskedPair, AskedPairs, Base, Dataset, Edit};
use pcg_base::VecWords;
use shared_rows::{Shared, Started};
use std::alloc::Global;
use table_ingest::read_base;

/// The supervoxel r.
pub const R: NodeId = NodeId(72339069014638593);

/// The supervoxel s.
pub const S: NodeId = NodeId(72339069014638594);

/// The number of the greatest root, less its label.
pub const TOP: u64 = 216172782113783808;

/// Two base chunks side by side, and room for so many records.
#[tactic(auto, unfolding(chunk_geometry::specs::Grids::grid_of))]
pub fn dataset(capacity: u32) -> Dataset
    requires { (2 ≤ capacity) × (capacity ≤ 16777216) }
    ensures { IsDataset result }
{
    let layout = Layout::new(8).unwrap();
    let grid = Grid::new(2, 1, 1).unwrap();
    Dataset {
        layout,
        grid,
        merge_affinity: 1,
        capacity,
    }
}

/// The base of the four supervoxels.
fn base_of(alloc: Global, dataset: &Dataset) -> Option<Base>
    ensures { IfSome result (IsBase dataset.now) }
{
    let base = read_base(
        alloc,
        b"supervoxel\n72057594037927937\n72057594037927938\n72339069014638593\n72339069014638594\n",
        b"a,b,affinity,active\n72057594037927937,72057594037927938,10,1\n72057594037927938,72339069014638593,7,1\n72339069014638593,72339069014638594,5,0\n",
        dataset,
    )
    .ok()?;
    Some(base)
}

/// The rows of these words, which are those of the base, with so many passes.
fn start_words(
    alloc: Global,
    words: VecWords,
    dataset: &Dataset,
    _base: &Base,
    clients: u32,
) -> Option<Started>
    ghost told: { Origin }
    requires told { (told.words ≡ words.words) × (told.dataset ≡ dataset.now) }
    requires opens { Opens told }
    requires clients { (0 < clients) × (clients ≤ 64) }
    ensures { IfSome result (λ s. All (IsReady s.shared dataset.now) s.passes.items) }
{
    let Ok(started) = Shared::start(alloc, words, dataset, clients) else {
        return None;
    };
    Some(started)
}

/// The rows of the four supervoxels, with so many passes.
pub fn begin(alloc: Global, dataset: &Dataset, clients: u32) -> Option<Started>
    requires dataset { IsDataset dataset.now }
    requires clients { (0 < clients) × (clients ≤ 64) }
    ensures { IfSome result (λ s. All (IsReady s.shared dataset.now) s.passes.items) }
{
    let base = base_of(alloc, dataset)?;
    let Ok(words) = build(alloc, &base, dataset, 1) else {
        return None;
    };
    start_words(alloc, words, dataset, &base, clients)
}

/// The merge of r and s.
pub fn merge(alloc: Global) -> Option<Edit> {
    let list = Vec::from_slice(alloc, &[AskedPair { a: R, b: S }]).ok()?;
    Some(Edit::Merge {
        pairs: AskedPairs { list },
    })
}
