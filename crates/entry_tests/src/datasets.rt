//! The datasets of drawn bases.

ghost use Rattle.std.specs.Prelude.{IfSome};
ghost use Rattle.op_model.specs.Valid.{IsDataset};

use chunk_geometry::Grid;
use node_ids::Layout;
use op_model::Dataset;

/// How many base chunks there are along each axis.
const GRIDS: [(u32, u32, u32); 5] = [(1, 1, 1), (2, 1, 1), (2, 2, 1), (3, 2, 2), (4, 4, 4)];

/// The dataset of a number, which tells its grid, its layout's bits and its layout's version.
pub fn dataset_of(number: usize) -> Option<Dataset>
    ensures { IfSome result IsDataset }
{
    let grid = GRIDS[number % 5];
    let bits = if number / 5 % 2 == 0 { 8 } else { 16 };
    let version = if number / 10 % 2 == 0 { 1 } else { 2 };
    dataset(version, bits, grid, 1048576)
}

/// A dataset, if coordinates of so many bits name so many chunks, and the capacity is one.
pub fn dataset(version: u8, bits: u8, grid: (u32, u32, u32), capacity: u32) -> Option<Dataset>
    ensures { IfSome result IsDataset }
{
    let Ok(layout) = Layout::of_version(version, bits) else {
        return None;
    };
    let Ok(grid) = Grid::new(grid.0, grid.1, grid.2) else {
        return None;
    };
    if capacity < 2 || capacity > 16777216 {
        return None;
    }
    if layout.bits() < 8 || grid.nx() > 256 || grid.ny() > 256 || grid.nz() > 256 {
        return None;
    }
    Some(Dataset {
        layout,
        grid,
        merge_affinity: 1,
        capacity,
    })
}
