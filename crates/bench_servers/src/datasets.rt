//! Datasets of given bits, grid and capacity.

ghost use Rattle.std.specs.Prelude.{IfSome};
ghost use Rattle.op_model.specs.Valid.{IsDataset};

use chunk_geometry::Grid;
use node_ids::Layout;
use op_model::Dataset;

/// A dataset whose merges add edges of affinity 1. There is one for 8 to 16 bits a coordinate, for 1
/// to 256 base chunks along each axis, and for 2 to 16,777,216 records.
pub fn dataset(bits: u8, grid: (u32, u32, u32), capacity: u32) -> Option<Dataset>
    ensures { IfSome result IsDataset }
{
    let Ok(layout) = Layout::new(bits) else {
        return None;
    };
    let Ok(grid) = Grid::new(grid.0, grid.1, grid.2) else {
        return None;
    };
    if capacity < 2 || capacity > 16777216 {
        return None;
    }
    if layout.bits() < 8 || grid.nx() > 256 || grid.ny() > 256 || grid.nz() > 256 {
        return None;
    }
    Some(Dataset {
        layout,
        grid,
        merge_affinity: 1,
        capacity,
    })
}
