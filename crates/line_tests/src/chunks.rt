//! Grids, layers and levels.

use chunk_geometry::{Cell, Grid};

/// Whether chunks and levels are as they were found by hand.
fn is_as_by_hand() -> bool {
    let Ok(grid) = Grid::new(8, 7, 5) else {
        return false;
    };
    let a = Cell { x: 5, y: 6, z: 4 };
    let b = Cell { x: 4, y: 6, z: 4 };
    grid.top_layer() == 5
        && grid.holds(a)
        && grid.holds(b)
        && grid.chunk_at(3, a) == Cell { x: 2, y: 3, z: 2 }
        && grid.level(a, b) == 3
}

#[test]
fn chunks_and_levels(rt: HostRuntime) {
    assert!(rt; is_as_by_hand());
}
