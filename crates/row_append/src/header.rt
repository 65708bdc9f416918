//! The words of a header.

ghost use Rattle.std.specs.Prelude.{◌≡◌};
ghost use Rattle.record_rows.specs.Words.{grid_word as word_of_grid, layout_word as word_of_layout};

use chunk_geometry::Grid;
use node_ids::Layout;

/// The word that states a layout, and that the record is a header.
#[tactic(auto, unfolding(record_rows::specs::Words::layout_word))]
pub(crate) fn layout_word(layout: Layout) -> u64
    ensures { result ≡ word_of_layout layout }
{
    1 + layout.bits() as u64 * 256 + (layout.version() as u64 - 1) * 65536
}

/// The word that states a grid of base chunks.
#[tactic(auto, unfolding(record_rows::specs::Words::grid_word))]
pub(crate) fn grid_word(grid: Grid) -> u64
    ensures { result ≡ word_of_grid grid }
{
    grid.nx() as u64 + grid.ny() as u64 * 1048576 + grid.nz() as u64 * 1099511627776
}
