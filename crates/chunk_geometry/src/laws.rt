//! Laws over grids and chunks, each the contract of a function that does nothing.

ghost use Rattle.chunk_geometry.specs.Laws.{TopHasOneChunk};
ghost use Rattle.chunk_geometry.specs.Worked.{WorkedGrids};

/// The top layer has the one chunk 0, 0, 0.
pub fn top_has_one_chunk()
    ensures { TopHasOneChunk }
{}

/// Grids, chunks and levels that were worked out by hand.
pub fn worked_grids()
    ensures { WorkedGrids }
{}
