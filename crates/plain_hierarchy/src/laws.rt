//! Laws over the first entry.

ghost use Rattle.plain_hierarchy.specs.Laws.{SmallBasesAreLegal};

/// A base of at most 255 supervoxels begins a legal log, since each label is at most the number of supervoxels, and
/// each layer of each layout has room for 255 labels in a chunk.
pub fn small_bases_are_legal()
    ensures { SmallBasesAreLegal }
{}
