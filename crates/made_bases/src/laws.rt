//! Laws of what the made tables spell, each the contract of a function that does nothing.

ghost use Rattle.made_bases.specs.Laws.{SupervoxelsAreRead, TablesAreRead};

/// The records of the made supervoxel table mean the supervoxels, in their order.
pub fn supervoxels_are_read()
    ensures { SupervoxelsAreRead }
{}

/// The made tables spell a base: all supervoxels and edges that were made, ascending. So no edge is
/// made twice, and none between a supervoxel and itself.
pub fn tables_are_read()
    ensures { TablesAreRead }
{}
