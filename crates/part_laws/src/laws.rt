//! Laws, each the contract of a function that does nothing.

ghost use Rattle.part_laws.specs.Telling.{PartsAreWhole, PartsTellFirsts, PartsTellNodes};
ghost use Rattle.part_laws.specs.Touched.{TouchedAreParts};

/// Each supervoxel of a part is joined, in each layer, to the same supervoxels by the part's own edges and
/// by the pairs that are active in the whole base (`nodes`). So the part's supervoxels hold whole nodes
/// (`whole`), and the least leaves of the part are those of the whole base (`firsts`).
pub fn parts_tell()
    ensures nodes { PartsTellNodes }
    ensures whole { PartsAreWhole }
    ensures firsts { PartsTellFirsts }
{}

/// The supervoxels of the roots that an entry retires, with the active edges among them as its changed
/// pairs leave them, are a part of the base at the log with the entry.
pub fn touched_are_parts()
    ensures { TouchedAreParts }
{}
