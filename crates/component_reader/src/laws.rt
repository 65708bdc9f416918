//! Laws over the definitions, each the contract of a function that does nothing. They are written
//! out in `specs/Laws.antt`.

ghost use Rattle.component_reader.specs.Laws.{PartsAreAmong};

/// Where all marks of a split have one root, its part of the log is that of the active edges among
/// the root's leaves.
pub fn parts_are_among()
    ensures { PartsAreAmong }
{}
