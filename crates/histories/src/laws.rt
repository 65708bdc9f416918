//! Laws of whole histories, each the contract of a function that does nothing.

ghost use Rattle.histories.specs.Histories.{IdsStay, LeavesAreJoined, LiveRootsAreCounted, OfEachLog, RootsAreJoined};

/// At each published time of a legal log two supervoxels share a root just where a walk of active
/// edges joins them.
pub fn roots_are_joined()
    ensures { OfEachLog RootsAreJoined }
{}

/// At each published time of a legal log the leaves of a supervoxel's root are its component.
pub fn leaves_are_joined()
    ensures { OfEachLog LeavesAreJoined }
{}

/// No id of a superseded node of a legal log comes back.
pub fn ids_stay()
    ensures { OfEachLog IdsStay }
{}

/// Each entry of a legal log takes as many live roots away as it retired, and puts as many there as
/// it made.
pub fn live_roots_are_counted()
    ensures { LiveRootsAreCounted }
{}
