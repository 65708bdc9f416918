//! Laws over the definitions, each the contract of a function that does nothing. They are written
//! out in `specs/Laws.antt`.

ghost use Rattle.node_reader.specs.Laws.{LeavesAreJoined, LeavesAreTold};

/// The record of a root has just the leaves that op_model's `leaves` answers for it, at any log that
/// has the record.
pub fn leaves_are_told()
    ensures { LeavesAreTold }
{}

/// The record of a supervoxel's node at a prefix has just the leaves that are joined to the
/// supervoxel there, whatever later entries have added.
pub fn leaves_are_joined()
    ensures { LeavesAreJoined }
{}
