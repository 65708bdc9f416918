//! Laws, each the contract of a function that does nothing.

ghost use Rattle.new_ids.specs.NewIds.{ChangedPairsAscend, NewIdsAreFree};

/// The ids of an entry's new nodes differ and stand in no record before it, and none of the pairs
/// that it makes known was changed before.
pub fn new_ids_are_free()
    ensures { NewIdsAreFree }
{}

/// The pairs that an edit changes at a legal log ascend, so that none stands twice.
pub fn changed_pairs_ascend()
    ensures { ChangedPairsAscend }
{}
