//! Laws, each the contract of a function that does nothing. They are written out in
//! `specs/Laws.antt`.

ghost use Rattle.change_laws.specs.Laws.{AddedAreMade, ChangesAreVisited, OrderIsFree, OthersAreSkipped, RootsEndOnce};

/// The entries that made or retired an ancestor of a root are those that a walk back from the root
/// meets. The walk needs no leaves: where an entry links a root that it retired to one that it made,
/// an end of one of its changed pairs has the one root before it and the other one after it.
pub fn changes_are_visited()
    ensures { ChangesAreVisited }
{}

/// Entries that neither made nor retired one of the walk's roots may be skipped.
pub fn others_are_skipped()
    ensures { OthersAreSkipped }
{}

/// What an entry adds to the walk's roots was made by older entries, and none of them retired it.
/// So the walk goes next to the last entry that made one of its roots.
pub fn added_are_made()
    ensures { AddedAreMade }
{}

/// The walk visits the same for a list of the same roots, in any order.
pub fn order_is_free()
    ensures { OrderIsFree }
{}

/// Of the entries behind the one that made a root, the first with an end of a changed pair among
/// the root's leaves retires it.
pub fn roots_end_once()
    ensures { RootsEndOnce }
{}
