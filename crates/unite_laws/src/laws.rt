//! Laws over the definitions, each the contract of a function that does nothing. They are written
//! out in `specs/Laws.antt`.

ghost use Rattle.unite_laws.specs.Laws.{ActivePairsUnite, EndsTellNodes, EntriesHaveOneState};
ghost use Rattle.unite_laws.specs.Worked.{WorkedUnions};

/// Each entry of a legal log gives all its changed pairs one state, all active or all inactive, and
/// the first of them tells which. So does each edit at such a log.
pub fn entries_have_one_state()
    ensures { EntriesHaveOneState }
{}

/// For making a layer anew after an entry that only makes pairs active, with no edge read. Given are
/// the nodes of the layer that had ends of the changed pairs, each told by one of its leaves, and
/// the pairs of them that the changed pairs inside chunks of the layer join. The components of
/// those pairs make the layer's changed nodes: their leaves, their least leaves, their numbers, and
/// their children, which are the old ones with no end and the new ones of the ends.
pub fn active_pairs_unite()
    ensures { ActivePairsUnite }
{}

/// Where the nodes that are united are told by the ends of the changed pairs and the ids of their
/// nodes: when this is what `active_pairs_unite` asks for, and how the pairs of places of one layer
/// serve the next.
pub fn ends_tell_nodes()
    ensures { EndsTellNodes }
{}

/// What is united in a small log that was worked out by hand: nodes told by leaves and by ids, and
/// a node that stands at two places.
pub fn worked_unions()
    ensures { WorkedUnions }
{}
