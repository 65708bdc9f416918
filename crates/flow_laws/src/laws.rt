//! Laws, each the contract of a function that does nothing. They are written out in
//! `specs/Laws.antt`.

ghost use Rattle.flow_laws.specs.Laws.{ChoicesExist, EditsAreShown, FlowsExist, PlaysExist};

/// If some set of links that aren't glue separates the sources from the sinks, then some flow has
/// the weight of the least cut as its value (Ford and Fulkerson 1956).
pub fn flows_exist()
    ensures { FlowsExist }
{}

/// An edit that a legal log doesn't refuse for its component or its glue can be shown: a split's
/// least cut has a flow beside it.
pub fn edits_are_shown()
    ensures { EditsAreShown }
{}

/// After each run each client has an allowed choice for its next step, whatever the choice says of
/// memory, the clock and the writing of a reply. So no plan is forced to end in want of memory.
pub fn choices_exist()
    ensures { ChoicesExist }
{}

/// After each run each schedule has a play by allowed choices, whatever they say of memory, the
/// clock and the writing of replies. All clients have ended behind it.
pub fn plays_exist()
    ensures { PlaysExist }
{}
