//! Laws, each the contract of a function that does nothing.

ghost use Rattle.child_counts.specs.Counting.{ChildrenAreCounted};

/// The children of the nodes that an entry makes in a layer are as many as the places that stand for
/// themselves in the layer below and lead to the least leaf of such a node.
pub fn children_are_counted()
    ensures { ChildrenAreCounted }
{}
