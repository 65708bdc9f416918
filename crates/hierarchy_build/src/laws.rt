//! A law of the layers, the contract of a function that does nothing.

ghost use Rattle.hierarchy_build.specs.Children.{ChildrenLead};

/// The children of a node above layer 2 are the nodes of the layer below whose least leaf leads to
/// that of the node, in their order. Those of a node of layer 2 are its leaves.
pub fn children_lead()
    ensures { ChildrenLead }
{}
