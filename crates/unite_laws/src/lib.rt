//! Laws of the layers of the octree after an entry that only makes pairs active.
//!
//! The promise: such an entry unites nodes of each layer. The new nodes are the unions of the old
//! nodes that hold an end of a changed pair, as the changed pairs inside chunks join them. Their
//! children are the old ones with no end and the new ones of the ends, so no edge is read. The first
//! changed pair of an entry tells whether it is such a one. No function has a body.
//!
//! The definitions stand in `specs/` and are best read in this order: `Uniting` (the united nodes,
//! and the pairs of them that changed pairs give), `Laws` (what holds of them). `Worked` evaluates
//! them on the small log of `layer_laws`.
//!
//! - `laws`: the laws, each the contract of a function that does nothing
#![tactic(auto)]

pub mod laws;
