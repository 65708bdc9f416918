//! The components of a graph whose vertices are numbers and whose links are pairs of them.
//!
//! The promise: [`components`] gives each vertex the least vertex that the pairs join it to, which
//! may be itself. So two vertices have one answer just where a walk of pairs joins them, and the
//! answer names the component. `specs/Joining.antt` states it over the walks of `graph_model`.
//!
//! It is found by traversal: the pairs of each vertex are chained, the chains standing in two flat
//! vectors; then the vertices are taken in order, and from each that has no label yet all that
//! it is joined to are labelled with it. Each pair is looked at twice for its chains and twice in the
//! traversal, so the time is linear in vertices and pairs.
//!
//! - `chains`: the pairs of each vertex
//! - `spread`: the traversal from one vertex
//! - `labels`: the components
#![tactic(auto)]

mod chains;
mod labels;
mod spread;

pub use labels::components;
