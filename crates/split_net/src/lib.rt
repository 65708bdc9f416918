//! The least cut of a split: the active edges of a component as a net of vertices, and what a least
//! cut of that net says of its pairs.
//!
//! The vertices are the places of the component's supervoxels, its leaves, in ascending order.
//! The promise: [`shown`] gives the least cut of the definitions between the marks, its weight and
//! a flow that shows it; where a walk of glue joins a source to a sink, it names the first such
//! source and its first such sink, as the definitions do.
//!
//! - `places`: supervoxels as vertices
//! - `nets`: edges as links of a net
//! - `telling`: links and amounts as pairs and carries
//! - `showing`: [`shown`]
#![tactic(auto)]

mod nets;
mod places;
mod showing;
mod telling;

pub use showing::shown;
