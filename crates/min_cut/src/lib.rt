//! Least cuts: [`least_cut`] finds, of all sets of links that separate the sources of a net from its
//! sinks and weigh the least, the one with the least source side, with its weight and a flow that
//! shows it.
//!
//! The promise: the cut is the one that `graph_model` defines, `total` is its weight, and
//! `flow_net::check_cut` accepts it with the flow. Where a walk of glue joins a source to a sink,
//! nothing separates them, and the answer is [`CutError::Glued`] with the first such source and its
//! first such sink.
//!
//! The flow is made greatest by blocking flows (Dinitz 1970). A phase visits the vertices nearest the
//! sources first, which gives each its level, and then sends more along walks that go up one level
//! with each link, until none is left. A phase takes no more time than vertices times links, its
//! search no more than vertices and links. The last phase comes to no sink, and the links that leave
//! what it visits are the cut. [`plain`] makes the same promises by shortest augmenting walks, one at
//! a time, found by sweeps over all links: the program that is easiest to believe.
//!
//! - `cut`: [`least_cut`]
//! - `glue`: the first marks that walks of glue join
//! - `arcs`: the links of each vertex and what they lead to, in flat vectors
//! - `phases`: the greatest flow by phases
//! - `breadth`: a phase's search in breadth
//! - `blocking`: a phase's walks
//! - `plain`, `search`: the plain program, and its search by sweeps
//! - `walk`: what is sent along a walk; the plain program's flow
//! - `rooms`: how much more links can carry
//! - `answer`: the links of a cut
#![tactic(auto)]

mod answer;
mod arcs;
mod blocking;
mod breadth;
mod cut;
mod glue;
mod phases;
pub mod plain;
mod rooms;
mod search;
mod walk;

pub use cut::least_cut;
use flow_net::{Cut, Flow};

/// The least cut of a net between its sources and its sinks.
#[derive(Debug, Drop)]
pub struct LeastCut {
    /// Its links, ascending.
    pub cut: Cut,
    /// Its weight: the sum of the rooms of its links.
    pub total: u64,
    /// A flow that carries just as much.
    pub flow: Flow,
}

/// Why there is no least cut.
#[derive(Clone, Copy, PartialEq, Eq, Debug, Drop)]
pub enum CutError {
    /// A walk of glue joins the source to the sink: of the sources of which that is so the first, with
    /// the first sink that it is joined to, each in the order of its list.
    Glued {
        /// The source's vertex.
        source: u32,
        /// The sink's vertex.
        sink: u32,
    },
    /// No memory.
    NoMemory,
}
