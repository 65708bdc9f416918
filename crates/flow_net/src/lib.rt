//! Nets of links with rooms, and the check of a cut with the flow that shows it.
//!
//! A **net** has vertices, numbered from 0, and links between them. A link runs both ways. It has a
//! **room**, which is what it weighs in a cut and the most that may flow over it, or it is **glue**:
//! never cut, and free to carry anything. Some vertices are marked as sources, others as sinks. A
//! **cut** is a list of links that separates them, and a **flow** an amount for each link, with as
//! much in as out at each vertex without a mark. No flow brings more from the sources to the sinks
//! than a separating cut weighs; so a flow that brings just as much proves that the cut is of least
//! weight, and a reader can check it by adding up (Ford and Fulkerson 1956). The words and this law
//! are those of `graph_model`.
//!
//! The promise: [`check_cut`] answers Ok exactly where the cut separates, and the flow keeps the
//! rooms, balances, and carries the cut's weight; else the first of five faults, with its place and
//! numbers, exactly. It takes no memory. [`is_net`] tells exactly whether a list of links is a net.
//!
//! - `net`: [`Net`], and the test whether links are one
//! - `carries`: what a link carries, from where to where, and sums over links
//! - `balance`: what comes into each vertex and goes out
//! - `cuts`: the links of a cut, and their weight
//! - `joined`: which marks a walk outside a cut joins
//! - `check`: the check
//!
//! `specs/Verdict.antt` defines the first fault and what Ok means.
#![tactic(auto)]

mod balance;
mod carries;
pub mod check;
mod cuts;
pub mod joined;
pub mod net;

pub use check::check_cut;
pub use net::{Net, is_net};

/// A link between two vertices.
#[derive(Clone, Copy, PartialEq, Eq, Debug)]
pub struct Link {
    /// One end, the number of a vertex.
    pub a: u32,
    /// The other end.
    pub b: u32,
    /// The most that may flow over it, and what it weighs in a cut; with none it is glue.
    pub room: Option<u32>,
}

/// A set of links of a net.
#[derive(Debug, Drop)]
pub struct Cut {
    /// The numbers of its links in the net, ascending.
    pub links: Vec<u32>,
}

/// What flows over each link of a net.
#[derive(Debug, Drop)]
pub struct Flow {
    /// One amount for each link, positive from `a` to `b` and negative from `b` to `a`.
    pub amounts: Vec<i64>,
}

/// What is wrong with a cut and a flow: the first in this order, and of each kind the one that its
/// variant says.
#[derive(Clone, Copy, PartialEq, Eq, Debug, Drop)]
pub enum CutFault {
    /// The cut has glue.
    CutsGlue {
        /// The least such link.
        link: u32,
    },
    /// An amount is over its link's room, in either direction.
    OverRoom {
        /// The least such link.
        link: u32,
        /// Its amount.
        amount: i64,
    },
    /// A vertex that is no mark has not as much in as out.
    Unbalanced {
        /// The least such vertex.
        vertex: u32,
        /// The sizes of the amounts that run towards it, added.
        into: i128,
        /// The sizes of the amounts that run away from it, added.
        out: i128,
    },
    /// A walk outside the cut joins a source to a sink.
    Open {
        /// The first such source, in the order of the sources.
        source: u32,
        /// The first sink that is joined to it, in the order of the sinks.
        sink: u32,
    },
    /// The flow's value isn't the cut's weight.
    Unequal {
        /// What leaves the set of the sources, less what enters it.
        value: i128,
        /// The rooms of the cut's links, added.
        weight: u64,
    },
}
