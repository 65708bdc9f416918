//! Tests of graphs and cuts: what no contract shows of the calls by which a least cut is found and
//! checked. Each public call of the crates below is made once at least on numbers that a hand worked
//! out.
//!
//! - `sums`: sums of affinities of lengths around whole blocks of lanes
//! - `labels`: the components of small graphs
//! - `checks`: which lists of links are nets; what is told of one cut with several flows
//! - `cuts`: worked least cuts with their weights and flows; glue that joins a source to a sink
//! - `bodies`: least cuts of drawn nets, by blocking flows and by single augmenting walks. Both find
//!   the same cut, each flow shows it, and both refuse the same nets
//! - `links`: links as the tests write them
//!
//! The drawn nets are the same in each run.
#![tactic(auto)]

#[cfg(test)]
mod bodies;
#[cfg(test)]
mod checks;
#[cfg(test)]
mod cuts;
#[cfg(test)]
mod labels;
#[cfg(test)]
mod links;
#[cfg(test)]
mod sums;
