//! What a call of the program is to do.

use chunk_geometry::Grid;
use pcg_base::Ticks;
use std::marker::Model;

/// The name of a file, or the stem of a client's two files. Contracts see its bytes.
#[derive(Debug, Drop)]
pub struct Name {
    /// The name, as it is given to a place.
    pub text: String,
}

impl Model for Name {
    ghost use Rattle.std.specs.Prelude.{ℕ, List, string_bytes};

    ghost Value = { List ℕ };

    ghost view = { λ a. string_bytes a.text };
}

/// A list of names. Contracts see the list.
#[derive(Debug, Drop)]
pub struct Names {
    /// The names, in order.
    pub list: Vec<Name>,
}

impl Model for Names {
    ghost use Rattle.std.specs.Prelude.{ℕ, List};

    ghost Value = { List (List ℕ) };

    ghost view = { λ a. a.list.items };
}

/// A rehearsal: the clients' requests, answered on one thread in a stated order.
#[derive(Drop)]
pub struct RehearseJob {
    /// How many bits of an id each coordinate takes, from 1 to 16.
    pub bits: u64,
    /// How many base chunks there are along each axis, at most 2 to the number of bits each.
    pub grid: Grid,
    /// The file of the supervoxel table.
    pub supervoxels: Name,
    /// The file of the edge table.
    pub edges: Name,
    /// The affinity of an edge that a merge adds, from 1 to 4294967295.
    pub merge_affinity: u64,
    /// How many records the store holds, from 2 to 16777216.
    pub records: u64,
    /// What the clock answers, in milliseconds.
    pub clock: Ticks,
    /// The file of the schedule, where there is one.
    pub schedule: Option<Name>,
    /// The clients' stems: client i has the files STEM.req and STEM.ans.
    pub stems: Names,
}

/// Tables and request streams that are made from a number.
#[derive(Drop)]
pub struct MakeJob {
    /// How many bits of an id each coordinate takes, from 1 to 16.
    pub bits: u64,
    /// How many base chunks there are along each axis, at most 2 to the number of bits each.
    pub grid: Grid,
    /// The file of the supervoxel table.
    pub supervoxels: Name,
    /// The file of the edge table.
    pub edges: Name,
    /// The number that all is made from.
    pub from: u64,
    /// How many supervoxels there are, from 1 to 1000000.
    pub size: u64,
    /// How many lines each client's stream has, at most 100000.
    pub requests: u64,
    /// The clients' stems: client i has the file STEM.req.
    pub stems: Names,
}

/// Input that is made from a number and answered at once, in memory.
#[derive(Drop)]
pub struct TrialJob {
    /// How many bits of an id each coordinate takes, from 1 to 16.
    pub bits: u64,
    /// How many base chunks there are along each axis, at most 2 to the number of bits each.
    pub grid: Grid,
    /// The affinity of an edge that a merge adds, from 1 to 4294967295.
    pub merge_affinity: u64,
    /// How many records the store holds, from 2 to 16777216.
    pub records: u64,
    /// What the clock answers, in milliseconds.
    pub clock: Ticks,
    /// The number that all is made from.
    pub from: u64,
    /// How many supervoxels there are, from 1 to 1000000.
    pub size: u64,
    /// How many lines each client's stream has, at most 100000.
    pub requests: u64,
    /// How many clients there are, from 1 to 64.
    pub clients: u64,
}

/// A job of the program, by its mode.
#[derive(Drop)]
pub enum Job {
    /// Answer request streams on one thread.
    Rehearse(RehearseJob),
    /// Make tables and request streams.
    Make(MakeJob),
    /// Make input and answer it, in memory.
    Trial(TrialJob),
}
