//! Drawn bases, one after the other, and a hand-written one.

ghost use Rattle.std.specs.Prelude.{◌≡◌};
ghost use Rattle.op_model.specs.Valid.{IsDataset};
ghost use Rattle.row_tests.specs.Logs.{TellsLog};

use crate::base_checks::{
    AT, has_all_leaves, has_entry, has_nodes, refuses_others, refuses_roots, refuses_times,
};
use crate::datasets::{dataset, dataset_of};
use crate::emptying::empty_edges;
use crate::names::*;
use crate::reads::{has_leaves, has_root};
use crate::samples::{ingested, same_words};
use crate::tables::{Tables, drawn_tables};
use crate::wanted::{Wanted, wanted_of};
use hierarchy_build::{BuildError, build};
use node_ids::NodeId;
use op_model::Dataset;
use pcg_base::{NoMemory, VecWords, Words};
use plain_hierarchy::{first_entry, record_count};
use rand_core::SeedableRng;
use rand_xoshiro::Xoshiro256PlusPlus;
use std::alloc::Global;
use std::test::Fail;
use table_ingest::read_base;

/// What is compared.
#[derive(Clone, Copy, PartialEq, Eq, Debug, Drop)]
enum Subject {
    /// How many records there are.
    Records,
    /// The entry of the ingest.
    Entry,
    /// Roots and paths of supervoxels.
    Nodes,
    /// Leaves of roots.
    Leaves,
    /// Refusals of other times.
    Times,
    /// Refusals of ids as supervoxels.
    Supervoxels,
    /// Refusals of ids as roots.
    RootIds,
    /// How many records of edges were emptied.
    Edges,
}

/// The first subject in which the replies are not what is wanted.
fn differing(
    alloc: Global,
    w: &mut VecWords,
    wanted: &[Wanted],
) -> Result<Option<Subject>, NoMemory>
    requires tells { TellsLog w.old.words }
    ensures same { w.new ≡ w.old }
{
    if !has_nodes(alloc, w, wanted) {
        return Ok(Some(Subject::Nodes));
    }
    if !has_all_leaves(alloc, w, wanted)? {
        return Ok(Some(Subject::Leaves));
    }
    if !refuses_times(alloc, w, wanted) {
        return Ok(Some(Subject::Times));
    }
    if !refuses_others(alloc, w, wanted) {
        return Ok(Some(Subject::Supervoxels));
    }
    if !refuses_roots(alloc, w, wanted) {
        return Ok(Some(Subject::RootIds));
    }
    Ok(None)
}

/// The first subject in which the words that are built of two tables differ from the plain program,
/// with their records of edges or without.
#[tactic(auto, using(crate::proofs::Images::built_tells))]
fn differs(alloc: Global, dataset: &Dataset, tables: &Tables) -> Result<Option<Subject>, Fail>
    requires dataset { IsDataset dataset.now }
{
    let supervoxels = tables.supervoxels.as_bytes();
    let base = read_base(alloc, supervoxels, tables.edges.as_bytes(), dataset)?;
    if base.supervoxels.list.len() > 14 {
        return Ok(Some(Subject::Records));
    }
    let mut w = build(alloc, &base, dataset, AT)?;
    if record_count(alloc, dataset, &base)? != w.len() / 8 {
        return Ok(Some(Subject::Records));
    }
    let entry = first_entry(alloc, dataset, &base, AT)?;
    if !has_entry(alloc, &mut w, &entry)? {
        return Ok(Some(Subject::Entry));
    }
    let wanted = wanted_of(alloc, dataset, &base)?;
    let subject = differing(alloc, &mut w, wanted.as_slice())?;
    if subject.is_some() {
        return Ok(subject);
    }
    if empty_edges(&mut w) != base.edges.list.len() {
        return Ok(Some(Subject::Edges));
    }
    Ok(differing(alloc, &mut w, wanted.as_slice())?)
}

#[test]
fn drawn_bases_agree(rt: HostRuntime) -> Result<(), Fail> {
    let alloc = rt.alloc();
    let mut numbers = Xoshiro256PlusPlus::seed_from_u64(1);
    for number in 0..260usize {
        let Some(dataset) = dataset_of(number) else {
            panic!(rt; "no dataset {number}");
        };
        let tables = drawn_tables(alloc, &mut numbers, &dataset)?;
        assert_eq!(rt; differs(alloc, &dataset, &tables)?, None, "base {number}");
    }
    Ok(())
}

/// The ids p and q of one chunk, r and s of another.
const SUPERVOXELS: &str =
    "supervoxel\n72057594037927937\n72057594037927938\n72339069014638593\n72339069014638594\n";

/// Edges that join p, q and r, and one that doesn't join s to them.
const EDGES: &str =
    "a,b,affinity,active\n72057594037927937,72057594037927938,10,1\n72057594037927938,72339069014638593,7,1\n72339069014638593,72339069014638594,5,0\n";

#[test]
fn the_sample_is_built(rt: HostRuntime) -> Result<(), Fail> {
    let alloc = rt.alloc();
    let Some(dataset) = dataset_of(1) else {
        panic!(rt; "no dataset");
    };
    let base = read_base(alloc, SUPERVOXELS.as_bytes(), EDGES.as_bytes(), &dataset)?;
    let mut w = build(alloc, &base, &dataset, AT)?;
    let mut written = ingested(alloc)?;
    assert!(rt; same_words(&mut w, &mut written));
    Ok(())
}

#[test]
fn a_record_too_few(rt: HostRuntime) -> Result<(), Fail> {
    let alloc = rt.alloc();
    let Some(dataset) = dataset(1, 8, (2, 1, 1), 23) else {
        panic!(rt; "no dataset");
    };
    let base = read_base(alloc, SUPERVOXELS.as_bytes(), EDGES.as_bytes(), &dataset)?;
    let Err(error) = build(alloc, &base, &dataset, AT) else {
        panic!(rt; "it fits");
    };
    assert_eq!(rt;
        error,
        BuildError::TooSmall {
            need: 24,
            given: 23
        }
    );
    Ok(())
}

#[test]
#[tactic(auto, using(crate::proofs::Images::built_tells))]
fn edges_count_for_nothing(rt: HostRuntime) -> Result<(), Fail> {
    let alloc = rt.alloc();
    let Some(dataset) = dataset_of(1) else {
        panic!(rt; "no dataset");
    };
    let base = read_base(alloc, SUPERVOXELS.as_bytes(), EDGES.as_bytes(), &dataset)?;
    let mut w = build(alloc, &base, &dataset, AT)?;
    assert_eq!(rt; empty_edges(&mut w), 3);
    let three = [NodeId(P), NodeId(Q), NodeId(R)];
    assert!(rt; has_root(alloc, &mut w, NodeId(S), None, NodeId(TOP_2), 1));
    assert!(rt; has_leaves(alloc, &mut w, NodeId(TOP_1), None, &three, 1)?);
    Ok(())
}
