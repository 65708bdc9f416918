//! A session's core before its first step.

ghost use Rattle.std.specs.Prelude.{◌≡◌, ◌≤◌, ◌∷◌, [], IfOk};
ghost use Rattle.op_model.specs.Valid.{IsDataset};
ghost use Rattle.core_tests.specs.Running.{IsRunning, IsShort};

use crate::texts::spelled;
use chunk_geometry::Grid;
use client_events::LineText;
use core_steps::{ClientLines, Core};
use hierarchy_build::build;
use node_ids::Layout;
use op_model::Dataset;
use pcg_base::{NoMemory, Ticks};
use std::alloc::{AllocError, Global};
use std::test::Fail;
use stored_log::{StoredLog, start};
use table_ingest::read_base;

/// The usual tables: three edges in a row, of which the last isn't active.
pub const SUPERVOXELS: &str =
    "supervoxel\n72057594037927937\n72057594037927938\n72339069014638593\n72339069014638594\n";

pub const EDGES: &str =
    "a,b,affinity,active\n72057594037927937,72057594037927938,10,1\n72057594037927938,72339069014638593,7,1\n72339069014638593,72339069014638594,5,0\n";

/// A session of three clients: the bits of coordinates, base chunks along x, the most records, the
/// clock, the tables, each client's lines, the clients of the schedule, and which writes fail. An
/// answer takes two writes: its client's number, and its line.
#[derive(Clone, Copy)]
pub struct Session<'a> {
    pub bits: u8,
    pub wide: u32,
    pub records: u32,
    pub clock: Ticks,
    pub supervoxels: &'a str,
    pub edges: &'a str,
    pub lines: [&'a str; 3],
    pub schedule: &'a [u32],
    pub fails: &'a [u32],
}

/// A session of one client over the usual tables.
pub fn alone<'a>(lines: &'a str) -> Session<'a> {
    Session {
        bits: 8,
        wide: 2,
        records: 1000,
        clock: Ticks {
            start: 1000,
            step: 10,
        },
        supervoxels: SUPERVOXELS,
        edges: EDGES,
        lines: [lines, "", ""],
        schedule: &[],
        fails: &[],
    }
}

/// So many base chunks side by side, and room for so many records.
#[tactic(auto, unfolding(chunk_geometry::specs::Grids::grid_of))]
fn wide_dataset(wide: u32, records: u32) -> Dataset
    requires { (1 ≤ wide) × (wide ≤ 256) × (2 ≤ records) × (records ≤ 16777216) }
    ensures { IsDataset result }
{
    let layout = Layout::new(8).unwrap();
    let grid = Grid::new(wide, 1, 1).unwrap();
    Dataset {
        layout,
        grid,
        merge_affinity: 1,
        capacity: records,
    }
}

/// One base chunk whose nodes have numbers of eight bits, and room for so many records.
#[tactic(auto, unfolding(chunk_geometry::specs::Grids::grid_of))]
fn small_dataset(records: u32) -> Dataset
    requires { (2 ≤ records) × (records ≤ 16777216) }
    ensures { IsDataset result }
{
    let layout = Layout::new(16).unwrap();
    let grid = Grid::new(1, 1, 1).unwrap();
    Dataset {
        layout,
        grid,
        merge_affinity: 1,
        capacity: records,
    }
}

/// The dataset of a session, if its numbers are in their ranges.
fn dataset_of(session: &Session<'_>) -> Result<Dataset, Fail>
    ensures { IfOk result IsDataset }
{
    if session.records < 2 || session.records > 16777216 {
        return Err(Fail::new("a number out of its range"));
    }
    if session.bits == 16 && session.wide == 1 {
        return Ok(small_dataset(session.records));
    }
    if session.bits != 8 || session.wide < 1 || session.wide > 256 {
        return Err(Fail::new("a number out of its range"));
    }
    Ok(wide_dataset(session.wide, session.records))
}

/// The lines of a text.
fn client_lines(alloc: Global, text: &str) -> Result<ClientLines, Fail>
    ensures { IfOk result IsShort }
{
    let mut lines = Vec::new(alloc);
    for line in text.split('\n') {
        if !line.is_empty() {
            lines.push(LineText::Bytes(spelled(alloc, line)?))?;
        }
    }
    if lines.len() > 1000 {
        return Err(Fail::from(NoMemory));
    }
    Ok(ClientLines {
        lines,
        fault: false,
    })
}

/// A list of three clients' lines.
fn listed(
    alloc: Global,
    first: ClientLines,
    second: ClientLines,
    third: ClientLines,
) -> Result<Vec<ClientLines>, AllocError>
    ensures { IfOk result (λ v. v.items ≡ first ∷ second ∷ third ∷ []) }
{
    let mut list = Vec::new(alloc);
    list.push(first)?;
    list.push(second)?;
    list.push(third)?;
    Ok(list)
}

/// The core of a session before its first step, where client 1 has these lines.
pub fn begin(alloc: Global, session: &Session<'_>, first: &str) -> Result<Core<StoredLog>, Fail>
    ensures { IfOk result IsRunning }
{
    let first = client_lines(alloc, first)?;
    let second = client_lines(alloc, session.lines[1])?;
    let third = client_lines(alloc, session.lines[2])?;
    let list = listed(alloc, first, second, third)?;
    let dataset = dataset_of(session)?;
    let supervoxels = session.supervoxels.as_bytes();
    let base = read_base(alloc, supervoxels, session.edges.as_bytes(), &dataset)?;
    let words = build(alloc, &base, &dataset, session.clock.time(0))?;
    Ok(start(alloc, words, dataset, list, session.clock)?)
}
