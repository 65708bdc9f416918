//! The records of each kind, as the table of records in FORMATS has them.

use crate::rows::{Chain, NOWHERE, Row, Subject, of};
use op_model::{Changed, Dataset, Edge, Edit, Pair, Weight};

/// 2^32, from which on the high half of a word counts.
const HIGH: u64 = 4294967296;

// 1 in bit 8 if it is so, else 0
fn bit(on: bool) -> u64 {
    if on { 256 } else { 0 }
}

// a record that is in these chains, with pointers along those; no pointer is set yet
fn row(fixed: [u64; 4], aims: [Chain; 4], first: [bool; 4], chains: [Chain; 3]) -> Row {
    Row {
        fixed,
        pointers: [0; 4],
        aims,
        first,
        chains,
    }
}

/// The pointers that lead to the next record of their chain.
const NEXT: [bool; 4] = [false; 4];

/// The same, but for the first one, which leads to the first record of its chain.
const FIRST: [bool; 4] = [true, false, false, false];

// what tells of a pair
fn pair(of: Subject, edge: &Pair) -> Chain {
    Chain {
        of,
        a: edge.a.0,
        b: edge.b.0,
    }
}

// the grid in one word
fn grid_word(dataset: &Dataset) -> u64 {
    let y = (dataset.grid.ny() as u64).wrapping_mul(1048576);
    let z = (dataset.grid.nz() as u64).wrapping_mul(1099511627776);
    (dataset.grid.nx() as u64).wrapping_add(y).wrapping_add(z)
}

/// The header of a base with so many supervoxels and chunks.
pub fn header(dataset: &Dataset, supervoxels: u64, chunks: u64) -> Row {
    let version = (dataset.layout.version() as u64)
        .wrapping_sub(1)
        .wrapping_mul(65536);
    let bits = (dataset.layout.bits() as u64).wrapping_mul(256);
    let kind = version.wrapping_add(bits).wrapping_add(1);
    let counts = supervoxels.wrapping_add(chunks.wrapping_mul(HIGH));
    let affinity = dataset.merge_affinity as u64;
    let fixed = [kind, grid_word(dataset), counts, affinity];
    row(fixed, [NOWHERE; 4], NEXT, [NOWHERE; 3])
}

/// A supervoxel.
pub fn supervoxel(id: u64) -> Row {
    let aims = [
        of(Subject::EdgeAt, id),
        of(Subject::VersionOf, id),
        NOWHERE,
        NOWHERE,
    ];
    row(
        [2, id, 0, 0],
        aims,
        NEXT,
        [of(Subject::Id, id), NOWHERE, NOWHERE],
    )
}

/// A chunk.
pub fn chunk(id: u64) -> Row {
    let aims = [of(Subject::NodeIn, id), NOWHERE, NOWHERE, NOWHERE];
    row([3, id, 0, 0], aims, NEXT, [NOWHERE; 3])
}

/// A node of a chunk with this least leaf, from an entry.
pub fn node(id: u64, chunk: u64, least: u64, entry: u64) -> Row {
    let beside = of(Subject::NodeIn, chunk);
    let aims = [
        of(Subject::ChildOf, id),
        of(Subject::VersionOf, id),
        NOWHERE,
        beside,
    ];
    let chains = [of(Subject::Id, id), beside, NOWHERE];
    row([4, id, least, entry], aims, NEXT, chains)
}

/// The link of a child at a place to its parent, from an entry.
pub fn link(child: u64, place: u64, parent: u64, entry: u64) -> Row {
    let beside = of(Subject::ChildOf, parent);
    let version = of(Subject::VersionOf, child);
    let aims = [of(Subject::Id, parent), beside, version, NOWHERE];
    row(
        [5, child, place, entry],
        aims,
        FIRST,
        [beside, version, NOWHERE],
    )
}

// the affinity, 0 for glue
fn strength(weight: &Weight) -> u64 {
    match weight {
        Weight::Affinity(n) => *n as u64,
        Weight::Glue => 0,
    }
}

/// An edge as it is when an entry makes it known.
pub fn edge(edge: &Edge, entry: u64) -> Row {
    let first = entry
        .wrapping_mul(HIGH)
        .wrapping_add(bit(edge.active))
        .wrapping_add(6);
    let fixed = [first, edge.pair.a.0, edge.pair.b.0, strength(&edge.weight)];
    let lesser = of(Subject::EdgeAt, edge.pair.a.0);
    let greater = of(Subject::EdgeAt, edge.pair.b.0);
    let aims = [
        pair(Subject::ChangeOf, &edge.pair),
        lesser,
        greater,
        NOWHERE,
    ];
    row(
        fixed,
        aims,
        NEXT,
        [lesser, greater, pair(Subject::EdgeOf, &edge.pair)],
    )
}

/// The change of a pair to a state, by an entry.
pub fn change(changed: &Changed, entry: u64) -> Row {
    let first = bit(changed.active).wrapping_add(7);
    let fixed = [first, changed.pair.a.0, changed.pair.b.0, entry];
    let other = pair(Subject::ChangeOf, &changed.pair);
    let beside = of(Subject::ChangeIn, entry);
    let aims = [pair(Subject::EdgeOf, &changed.pair), other, beside, NOWHERE];
    row(fixed, aims, FIRST, [other, beside, NOWHERE])
}

/// An id of an entry's request: of side 1 for a first end or a source, 2 for a second end or a sink.
pub fn item(id: u64, side: u64, entry: u64) -> Row {
    let first = side.wrapping_mul(256).wrapping_add(8);
    let beside = of(Subject::ItemIn, entry);
    let aims = [beside, NOWHERE, NOWHERE, NOWHERE];
    row([first, id, 0, 0], aims, NEXT, [beside, NOWHERE, NOWHERE])
}

// word 0 of an entry that an edit made
fn edit_word(edit: &Edit) -> u64 {
    match edit {
        Edit::Merge { .. } => 265,
        Edit::Split { .. } => 521,
        Edit::Undo { op } => op.wrapping_mul(HIGH).wrapping_add(777),
        Edit::Redo { op } => op.wrapping_mul(HIGH).wrapping_add(1033),
    }
}

/// Who asked an entry, and when.
#[derive(Clone, Copy, Drop)]
pub struct Asker {
    /// The client.
    pub client: u32,
    /// The client's line.
    pub line: u32,
    /// The entry's timestamp in milliseconds.
    pub at: u64,
}

/// An entry of this number, with this word 0.
fn entry(number: u64, asker: Asker, first: u64) -> Row {
    let client = (asker.client as u64)
        .wrapping_mul(HIGH)
        .wrapping_add(asker.line as u64);
    let aims = [
        of(Subject::ItemIn, number),
        of(Subject::ChangeIn, number),
        of(Subject::Entry, number.wrapping_sub(1)),
        NOWHERE,
    ];
    let all = [true, true, true, false];
    let own = of(Subject::Entry, number);
    row(
        [first, asker.at, client, number],
        aims,
        all,
        [own, NOWHERE, NOWHERE],
    )
}

/// The entry of the ingest.
pub fn ingest(at: u64) -> Row {
    let nobody = Asker {
        client: 0,
        line: 0,
        at,
    };
    entry(0, nobody, 9)
}

/// The entry of an edit, of this number.
pub fn edited(number: u64, asker: Asker, edit: &Edit) -> Row {
    entry(number, asker, edit_word(edit))
}
