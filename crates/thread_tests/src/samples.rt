//! A dataset, the words of a log of one entry, and the draft of the next one.

ghost use Rattle.std.specs.Prelude.{◌≡◌, ◌-◌, ◌<◌, ◌≤◌, ◌++◌, length, IfOk};
ghost use Rattle.std.specs.List.{AllByRecursion};
ghost use Rattle.row_words.specs.Drafts.{IsPointerBelow, draft_rows, with_link};
ghost use Rattle.shared_rows.specs.Starts.{Starts};
ghost use Rattle.thread_tests.specs.Samples.{IsMerge, data_small, first_words, told};

use chunk_geometry::Grid;
use node_ids::Layout;
use op_model::Dataset;
use pcg_base::{NoMemory, VecWords};
use row_words::{Draft, DraftLink, Spot};
use shared_rows::{Shared, Started};
use std::alloc::Global;

// the supervoxels, two in each of two base chunks
const P: u64 = 72057594037927937;

const Q: u64 = 72057594037927938;

const R: u64 = 72339069014638593;

const S: u64 = 72339069014638594;

// the chunks, and their nodes
const LEFT_0: u64 = 144115188075855872;

const LEFT_1: u64 = 144115188075855873;

const RIGHT_0: u64 = 144396663052566528;

const RIGHT_1: u64 = 144396663052566529;

const RIGHT_2: u64 = 144396663052566530;

const RIGHT_3: u64 = 144396663052566531;

const TOP_0: u64 = 216172782113783808;

const TOP_1: u64 = 216172782113783809;

const TOP_2: u64 = 216172782113783810;

const TOP_3: u64 = 216172782113783811;

// client 1, line 1
const LINE: u64 = 4294967297;

// two base chunks along x, one along y and z
const GRID: u64 = 1099512676354;

// four supervoxels and three chunks
const COUNTS: u64 = 12884901892;

/// Two base chunks side by side, and room for 34 records.
#[tactic(auto, unfolding(chunk_geometry::specs::Grids::grid_of))]
pub fn dataset() -> Dataset
    ensures { result ≡ data_small }
{
    let layout = Layout::new(8).unwrap();
    let grid = Grid::new(2, 1, 1).unwrap();
    Dataset {
        layout,
        grid,
        merge_affinity: 1,
        capacity: 34,
    }
}

/// The words of the log of the ingest alone, with room for the other records.
pub fn words(alloc: Global) -> Result<VecWords, NoMemory>
    ensures words { IfOk result (λ v. v.words ≡ first_words) }
    ensures room { IfOk result (λ v. 80 ≤ v.spare) }
{
    let items = [
        2049, GRID, COUNTS, 1, 0, 0, 0, 0, //
        2, P, 0, 0, 8, 16, 0, 0, //
        2, Q, 0, 0, 8, 17, 0, 0, //
        2, R, 0, 0, 9, 18, 0, 0, //
        2, S, 0, 0, 10, 19, 0, 0, //
        3, LEFT_0, 0, 0, 11, 0, 0, 0, //
        3, RIGHT_0, 0, 0, 12, 0, 0, 0, //
        3, TOP_0, 0, 0, 14, 0, 0, 0, //
        262, P, Q, 10, 0, 0, 9, 0, //
        262, Q, R, 7, 0, 0, 10, 0, //
        6, R, S, 5, 0, 0, 0, 0, //
        4, LEFT_1, P, 0, 16, 20, 0, 0, //
        4, RIGHT_1, R, 0, 18, 21, 0, 13, //
        4, RIGHT_2, S, 0, 19, 22, 0, 0, //
        4, TOP_1, P, 0, 20, 0, 0, 15, //
        4, TOP_2, S, 0, 22, 0, 0, 0, //
        5, P, 1, 0, 11, 17, 0, 0, //
        5, Q, 2, 0, 11, 0, 0, 0, //
        5, R, 3, 0, 12, 0, 0, 0, //
        5, S, 4, 0, 13, 0, 0, 0, //
        5, LEFT_1, 11, 0, 14, 21, 0, 0, //
        5, RIGHT_1, 12, 0, 14, 0, 0, 0, //
        5, RIGHT_2, 13, 0, 15, 0, 0, 0, //
        9, 1000, 0, 0, 0, 0, 0, 0, //
    ];
    match Vec::from_slice(alloc, &items) {
        Ok(items) => VecWords::new(items, 80),
        Err(_) => Err(NoMemory),
    }
}

/// The rows of the first log, for so many clients.
#[tactic(auto, using(crate::proofs::SampleLogs::told_opens, crate::proofs::SampleLogs::room_of))]
pub fn begin(alloc: Global, clients: u32) -> Result<Started, NoMemory>
    requires clients { (0 < clients) × (clients ≤ 64) }
    ensures { IfOk result (λ s. Starts told clients s.shared s.passes.items) }
{
    let words = words(alloc)?;
    Shared::start(alloc, words, &dataset(), clients)
}

/// The draft of the merge of r and s by client 1.
pub fn merge_draft(alloc: Global) -> Result<Draft, NoMemory>
    ensures { IfOk result IsMerge }
{
    let rows = [
        [4, RIGHT_3, R, 1, 26, 29, 0, 0],
        [4, TOP_3, P, 1, 28, 0, 0, 0],
        [5, R, 3, 1, 24, 27, 0, 0],
        [5, S, 4, 1, 24, 0, 0, 0],
        [5, LEFT_1, 11, 1, 25, 29, 0, 0],
        [5, RIGHT_3, 24, 1, 25, 0, 0, 0],
        [264, R, 0, 0, 31, 0, 0, 0],
        [520, S, 0, 0, 0, 0, 0, 0],
        [263, R, S, 1, 10, 0, 0, 0],
        [265, 1010, LINE, 1, 30, 32, 23, 0],
    ];
    let links = [
        DraftLink {
            from: Spot(10),
            k: 4,
            to: Spot(32),
        },
        DraftLink {
            from: Spot(12),
            k: 6,
            to: Spot(33),
        },
        DraftLink {
            from: Spot(13),
            k: 6,
            to: Spot(33),
        },
        DraftLink {
            from: Spot(13),
            k: 7,
            to: Spot(24),
        },
        DraftLink {
            from: Spot(14),
            k: 6,
            to: Spot(33),
        },
        DraftLink {
            from: Spot(15),
            k: 6,
            to: Spot(33),
        },
        DraftLink {
            from: Spot(15),
            k: 7,
            to: Spot(25),
        },
        DraftLink {
            from: Spot(18),
            k: 6,
            to: Spot(26),
        },
        DraftLink {
            from: Spot(19),
            k: 6,
            to: Spot(27),
        },
        DraftLink {
            from: Spot(20),
            k: 6,
            to: Spot(28),
        },
    ];
    let mut draft = Draft::new(alloc, 24, 10, 10)?;
    put_rows(&mut draft, &rows);
    put_links(&mut draft, &links);
    Ok(draft)
}

/// Puts records into a draft.
fn put_rows(draft: &mut Draft, rows: &[[u64; 8]])
    requires room { length rows.now ≤ draft.old.row_room }
    ensures { draft.new ≡ draft_rows draft.old.tail (draft.old.rows ++ rows.now) draft.old.links (draft.old.row_room - length rows.now) draft.old.link_room }
{
    for row in rows {
        draft.add_row(*row);
    }
}

/// Puts pointers into a draft.
fn put_links(draft: &mut Draft, links: &[DraftLink])
    requires room { length links.now ≤ draft.old.link_room }
    requires pointers { AllByRecursion (IsPointerBelow draft.old.tail) links.now }
    ensures { draft.new ≡ draft_rows draft.old.tail draft.old.rows (draft.old.links ++ links.now) draft.old.row_room (draft.old.link_room - length links.now) }
{
    for link in links {
        put_link(draft, link);
    }
}

/// Puts one pointer into a draft.
fn put_link(draft: &mut Draft, link: &DraftLink)
    requires room { 1 ≤ draft.old.link_room }
    requires pointer { IsPointerBelow draft.old.tail link.now }
    ensures { draft.new ≡ with_link draft.old link.now.from link.now.k link.now.to }
{
    draft.add_link(link.from, link.k, link.to);
}
