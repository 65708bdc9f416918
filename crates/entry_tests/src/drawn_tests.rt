//! Drawn histories of drawn bases, one after the other.

ghost use Rattle.op_model.specs.Valid.{IsBase, IsDataset};
ghost use Rattle.entry_tests.specs.Servers.{IsServer};

use crate::calls::built;
use crate::datasets::dataset_of;
use crate::edits::drawn_edit;
use crate::steps::{Came, edit_both, same_rows};
use crate::tables::{Tables, drawn_tables};
use hierarchy_edit::Stamp;
use op_model::{Base, Dataset, Edit};
use pcg_base::VecWords;
use plain_history::History;
use rand::RngExt;
use rand_core::SeedableRng;
use rand_xoshiro::Xoshiro256PlusPlus;
use std::alloc::Global;
use std::test::Fail;
use table_ingest::read_base;

/// How many entries were put, by their kind.
#[derive(Clone, Copy, Drop)]
struct Tally {
    merges: u32,
    /// The merges of more than 16 pairs.
    wide: u32,
    splits: u32,
    undos: u32,
    redos: u32,
}

impl Tally {
    // these, and one more for each that is so
    fn with(&self, more: &Tally) -> Tally {
        Tally {
            merges: self.merges.wrapping_add(more.merges),
            wide: self.wide.wrapping_add(more.wide),
            splits: self.splits.wrapping_add(more.splits),
            undos: self.undos.wrapping_add(more.undos),
            redos: self.redos.wrapping_add(more.redos),
        }
    }
}

const NOTHING: Tally = Tally {
    merges: 0,
    wide: 0,
    splits: 0,
    undos: 0,
    redos: 0,
};

fn one_of(edit: &Edit) -> Tally {
    let mut one = NOTHING;
    match edit {
        Edit::Merge { pairs } => {
            one.merges = 1;
            if pairs.list.len() > 16 {
                one.wide = 1;
            }
        }
        Edit::Split { .. } => one.splits = 1,
        Edit::Undo { .. } => one.undos = 1,
        Edit::Redo { .. } => one.redos = 1,
    }
    one
}

// puts up to six drawn edits, of merges with up to so many pairs; whether all words agreed
fn edits_agree(
    alloc: Global,
    w: &mut VecWords,
    dataset: &Dataset,
    base: &Base,
    numbers: &mut Xoshiro256PlusPlus,
    history: &mut History,
    tally: &mut Tally,
    most: usize,
) -> Result<bool, Fail>
    requires server { IsServer dataset.now w.old.words w.old.spare }
{
    let svs = base.supervoxels.list.as_slice();
    for line in 1..7 {
        let edit = drawn_edit(alloc, numbers, svs, history, most)?;
        let one = one_of(&edit);
        let stamp = Stamp {
            client: numbers.random_range(1..65u32),
            line,
            now: numbers.random_range(0..2000u64),
        };
        match edit_both(alloc, w, dataset, history, edit, stamp)? {
            Came::Agreed => *tally = tally.with(&one),
            Came::Refused => {}
            Came::Differed => return Ok(false),
        }
    }
    Ok(true)
}

// whether the words of a base agree, and those behind each of its drawn edits
fn words_agree(
    alloc: Global,
    w: &mut VecWords,
    dataset: &Dataset,
    base: &Base,
    numbers: &mut Xoshiro256PlusPlus,
    history: &mut History,
    tally: &mut Tally,
    most: usize,
) -> Result<bool, Fail>
    requires server { IsServer dataset.now w.old.words w.old.spare }
{
    if !same_rows(w, history.rows.list.as_slice()) {
        return Ok(false);
    }
    edits_agree(alloc, w, dataset, base, numbers, history, tally, most)
}

// whether they agree from the ingest of a base on
fn base_agrees(
    alloc: Global,
    dataset: &Dataset,
    base: &Base,
    numbers: &mut Xoshiro256PlusPlus,
    tally: &mut Tally,
    most: usize,
) -> Result<bool, Fail>
    requires dataset { IsDataset dataset.now }
    requires base { IsBase dataset.now base.now }
{
    let mut w = built(alloc, base, dataset, 1000)?;
    let mut history = History::new(alloc, dataset, base, 1000)?;
    words_agree(
        alloc,
        &mut w,
        dataset,
        base,
        numbers,
        &mut history,
        tally,
        most,
    )
}

// whether they agree for the base of drawn tables
fn history_agrees(
    alloc: Global,
    dataset: &Dataset,
    tables: &Tables,
    numbers: &mut Xoshiro256PlusPlus,
    tally: &mut Tally,
    most: usize,
) -> Result<bool, Fail>
    requires dataset { IsDataset dataset.now }
{
    let supervoxels = tables.supervoxels.as_bytes();
    let base = read_base(alloc, supervoxels, tables.edges.as_bytes(), dataset)?;
    base_agrees(alloc, dataset, &base, numbers, tally, most)
}

// whether so many drawn histories agree, of merges with up to so many pairs, and what was put
fn histories_agree(
    alloc: Global,
    seed: u64,
    count: usize,
    most: usize,
) -> Result<Option<Tally>, Fail> {
    let mut numbers = Xoshiro256PlusPlus::seed_from_u64(seed);
    let mut tally = NOTHING;
    for number in 0..count {
        let Some(dataset) = dataset_of(number) else {
            return Ok(None);
        };
        let tables = drawn_tables(alloc, &mut numbers, &dataset)?;
        if !history_agrees(alloc, &dataset, &tables, &mut numbers, &mut tally, most)? {
            return Ok(None);
        }
    }
    Ok(Some(tally))
}

/// Whether at least so many of each kind were put.
fn has_enough(found: Option<Tally>, least: &Tally) -> bool {
    let Some(tally) = found else {
        return false;
    };
    tally.merges >= least.merges
        && tally.wide >= least.wide
        && tally.splits >= least.splits
        && tally.undos >= least.undos
        && tally.redos >= least.redos
}

#[test]
fn drawn_histories_agree(rt: HostRuntime) -> Result<(), Fail> {
    let least = Tally {
        merges: 60,
        wide: 0,
        splits: 40,
        undos: 8,
        redos: 3,
    };
    assert!(rt; has_enough(histories_agree(rt.alloc(), 18, 80, 4)?, &least));
    Ok(())
}

#[test]
fn more_drawn_histories_agree(rt: HostRuntime) -> Result<(), Fail> {
    let least = Tally {
        merges: 60,
        wide: 0,
        splits: 40,
        undos: 8,
        redos: 3,
    };
    assert!(rt; has_enough(histories_agree(rt.alloc(), 19, 80, 6)?, &least));
    Ok(())
}

#[test]
fn histories_with_wide_merges_agree(rt: HostRuntime) -> Result<(), Fail> {
    let least = Tally {
        merges: 20,
        wide: 5,
        splits: 12,
        undos: 2,
        redos: 0,
    };
    assert!(rt; has_enough(histories_agree(rt.alloc(), 64, 40, 64)?, &least));
    Ok(())
}
