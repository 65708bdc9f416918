//! Tables of edits, and whether each comes to what is wanted.

ghost use Rattle.std.specs.Prelude.{◌≡◌};
ghost use Rattle.entry_tests.specs.Servers.{IsPlanned, IsServer};

use crate::bases::{Texts, history_of, words_of};
use crate::calls::{drafted, plan_of, put};
use crate::datasets::dataset;
use crate::edits::{Ask, asked};
use crate::names::*;
use crate::samples::{are_halved, are_regained};
use crate::steps::{is_refusal, put_both, same_rows};
use hierarchy_edit::{Remade, Stamp};
use op_model::{Changed, Dataset, Edit, Plan, Refusal};
use pcg_base::VecWords;
use plain_history::History;
use std::alloc::{AllocError, Global};
use std::test::Fail;

// whether the pairs and their new states are these
fn are_changed(changed: &[Changed], wanted: &[(u64, u64, bool)]) -> bool {
    for (found, x) in changed.iter().zip(wanted.iter()) {
        if found.pair.a.0 != x.0 || found.pair.b.0 != x.1 || found.active != x.2 {
            return false;
        }
    }
    changed.len() == wanted.len()
}

/// What is wanted of an edit that is accepted.
#[derive(Clone, Copy, Drop)]
pub struct Want<'a> {
    /// The pairs that it changes, with their new states.
    pub changed: &'a [(u64, u64, bool)],
    /// The numbers of the roots that it retires.
    pub retired: &'a [u64],
    /// The numbers of the roots that it makes.
    pub made: &'a [u64],
    /// How many records there are behind it.
    pub records: u64,
}

// the stamp of client 1's first line, ten milliseconds behind the last entry.
fn stamp_of(history: &History) -> Stamp {
    Stamp {
        client: 1,
        line: 1,
        now: history.last.wrapping_add(10),
    }
}

// whether the nodes of a chunk have these numbers
fn are_numbered(ids: &[u64], chunk: u64, numbers: &[u64]) -> bool {
    for (id, number) in ids.iter().zip(numbers.iter()) {
        if *id != chunk.wrapping_add(*number) {
            return false;
        }
    }
    ids.len() == numbers.len()
}

// whether the last entry has these roots, and the words so many records
fn has_roots(history: &History, top: u64, want: &Want) -> bool {
    history.rows.list.len() as u64 == want.records
        && are_numbered(history.retired.as_slice(), top, want.retired)
        && are_numbered(history.made.as_slice(), top, want.made)
}

// whether a plan is the wanted one, and is accepted; the roots lie in the chunk `top`
fn accepts(
    alloc: Global,
    w: &mut VecWords,
    dataset: &Dataset,
    history: &mut History,
    plan: &Plan,
    top: u64,
    want: &Want,
) -> Result<bool, AllocError>
    requires server { IsServer dataset.now w.old.words w.old.spare }
    requires planned { IsPlanned dataset.now w.old.words plan.now }
    ensures server { IsServer dataset.now w.new.words w.new.spare }
{
    if !are_changed(plan.changed.list.as_slice(), want.changed) {
        return Ok(false);
    }
    let stamp = stamp_of(history);
    let came = put_both(alloc, w, dataset, history, plan, stamp)?;
    Ok(came.is_agreed() && has_roots(history, top, want))
}

// whether an edit is accepted as it is wanted
fn is_accepted(
    alloc: Global,
    w: &mut VecWords,
    dataset: &Dataset,
    history: &mut History,
    edit: Edit,
    top: u64,
    want: &Want,
) -> Result<bool, AllocError>
    requires server { IsServer dataset.now w.old.words w.old.spare }
    ensures server { IsServer dataset.now w.new.words w.new.spare }
{
    let Ok(plan) = plan_of(alloc, w, dataset, edit) else {
        return Ok(false);
    };
    accepts(alloc, w, dataset, history, &plan, top, want)
}

// whether both answers are this refusal, and the words are as they were
fn refuse(
    w: &mut VecWords,
    history: &History,
    first: &Result<Remade, Refusal>,
    done: &Result<Remade, Refusal>,
    want: &Refusal,
) -> bool
    ensures same { w.new ≡ w.old }
{
    let kept = same_rows(w, history.rows.list.as_slice());
    kept && is_refusal(first, want) && is_refusal(done, want)
}

// whether both calls refuse a plan like this and leave the words as they were
fn refuses(
    alloc: Global,
    w: &mut VecWords,
    dataset: &Dataset,
    history: &History,
    plan: &Plan,
    want: &Refusal,
) -> bool
    requires server { IsServer dataset.now w.old.words w.old.spare }
    requires planned { IsPlanned dataset.now w.old.words plan.now }
    ensures server { IsServer dataset.now w.new.words w.new.spare }
{
    let stamp = stamp_of(history);
    let first = drafted(alloc, w, dataset, plan, stamp);
    let done = put(alloc, w, dataset, plan, stamp);
    refuse(w, history, &first, &done, want)
}

// whether an edit has a plan, and both calls refuse it like this and leave the words as they were
fn is_late(
    alloc: Global,
    w: &mut VecWords,
    dataset: &Dataset,
    history: &History,
    edit: Edit,
    want: &Refusal,
) -> bool
    requires server { IsServer dataset.now w.old.words w.old.spare }
    ensures server { IsServer dataset.now w.new.words w.new.spare }
{
    let Ok(plan) = plan_of(alloc, w, dataset, edit) else {
        return false;
    };
    refuses(alloc, w, dataset, history, &plan, want)
}

/// What an edit comes to.
#[derive(Clone, Copy, Drop)]
pub enum Then<'a> {
    /// It is accepted like this.
    Made(Want<'a>),
    /// The store, the ids or the clock refuse it like this.
    Late(&'a Refusal),
}

/// An edit, and what it comes to.
#[derive(Clone, Copy, Drop)]
pub struct Step<'a> {
    pub ask: Ask<'a>,
    pub then: Then<'a>,
}

/// A step of an edit that is accepted: its changed pairs, the numbers of the roots that it retires
/// and makes, and how many records there are behind it.
pub fn made<'a>(
    ask: Ask<'a>,
    changed: &'a [(u64, u64, bool)],
    retired: &'a [u64],
    made: &'a [u64],
    records: u64,
) -> Step<'a> {
    let want = Want {
        changed,
        retired,
        made,
        records,
    };
    Step {
        ask,
        then: Then::Made(want),
    }
}

/// A step of an edit that is refused late.
pub fn late<'a>(ask: Ask<'a>, refusal: &'a Refusal) -> Step<'a> {
    Step {
        ask,
        then: Then::Late(refusal),
    }
}

// whether an edit comes to what is wanted
fn plays(
    alloc: Global,
    w: &mut VecWords,
    dataset: &Dataset,
    history: &mut History,
    top: u64,
    step: &Step,
) -> Result<bool, AllocError>
    requires server { IsServer dataset.now w.old.words w.old.spare }
    ensures server { IsServer dataset.now w.new.words w.new.spare }
{
    let edit = asked(alloc, step.ask)?;
    match &step.then {
        Then::Made(want) => is_accepted(alloc, w, dataset, history, edit, top, want),
        Then::Late(refusal) => Ok(is_late(alloc, w, dataset, history, edit, refusal)),
    }
}

// whether each edit comes to what is wanted
fn play_all(
    alloc: Global,
    w: &mut VecWords,
    dataset: &Dataset,
    history: &mut History,
    top: u64,
    steps: &[Step],
) -> Result<bool, AllocError>
    requires server { IsServer dataset.now w.old.words w.old.spare }
    ensures server { IsServer dataset.now w.new.words w.new.spare }
{
    for step in steps {
        if !plays(alloc, w, dataset, history, top, step)? {
            return Ok(false);
        }
    }
    Ok(true)
}

/// What a table of edits begins with.
#[derive(Clone, Copy, Drop)]
pub struct Start {
    /// The tables of the base.
    pub texts: Texts,
    /// The bits of a coordinate.
    pub bits: u8,
    /// How many base chunks there are along each axis.
    pub grid: (u32, u32, u32),
    /// How many records there may be.
    pub capacity: u32,
    /// The timestamp of the ingest, in milliseconds.
    pub at: u64,
    /// The one chunk of the top layer.
    pub top: u64,
}

/// What is looked at behind a table of edits.
#[derive(Clone, Copy, Drop)]
pub enum End {
    /// Nothing more.
    Nothing,
    /// The words with r and s merged, and p split from s.
    Halved,
    /// The words of a merge that is done again and undone at last.
    Regained,
    /// The paths of the second and the third supervoxel in a row of four chunks.
    Paths,
    /// The numbers of a chunk, of which three are used.
    Numbers,
}

// whether a supervoxel has this path
fn has_path(alloc: Global, h: &History, sv: u64, wanted: &[u64]) -> Result<bool, AllocError> {
    let path = h.path(alloc, sv)?;
    Ok(path.as_slice() == wanted)
}

// whether the split in a row of chunks left the two lower nodes of the third supervoxel
fn has_paths(alloc: Global, h: &History) -> Result<bool, AllocError> {
    let stay = h.retired_by(144678138029277185) == 0 && h.retired_by(216454257090494465) == 0;
    if !stay || h.retired_by(RIGHT_1) != 49 {
        return Ok(false);
    }
    let c = [144678138029277185, 216454257090494465, 288230376151711747];
    if !has_path(alloc, h, C, &c)? {
        return Ok(false);
    }
    let b = [RIGHT_2, TOP_3, 288230376151711747];
    has_path(alloc, h, R, &b)
}

// whether the split is undone behind so many records, where so many numbers are used
fn is_undone(
    alloc: Global,
    w: &mut VecWords,
    d: &Dataset,
    h: &mut History,
    used: u64,
    count: u64,
) -> Result<bool, AllocError>
    requires server { IsServer d.now w.old.words w.old.spare }
    ensures server { IsServer d.now w.new.words w.new.spare }
{
    let want = Want {
        changed: &[(P, Q, true)],
        retired: &[used.wrapping_sub(1), used],
        made: &[used.wrapping_add(1)],
        records: count.wrapping_add(5),
    };
    is_accepted(alloc, w, d, h, Edit::Undo { op: 1 }, ONE_0, &want)
}

// the same of its redo
fn is_redone(
    alloc: Global,
    w: &mut VecWords,
    d: &Dataset,
    h: &mut History,
    used: u64,
    count: u64,
) -> Result<bool, AllocError>
    requires server { IsServer d.now w.old.words w.old.spare }
    ensures server { IsServer d.now w.new.words w.new.spare }
{
    let want = Want {
        changed: &[(P, Q, false)],
        retired: &[used],
        made: &[used.wrapping_add(1), used.wrapping_add(2)],
        records: count.wrapping_add(6),
    };
    is_accepted(alloc, w, d, h, Edit::Redo { op: 1 }, ONE_0, &want)
}

// undoes the split and does it again, 84 times
fn numbers_are_used(
    alloc: Global,
    w: &mut VecWords,
    d: &Dataset,
    h: &mut History,
) -> Result<bool, AllocError>
    requires server { IsServer d.now w.old.words w.old.spare }
    ensures server { IsServer d.now w.new.words w.new.spare }
{
    let mut used: u64 = 3;
    let mut count: u64 = 17;
    for _ in 0..84 {
        if !is_undone(alloc, w, d, h, used, count)? {
            return Ok(false);
        }
        if !is_redone(alloc, w, d, h, used.wrapping_add(1), count.wrapping_add(5))? {
            return Ok(false);
        }
        used = used.wrapping_add(3);
        count = count.wrapping_add(11);
    }
    Ok(used == 255 && count == 941)
}

// whether all numbers can be used, and no more
fn run_out(
    alloc: Global,
    w: &mut VecWords,
    d: &Dataset,
    h: &mut History,
) -> Result<bool, AllocError>
    requires server { IsServer d.now w.old.words w.old.spare }
{
    if !numbers_are_used(alloc, w, d, h)? {
        return Ok(false);
    }
    let spent = Refusal::IdsSpent {
        layer: 2,
        x: 0,
        y: 0,
        z: 0,
    };
    Ok(is_late(alloc, w, d, h, Edit::Undo { op: 1 }, &spent))
}

// whether it ends so
fn ends(
    alloc: Global,
    w: &mut VecWords,
    d: &Dataset,
    h: &mut History,
    end: End,
) -> Result<bool, AllocError>
    requires server { IsServer d.now w.old.words w.old.spare }
{
    match end {
        End::Nothing => Ok(true),
        End::Halved => Ok(are_halved(w)),
        End::Regained => Ok(are_regained(w)),
        End::Paths => has_paths(alloc, h),
        End::Numbers => run_out(alloc, w, d, h),
    }
}

// plays a table of edits, and looks at its end
fn play_over(
    alloc: Global,
    w: &mut VecWords,
    d: &Dataset,
    h: &mut History,
    top: u64,
    steps: &[Step],
    end: End,
) -> Result<bool, AllocError>
    requires server { IsServer d.now w.old.words w.old.spare }
{
    if !play_all(alloc, w, d, h, top, steps)? {
        return Ok(false);
    }
    ends(alloc, w, d, h, end)
}

/// Whether each edit of a table comes to what is wanted, and all ends so.
pub fn comes_true(alloc: Global, start: &Start, steps: &[Step], end: End) -> Result<bool, Fail> {
    let Some(d) = dataset(1, start.bits, start.grid, start.capacity) else {
        return Ok(false);
    };
    let mut w = words_of(alloc, start.texts, &d, start.at)?;
    let mut h = history_of(alloc, start.texts, &d, start.at)?;
    Ok(play_over(alloc, &mut w, &d, &mut h, start.top, steps, end)?)
}
