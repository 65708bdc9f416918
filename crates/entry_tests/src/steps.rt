//! One edit: whether its entry is that of the plain program, word for word.

ghost use Rattle.std.specs.Prelude.{◌≡◌};
ghost use Rattle.entry_tests.specs.Servers.{IsPlanned, IsServer};

use crate::calls::{drafted, plan_of, put};
use hierarchy_edit::{Remade, Stamp};
use op_model::{Changed, Dataset, Edit, Ids, Plan, Refusal};
use pcg_base::{VecWords, Words};
use plain_history::{Asker, History, Row};
use std::alloc::{AllocError, Global};

/// What an edit came to.
#[derive(Clone, Copy, Drop)]
pub enum Came {
    /// It has no plan, or its entry is refused by both calls alike.
    Refused,
    /// Its entry is that of the plain program, and so is each word.
    Agreed,
    /// Something differs.
    Differed,
}

impl Came {
    /// Whether all agreed.
    pub fn is_agreed(self) -> bool {
        match self {
            Came::Agreed => true,
            _ => false,
        }
    }
}

// whether the record at a place has these words
fn same_row(w: &mut VecWords, place: u64, row: &Row) -> bool
    ensures same { w.new ≡ w.old }
{
    for k in 0..4usize {
        let fixed = place.wrapping_mul(8).wrapping_add(k as u64);
        let pointer = fixed.wrapping_add(4);
        if fixed >= w.len() || pointer >= w.len() {
            return false;
        }
        if w.word(fixed) != row.fixed[k] || w.word(pointer) != row.pointers[k] {
            return false;
        }
    }
    true
}

/// Whether the words are those of these records.
pub fn same_rows(w: &mut VecWords, rows: &[Row]) -> bool
    ensures same { w.new ≡ w.old }
{
    let mut place: u64 = 0;
    for row in rows {
        if !same_row(w, place, row) {
            return false;
        }
        place = place.wrapping_add(1);
    }
    w.len() == place.wrapping_mul(8)
}

/// Whether the ids are these.
pub fn are_ids(ids: &Ids, wanted: &[u64]) -> bool {
    let list = ids.list.as_slice();
    for (id, x) in list.iter().zip(wanted.iter()) {
        if id.0 != *x {
            return false;
        }
    }
    list.len() == wanted.len()
}

// whether what is told of an entry is what the plain program has last
fn is_told(done: &Remade, history: &History, tail: u64) -> bool {
    let number = history.entries.wrapping_sub(1);
    let rows = history.rows.list.len() as u64;
    done.op as u64 == number
        && done.at == history.last
        && are_ids(&done.retired, history.retired.as_slice())
        && are_ids(&done.made, history.made.as_slice())
        && done.draft.tail() as u64 == tail
        && tail.wrapping_add(done.draft.rows() as u64) == rows
}

// the timestamp of an entry behind one with the timestamp `last`
fn time_of(last: u64, now: u64) -> u64 {
    now.min(4611686018427387903).max(last.wrapping_add(1))
}

// puts the entry of a plan into the plain program
fn put_plain(
    alloc: Global,
    history: &mut History,
    plan: &Plan,
    stamp: Stamp,
) -> Result<(), AllocError> {
    let asker = Asker {
        client: stamp.client,
        line: stamp.line,
        at: time_of(history.last, stamp.now),
    };
    history.put(alloc, &plan.edit, plan.changed.list.as_slice(), asker)
}

// whether two answers are the same refusal
fn is_refused(one: &Result<Remade, Refusal>, other: &Result<Remade, Refusal>) -> bool {
    match one {
        Ok(_) => false,
        Err(refusal) => is_refusal(other, refusal),
    }
}

/// Whether an answer is this refusal.
pub fn is_refusal(answer: &Result<Remade, Refusal>, wanted: &Refusal) -> bool {
    match answer {
        Ok(_) => false,
        Err(refusal) => refusal == wanted,
    }
}

// whether an answer tells what the plain program has last
fn has_told(answer: &Result<Remade, Refusal>, history: &History, tail: u64) -> bool {
    match answer {
        Ok(done) => is_told(done, history, tail),
        Err(_) => false,
    }
}

// whether both calls refused alike, or both told what the plain program has behind the same entry
fn came_of(
    alloc: Global,
    w: &mut VecWords,
    history: &mut History,
    plan: &Plan,
    stamp: Stamp,
    tail: u64,
    first: &Result<Remade, Refusal>,
    done: &Result<Remade, Refusal>,
) -> Result<Came, AllocError>
    ensures same { w.new ≡ w.old }
{
    if is_refused(first, done) && w.len() / 8 == tail {
        return Ok(Came::Refused);
    }
    put_plain(alloc, history, plan, stamp)?;
    let told = has_told(first, history, tail) && has_told(done, history, tail);
    if told && same_rows(w, history.rows.list.as_slice()) {
        return Ok(Came::Agreed);
    }
    Ok(Came::Differed)
}

/// Puts the entry of a plan into the words and into the plain program.
pub fn put_both(
    alloc: Global,
    w: &mut VecWords,
    dataset: &Dataset,
    history: &mut History,
    plan: &Plan,
    stamp: Stamp,
) -> Result<Came, AllocError>
    requires server { IsServer dataset.now w.old.words w.old.spare }
    requires planned { IsPlanned dataset.now w.old.words plan.now }
    ensures server { IsServer dataset.now w.new.words w.new.spare }
{
    let tail = w.len() / 8;
    let first = drafted(alloc, w, dataset, plan, stamp);
    let done = put(alloc, w, dataset, plan, stamp);
    came_of(alloc, w, history, plan, stamp, tail, &first, &done)
}

/// Puts the entry of an edit into the words and into the plain program, if there is a plan of it.
pub fn edit_both(
    alloc: Global,
    w: &mut VecWords,
    dataset: &Dataset,
    history: &mut History,
    edit: Edit,
    stamp: Stamp,
) -> Result<Came, AllocError>
    requires server { IsServer dataset.now w.old.words w.old.spare }
    ensures server { IsServer dataset.now w.new.words w.new.spare }
{
    let Ok(plan) = plan_of(alloc, w, dataset, edit) else {
        return Ok(Came::Refused);
    };
    put_both(alloc, w, dataset, history, &plan, stamp)
}
