//! The locks and the plan of an undo or redo.

ghost use Rattle.std.specs.Prelude.{◌≡◌, ◌<◌, length, map, IfOk};
ghost use Rattle.op_model.specs.Labels.{root};
ghost use Rattle.op_model.specs.Operations.{changed_by, ends, opposite};
ghost use Rattle.record_rows.specs.Readings.{ForEachLog, ForSomeLog, Image};
ghost use Rattle.log_rows.specs.Entries.{HasLog};
ghost use Rattle.root_masks.specs.Masks.{HasLocks};
ghost use Rattle.root_masks.specs.Plans.{AnswersChange, AnswersLocks, AnswersPlan};
ghost use Rattle.undo_redo.specs.Turns.{IsTurn, turn, turned};

use crate::refusing::refusal_of;
use log_rows::{all_changed, changed, first_change, next_change};
use op_model::{Changed, ChangedPairs, Dataset, Edit, Plan, Refusal};
use pcg_base::{NoMemory, Words};
use root_masks::with_ends;
use std::alloc::Global;

/// An undo of an operation, or else a redo.
#[derive(Clone, Copy, Drop)]
struct Turn {
    /// The operation's number.
    op: u64,
    /// Whether it is an undo.
    back: bool,
}

/// What an undo or a redo turns.
fn turn_of(edit: &Edit) -> Turn
    requires { IsTurn edit.now }
    ensures { edit.now ≡ turn result.back result.op }
{
    match edit {
        Edit::Undo { op } => Turn {
            op: *op,
            back: true,
        },
        Edit::Redo { op } => Turn {
            op: *op,
            back: false,
        },
        _ => unreachable!(),
    }
}

/// The locks of the roots that an undo or redo touches, as bits of a mask, or why it is refused
/// before room, ids and time count. It takes no memory.
pub fn locks<W: Words>(w: &mut W, edit: &Edit) -> Result<u64, Refusal>
    requires image { HasLog Image (W.words w.old) }
    requires kind { IsTurn edit.now }
    ensures same { w.new ≡ w.old }
    ensures is { ForEachLog Image (W.words w.old) (λ d b log. AnswersLocks d b log edit.now result) }
{
    let turn = turn_of(edit);
    match refusal_of(w, turn.op, turn.back) {
        Some(refusal) => Err(refusal),
        None => Ok(mask_of(w, turn.op as u32)),
    }
}

/// The locks of the roots of the ends of the pairs that entry `n`, of which there must be one,
/// changed.
fn mask_of<W: Words>(w: &mut W, n: u32) -> u64
    requires entry { ForSomeLog Image (W.words w.old) (λ d b log. n < length log) }
    ensures same { w.new ≡ w.old }
    ensures is { ForEachLog Image (W.words w.old) (λ d b log. n < length log → HasLocks d.layout (map (root d b log) (ends (changed_by log n))) result) }
{
    let mut mask = 0;
    let mut next = first_change(w, n);
    while let Some(change) = next {
        let pair = changed(w, change).pair;
        mask = with_ends(w, mask, pair.a, pair.b);
        next = next_change(w, change);
    }
    mask
}

/// The pairs that an undo or redo changes, or why it is refused before room, ids and time count.
///
/// # Errors
///
/// The refusal, or `NoMemory` where there is none for the list of pairs.
pub fn plan<W: Words>(
    alloc: Global,
    w: &mut W,
    _dataset: &Dataset,
    edit: Edit,
) -> Result<Plan, Refusal>
    requires image { HasLog Image (W.words w.old) }
    requires kind { IsTurn edit }
    ensures same { w.new ≡ w.old }
    ensures is { ForEachLog Image (W.words w.old) (λ d b log. AnswersPlan d b log edit result) }
{
    match planned(alloc, w, &edit) {
        Ok(changed) => Ok(Plan {
            edit,
            changed,
            shown: None,
        }),
        Err(refusal) => Err(refusal),
    }
}

/// The pairs that an undo or redo changes, or why there is no plan of it.
fn planned<W: Words>(alloc: Global, w: &mut W, edit: &Edit) -> Result<ChangedPairs, Refusal>
    requires image { HasLog Image (W.words w.old) }
    requires kind { IsTurn edit.now }
    ensures same { w.new ≡ w.old }
    ensures is { ForEachLog Image (W.words w.old) (λ d b log. AnswersChange d b log edit.now result) }
{
    let turn = turn_of(edit);
    if let Some(refusal) = refusal_of(w, turn.op, turn.back) {
        return Err(refusal);
    }
    match changes_of(alloc, w, turn.op as u32, turn.back) {
        Ok(changed) => Ok(changed),
        Err(_) => Err(Refusal::NoMemory),
    }
}

/// The pairs that entry `n`, of which there must be one, changed, with the opposite states or else
/// with those that it gave.
fn changes_of<W: Words>(
    alloc: Global,
    w: &mut W,
    n: u32,
    back: bool,
) -> Result<ChangedPairs, NoMemory>
    requires entry { ForSomeLog Image (W.words w.old) (λ d b log. n < length log) }
    ensures same { w.new ≡ w.old }
    ensures is { ForEachLog Image (W.words w.old) (λ d b log. n < length log → IfOk result (λ cs. cs ≡ map (turned back) (changed_by log n))) }
{
    let changes = all_changed(alloc, w, n)?;
    if !back {
        return Ok(changes);
    }
    opposites(alloc, changes.list.as_slice())
}

/// The same pairs with the opposite states.
fn opposites(alloc: Global, changes: &[Changed]) -> Result<ChangedPairs, NoMemory>
    ensures { IfOk result (λ cs. cs ≡ map opposite changes.now) }
{
    let mut list = Vec::new(alloc);
    for done in 0..changes.len() {
        let change = changes[done];
        let Ok(()) = list.push(opposite_of(change)) else {
            return Err(NoMemory);
        };
    }
    Ok(ChangedPairs { list })
}

/// The same pair with the opposite state.
#[tactic(auto, unfolding(op_model::specs::Operations::opposite))]
fn opposite_of(change: Changed) -> Changed
    ensures { result ≡ opposite change }
{
    Changed {
        pair: change.pair,
        active: !change.active,
    }
}
