//! The locks of an edit are taken and pinned.

ghost use Rattle.std.specs.Prelude.{◌≡◌, ◌*◌, ◌<◌, ◌≤◌, ℕ, [], true, false, length};
ghost use Rattle.std.specs.List.{AllByRecursion};
ghost use Rattle.graph_model.specs.Lists.{has};
ghost use Rattle.root_masks.specs.Masks.{has_bit};
ghost use Rattle.root_masks.specs.Plans.{AnswersLocks};
ghost use Rattle.shared_rows.specs.Drafting.{IsSeen};
ghost use Rattle.edit_desk.specs.Desk.{Stays};
ghost use Rattle.edit_desk.specs.Pins.{Settled};

use op_model::{Edit, Refusal};
use root_locks::{lock, pin, unlock};
use shared_rows::{Image, Pass, Shared};
use std::sync::Wait;

/// How a try to pin the locks of an edit ended.
#[derive(Clone, Copy, Drop)]
pub enum Tried {
    /// They are pinned, at a log of this length.
    Pinned(u32),
    /// The roots that it touches have changed meanwhile. No lock is held.
    Again,
    /// It is refused at the log of this length. No lock is held.
    Refused(Refusal, u32),
}

/// The locks that an edit needs at what the pass sees, or its first refusal.
fn locks_at(shared: &Shared, pass: &mut Pass, edit: &Edit) -> Result<u64, Refusal>
    requires own { pass.old.table ≡ shared.now.table }
    requires stands { IsSeen pass.old.view }
    ensures same { pass.new ≡ pass.old }
    ensures is { AnswersLocks pass.old.view.dataset pass.old.view.base pass.old.view.log edit.now result }
{
    log_calls::locks(&mut Image { shared, pass }, edit)
}

/// Whether the mask has this bit.
#[tactic(auto, unfolding(root_masks::specs::Masks::has_bit))]
fn has_lock(mask: u64, number: u8) -> bool
    requires { number < 64 }
    ensures { result ≡ has_bit mask number }
{
    (mask >> number) % 2 == 1
}

/// Whether the pass holds this lock or doesn't need it.
fn is_held(pass: &Pass, needed: u64, number: u8) -> bool
    requires { number < 64 }
    ensures { result ≡ true → has_bit needed number ≡ true → has pass.now.view.held number ≡ true }
{
    !has_lock(needed, number) || pass.holds(number)
}

/// Whether the pass holds all locks that it needs.
fn all_held(pass: &Pass, needed: u64) -> bool
    ensures { result ≡ true → (l : ℕ) → l < 64 → has_bit needed l ≡ true → has pass.now.view.held l ≡ true }
{
    for number in 0..64 {
        if !is_held(pass, needed, number) {
            return false;
        }
    }
    true
}

/// Sees whether the locks that are pinned are those that the edit needs now, or gives them back.
fn settle(shared: &Shared, pass: &mut Pass, edit: &Edit, seen: u32) -> Tried
    requires own { pass.old.table ≡ shared.now.table }
    requires stands { IsSeen pass.old.view }
    requires long { length pass.old.view.image ≡ 8 * pass.old.view.tail }
    requires low { AllByRecursion (λ l. l < 64) pass.old.view.held }
    requires pinned { pass.old.view.pinned ≡ pass.old.view.held }
    requires idle { (pass.old.view.turn ≡ false) × (pass.old.view.draft ≡ []) }
    requires seen { seen ≡ length pass.old.view.log }
    ensures table { pass.new.table ≡ pass.old.table }
    ensures idle { (pass.new.view.turn ≡ false) × (pass.new.view.draft ≡ []) }
    ensures stays { Stays pass.old.view pass.new.view }
    ensures settled { Settled edit.now result pass.new.view }
{
    let needed = match locks_at(shared, pass, edit) {
        Ok(needed) => needed,
        Err(refusal) => {
            unlock(shared, pass);
            return Tried::Refused(refusal, seen);
        }
    };
    if all_held(pass, needed) {
        return Tried::Pinned(seen);
    }
    unlock(shared, pass);
    Tried::Again
}

/// Takes the locks of the mask and pins them. Gives the length of the log seen.
fn take_pinned<R: Wait>(rt: &R, shared: &Shared, pass: &mut Pass, mask: u64) -> u32
    requires own { pass.old.table ≡ shared.now.table }
    requires none { pass.old.view.held ≡ [] }
    requires idle { (pass.old.view.turn ≡ false) × (pass.old.view.draft ≡ []) }
    ensures table { pass.new.table ≡ pass.old.table }
    ensures idle { (pass.new.view.turn ≡ false) × (pass.new.view.draft ≡ []) }
    ensures stays { Stays pass.old.view pass.new.view }
    ensures stands { IsSeen pass.new.view }
    ensures long { length pass.new.view.image ≡ 8 * pass.new.view.tail }
    ensures low { AllByRecursion (λ l. l < 64) pass.new.view.held }
    ensures pinned { pass.new.view.pinned ≡ pass.new.view.held }
    ensures seen { result ≡ length pass.new.view.log }
{
    lock(rt, shared, pass, mask);
    pin(shared, pass)
}

/// Looks, takes the locks that the edit needs, and pins them.
pub(crate) fn attempt<R: Wait>(rt: &R, shared: &Shared, pass: &mut Pass, edit: &Edit) -> Tried
    requires own { pass.old.table ≡ shared.now.table }
    requires none { pass.old.view.held ≡ [] }
    requires idle { (pass.old.view.turn ≡ false) × (pass.old.view.draft ≡ []) }
    ensures table { pass.new.table ≡ pass.old.table }
    ensures idle { (pass.new.view.turn ≡ false) × (pass.new.view.draft ≡ []) }
    ensures stays { Stays pass.old.view pass.new.view }
    ensures looks { pass.old.view.looks < pass.new.view.looks }
    ensures settled { Settled edit.now result pass.new.view }
{
    let seen = shared.look(pass);
    let mask = match locks_at(shared, pass, edit) {
        Ok(mask) => mask,
        Err(refusal) => return Tried::Refused(refusal, seen),
    };
    let seen = take_pinned(rt, shared, pass, mask);
    settle(shared, pass, edit, seen)
}
