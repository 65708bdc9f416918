//! Laws, each the contract of a function that does nothing. They are written out in
//! `specs/Laws.antt`.

ghost use Rattle.root_masks.specs.Laws.{LocksLast, PlansStay, RetiredAreLocked};

/// What was answered of an edit at a log is what would be answered at a later one, if no entry in
/// between retired a root of one of the edit's locks. Its locks are the same, and so is what its
/// plan rests on (`locks`); its plan, or the refusal in place of one, is the same too (`plans`).
pub fn answers_last()
    ensures locks { LocksLast }
    ensures plans { PlansStay }
{}

/// The entry of an edit retires only roots whose locks are the edit's, where the first groups of
/// refusals let the edit through.
pub fn retired_are_locked()
    ensures { RetiredAreLocked }
{}
