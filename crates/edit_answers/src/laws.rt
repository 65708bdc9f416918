//! The laws, each the contract of a function that does nothing. They are written out in
//! `specs/Laws.antt`.

ghost use Rattle.edit_answers.specs.Laws.{LocksAnswer, PlansAnswer};

/// The locks of an edit as the bits of a mask, or its first refusal, are what the core asks for:
/// the numbers of the bits, ascending, are the locks of the touched roots.
pub fn locks_answer()
    ensures { LocksAnswer }
{}

/// So is the plan of an edit, or why there is none.
pub fn plans_answer()
    ensures { PlansAnswer }
{}
