//! What a place has behind files that were kept back, each law the contract of a function that does
//! nothing.

ghost use Rattle.std.specs.Prelude.{ℕ, List, Option, IsTrue};
ghost use Rattle.pcg_base.specs.States.{PlaceState};
ghost use Rattle.pcg_base.specs.Told.{Files};
ghost use Rattle.pcg_words.specs.Job.{all_differ};
ghost use Rattle.job_files.specs.Places.{EachStep, KeepsIn, KeepsOut};
ghost use Rattle.job_files.specs.Clients.{Empties};
ghost use Rattle.job_files.specs.Kept.{AreKeptIn, AreKeptOut, KeepsOther};

/// Behind sources that were kept back at names that differ, what each had left and how often it
/// failed stands beside its name.
pub fn sources_are_kept()
    ensures { (names : List (List ℕ)) (sources : List (Option (List ℕ) × ℕ)) (old new : PlaceState)
        → IsTrue (all_differ names)
        → EachStep KeepsIn names sources old new → AreKeptIn names sources old new }
{}

/// Behind sinks that were kept back at names that differ, what each holds stands at its name, and
/// how often it failed beside it.
pub fn sinks_are_kept()
    ensures { (names : List (List ℕ)) (sinks : List (Option (List ℕ) × ℕ)) (old new : PlaceState)
        → IsTrue (all_differ names)
        → EachStep KeepsOut names sinks old new → AreKeptOut names sinks old new }
{}

/// Where answers are emptied all other files stay.
pub fn answers_are_emptied()
    ensures { (files files' : Option Files) (names : List (List ℕ)) → Empties files names files'
        → KeepsOther files names files' }
{}
