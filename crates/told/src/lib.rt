//! A value that clauses alone see, and that the caller picks.
//!
//! A clause may only name what its function's arguments are or own. A [`Told`] lies in a struct, and
//! so a clause on the struct can name a value that stands nowhere in memory, as the log that a table
//! of words was made for.
//!
//! The promise: [`Told::of`] makes one whose value is what the caller picked. It has no bytes.
#![tactic(auto)]

ghost use Rattle.std.specs.Prelude.{◌≡◌};

use std::marker::{Model, PhantomData};

/// A `T` as clauses see it. It has no bytes.
pub struct Told<T> {
    marker: PhantomData<T>,
    pub ghost value: { T },
}

impl<T> Model for Told<T> {
    ghost use base.Fml.{ftrue};

    ghost also_owns = { λ _. ftrue };
}

impl<T> Told<T> {
    /// One that tells of this value, which is picked where the call stands.
    pub fn of() -> Told<T>
        ghost value: { T }
        ensures { result.value ≡ value }
    {
        Told {
            marker: PhantomData,
        }
    }
}

impl<T> Drop for Told<T> {
    fn drop(self) {
        let Self { marker: _ } = self;
    }
}
