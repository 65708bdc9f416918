use std::marker::Model;

/// The place of a record: how many records stand before it. Contracts see the number. The header
/// stands at 0, so no pointer leads there.
#[derive(Clone, Copy, PartialEq, Eq, PartialOrd, Ord, Debug, Drop)]
pub struct Spot(pub u32);

impl Model for Spot {
    ghost use Rattle.std.specs.Prelude.{ℕ};

    ghost Value = { ℕ };

    ghost view = { λ a. a.0 };

    ghost inverse = { λ n. record { 0 = n } };
}
