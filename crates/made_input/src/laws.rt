//! Laws of what is made, each the contract of a function that does nothing.

ghost use Rattle.made_input.specs.Laws.{FirstDraw, TablesHaveRows};

/// Each table's text has the records that it was made of, and no others, as CSV is read.
pub fn tables_have_rows()
    ensures { TablesHaveRows }
{}

/// From the number 1 the first state is 7806831264735756412, and the first draw below 100 is 74.
#[tactic(auto, unfolding(crate::specs::Draws::next, crate::specs::Draws::shown))]
pub fn first_draw()
    ensures { FirstDraw }
{}
