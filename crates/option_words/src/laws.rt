//! Laws of the grammar, each the contract of a function that does nothing.

ghost use Rattle.option_words.specs.Laws.{LinesAreClaps, WorkedLines};

/// The grammar gives for all words what `clap` finds in them, if it takes them and what it finds is
/// plain. The only condition is that no option has the name `stem`, which the stems have in `clap`.
pub fn lines_are_claps()
    ensures { LinesAreClaps }
{}

/// Words that were read by hand.
pub fn worked_lines()
    ensures { WorkedLines }
{}
