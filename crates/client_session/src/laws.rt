//! Laws of the lines that a session gives, each the contract of a function that does nothing.

ghost use Rattle.std.specs.Prelude.{◌≡◌, ◌-◌, ◌^◌, List, ◌∷◌, [], ◌++◌, length, take, false};
ghost use Rattle.request_lines.specs.Lines.{lines_of};
ghost use Rattle.client_session.specs.Feeds.{NoFeed, IsNext, IsEnd, IsFault, IsTooLong};
ghost use Rattle.client_session.specs.Giving.{HasGiven, ended_of};

/// The lines that a session gave, each answer in its turn, are all lines of what it took. Of a
/// stream that was read to its end these are all its lines. Before a fault, and within the limit,
/// they are those that a line feed ended.
pub fn lines_are_given()
    ensures none { HasGiven false [] [] [] }
    ensures next { (taken read rest after line lines over left : _) → HasGiven false taken lines rest
        → IsNext line over (length taken - length rest) (rest ++ read) after left → HasGiven over (taken ++ read) (lines ++ (line ∷ [])) after }
    ensures end { (taken read rest after lines over left : _) → HasGiven over taken lines rest
        → IsEnd over (rest ++ read) after left → lines_of (taken ++ read) ≡ lines }
    ensures fault { (taken read rest lines before now : _) → HasGiven false taken lines rest
        → IsFault (rest ++ read) before now → ended_of (taken ++ read) ≡ lines }
    ensures long { (taken read rest lines : _) → HasGiven false taken lines rest
        → IsTooLong (length taken - length rest) (rest ++ read) → ended_of (take (2 ^ 30) (taken ++ read)) ≡ lines }
{}

/// The lines of a stream that broke off are those of its front up to the last line feed, or none if
/// it has no line feed.
pub fn ended_lines_are_lines()
    ensures none { (rest : _) → NoFeed rest → ended_of rest ≡ [] }
    ensures front { (front rest : _) → NoFeed rest → ended_of (front ++ (10 ∷ rest)) ≡ lines_of (front ++ (10 ∷ [])) }
{}
