//! One file at a place.

ghost use Rattle.std.specs.Prelude.{◌≡◌, ◌≤◌, ℕ, List, [], ◌∷◌, IfOk, IsErrOf, OnErr, OnOk};
ghost use Rattle.pcg_base.specs.Causes.{Rose};
ghost use Rattle.made_files.specs.Writing.{PutsAll, PutsSome, RoseAt, WritesLater};

use crate::pieces::{Pieces, write_text};
use pcg_base::{Place, PlaceError};

/// Writes a file whole, and keeps it back. Answers the state behind its text. After a fault it holds a
/// front of its text, if it was opened.
pub fn write_file<P: Place, T: Pieces>(
    place: &mut P,
    name: &str,
    text: &T,
    piece: &mut Vec<u8>,
) -> Result<u64, PlaceError>
    requires { T.fits text.now }
    ensures whole { OnOk result
        (PutsAll (P.state place.old).files (P.state place.new).files ((name.now, T.text text.now)
        ∷ [])) }
    ensures state { IfOk result (λ s. s ≡ T.state text.now) }
    ensures part { OnErr result
        (PutsSome (P.state place.old).files (P.state place.new).files ((name.now, T.text text.now)
        ∷ [])) }
    ensures failed { IsErrOf result PlaceError.Failed
        → Rose (P.state place.old).writes (P.state place.new).writes }
    ensures failed_here { IsErrOf result PlaceError.Failed
        → RoseAt ((P.state place.old).counts name.now) ((P.state place.new).counts name.now) }
    ensures still { OnOk result ((P.state place.new).writes ≡ (P.state place.old).writes) }
    ensures later { (P.state place.old).writes ≤ (P.state place.new).writes }
    ensures later_here { (n : List ℕ)
        → WritesLater ((P.state place.old).counts n) ((P.state place.new).counts n) }
    ensures reads { (P.state place.new).reads ≡ (P.state place.old).reads }
{
    let mut sink = match place.sink_of(name) {
        Ok(sink) => sink,
        Err(error) => return Err(error),
    };
    let done = write_text(text, piece, &mut sink);
    place.keep_out(name, sink);
    done
}
