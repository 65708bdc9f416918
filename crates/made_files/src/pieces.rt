//! Texts that are written piece by piece.

ghost use Rattle.std.specs.Prelude.{◌≡◌, ◌≤◌, ℕ, List, IfOk, IsErrOf, OnErr, OnOk};
ghost use Rattle.std.specs.Io.KnownBytes.{Appends};
ghost use Rattle.pcg_base.specs.Causes.{Rose};
ghost use Rattle.pcg_base.specs.Told.{AppendsFront, IsFlushed};
ghost use Rattle.request_lines.specs.Sent.{Puts};
ghost use Rattle.made_files.specs.Writing.{PutsFront};

use pcg_base::{NoMemory, PlaceError, Sink};
use request_lines::Page;

/// A text that is put on a page piece by piece, and drawn from a state.
pub trait Pieces {
    ghost fits: { Self → Type 0 };

    ghost text: { Self → List ℕ };

    ghost state: { Self → ℕ };

    /// Puts the text on a page, by way of a buffer for one piece. Answers the state behind the text. If
    /// memory runs out a front of the text was put.
    fn put_on<K: Sink>(
        &self,
        piece: &mut Vec<u8>,
        page: &mut Page,
        out: &mut K,
    ) -> Result<u64, NoMemory>
        requires { fits self.now }
        ensures text { OnOk result
            (Puts (K.state out.old) (K.state out.new) page.old page.new (text self.now)) }
        ensures state { IfOk result (λ s. s ≡ state self.now) }
        ensures front { OnErr result
            (PutsFront (K.state out.old) (K.state out.new) page.old page.new (text self.now)) };
}

/// Writes a text whole and flushes it, or writes a front of it. Answers the state behind it.
pub fn write_text<T: Pieces, K: Sink>(
    text: &T,
    piece: &mut Vec<u8>,
    out: &mut K,
) -> Result<u64, PlaceError>
    requires { T.fits text.now }
    ensures whole { OnOk result
        (Appends (K.state out.old).held (K.state out.new).held (T.text text.now)) }
    ensures flushed { OnOk result (IsFlushed (K.state out.new).held (K.state out.new).flushed) }
    ensures state { IfOk result (λ s. s ≡ T.state text.now) }
    ensures front { OnErr result
        (AppendsFront (K.state out.old).held (K.state out.new).held (T.text text.now)) }
    ensures later { (K.state out.old).faults ≤ (K.state out.new).faults }
    ensures still { OnOk result ((K.state out.new).faults ≡ (K.state out.old).faults) }
    ensures failed { IsErrOf result PlaceError.Failed
        → Rose (K.state out.old).faults (K.state out.new).faults }
{
    let mut page = Page::new();
    match text.put_on(piece, &mut page, out) {
        Ok(state) => match page.finish(out) {
            Ok(()) => Ok(state),
            Err(_) => Err(PlaceError::Failed),
        },
        Err(_) => Err(PlaceError::NoMemory),
    }
}
