ghost use Rattle.std.specs.Prelude.{◌≡◌, OnOk, OnErr};
ghost use Rattle.std.specs.Io.KnownBytes.{Appends};
ghost use Rattle.pcg_base.specs.Causes.{HasCause};
ghost use Rattle.pcg_base.specs.Told.{AppendsFront};

use crate::traits::{Failed, Sink};

/// Writes a whole piece. After `Failed` a front of it was written. It flushes nothing.
pub fn write_all<K: Sink>(out: &mut K, piece: &[u8]) -> Result<(), Failed>
    ensures ok { OnOk result (Appends (K.state out.old).held (K.state out.new).held piece.now) }
    ensures err { OnErr result
        (AppendsFront (K.state out.old).held (K.state out.new).held piece.now) }
    ensures unflushed { (K.state out.new).flushed ≡ (K.state out.old).flushed }
    ensures cause { HasCause (K.state out.old).faults (K.state out.new).faults result }
{
    let mut at = 0;
    while at < piece.len() {
        let (_, rest) = piece.split_at(at);
        at += out.write(rest)?;
    }
    Ok(())
}
