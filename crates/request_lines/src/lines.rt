//! The lines of a stream of bytes.

ghost use Rattle.std.specs.Prelude.{◌≡◌, ◌<◌, [], ◌∷◌, length, IfSome, IfNone};
ghost use Rattle.request_lines.specs.Lines.{lines_of};

/// The first line of some bytes, without its line feed, and what stands behind it. The last line
/// may lack its line feed. `None` where there are no bytes.
pub fn split_line(bytes: &[u8]) -> Option<(&[u8], &[u8])>
    ensures some { IfSome result (λ r. lines_of bytes.now ≡ r.0.now ∷ lines_of r.1.now) }
    ensures shorter { IfSome result (λ r. length r.1.now < length bytes.now) }
    ensures none { IfNone result (bytes.now ≡ []) }
{
    if bytes.is_empty() {
        return None;
    }
    for at in 0..bytes.len() {
        if bytes[at] == b'\n' {
            let (line, _) = bytes.split_at(at);
            let (_, rest) = bytes.split_at(at + 1);
            return Some((line, rest));
        }
    }
    Some(bytes.split_at(bytes.len()))
}
