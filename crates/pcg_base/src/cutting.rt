//! Texts that are cut at a byte.

ghost use Rattle.std.specs.Prelude.{◌≡◌, ◌==◌, option_map, position};
ghost use Rattle.pcg_base.specs.Cutting.{cut_at};

/// Where the first such byte of a text stands.
fn place_of(byte: u8, text: &[u8]) -> Option<usize>
    ensures { result ≡ position (λ b. b == byte) text.now }
{
    text.iter().position(|b| *b == byte)
}

/// What stands before the first such byte of a text and behind it, or `None` where the byte isn't there.
pub fn cut_at(byte: u8, text: &[u8]) -> Option<(&[u8], &[u8])>
    ensures { option_map (λ p. (p.0.now, p.1.now)) result ≡ cut_at byte text.now }
{
    let Some(at) = place_of(byte, text) else {
        return None;
    };
    let (front, rest) = text.split_at(at);
    let (_, back) = rest.split_at(1);
    Some((front, back))
}
