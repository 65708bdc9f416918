//! The words of a text, one by one.

ghost use Rattle.std.specs.Prelude.{◌≡◌, ◌≤◌, ◌<◌, ◌∷◌, [], take, drop, length, slice_index, false, true, IfSome, IfNone};
ghost use Rattle.std.specs.List.{list_any};
ghost use Rattle.schedules.specs.Words.{is_blank, is_start, words_of};

/// Whether a byte is a space, a tab, a line feed or a carriage return.
#[tactic(auto, unfolding(crate::specs::Words::is_blank))]
fn is_blank(byte: u8) -> bool
    ensures { result ≡ is_blank byte }
{
    byte == b' ' || byte == b'\t' || byte == b'\n' || byte == b'\r'
}

/// How many blanks a text begins with.
fn blanks(text: &[u8]) -> usize
    ensures within { result ≤ length text.now }
    ensures same { words_of (drop result text.now) ≡ words_of text.now }
    ensures first { result < length text.now → is_blank (slice_index text.now result) ≡ false }
{
    let mut at = 0;
    while at < text.len() && is_blank(text[at]) {
        at += 1;
    }
    at
}

/// How many bytes stand before a text's first blank, and how many it has if it has none.
fn word_end(text: &[u8]) -> usize
    ensures within { result ≤ length text.now }
    ensures whole { list_any is_blank (take result text.now) ≡ false }
    ensures next { is_start (drop result text.now) ≡ true }
{
    let mut at = 0;
    while at < text.len() && !is_blank(text[at]) {
        at += 1;
    }
    at
}

/// The first word of a text and what stands behind it. `None` if it has no word.
pub(crate) fn split_word(text: &[u8]) -> Option<(&[u8], &[u8])>
    ensures some { IfSome result (λ r. words_of text.now ≡ r.0.now ∷ words_of r.1.now) }
    ensures shorter { IfSome result (λ r. length r.1.now < length text.now) }
    ensures none { IfNone result (words_of text.now ≡ []) }
{
    let skipped = blanks(text);
    if skipped >= text.len() {
        return None;
    }
    let (_, rest) = text.split_at(skipped);
    let end = word_end(rest);
    Some(rest.split_at(end))
}
