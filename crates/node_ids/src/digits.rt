//! Numbers as decimal texts.

ghost use Rattle.std.specs.Prelude.{◌≡◌, ◌≤◌, Some, take, drop, decimal};
ghost use Rattle.node_ids.specs.Digits.{number_of};

use itoa::Buffer;

/// The number below 2^64 that a text spells with 1 to 20 decimal digits, without a sign, a blank or a leading zero
/// (the text `0` is fine). `None` where it spells none.
pub fn read_digits(text: &[u8]) -> Option<u64>
    ensures { result ≡ number_of text.now }
{
    if text.is_empty() || text.len() > 20 {
        return None;
    }
    if text[0] == b'0' && text.len() > 1 {
        return None;
    }
    // `parse` takes a plus sign
    if text[0] == b'+' {
        return None;
    }
    let Ok(text) = str::from_utf8(text) else {
        return None;
    };
    let Ok(number) = text.parse::<u64>() else {
        return None;
    };
    Some(number)
}

/// Writes the digits of a number at the front of a buffer, and answers how many they are, from 1 to 20.
/// What lies behind them stays as it was.
pub fn write_digits(n: u64, into: &mut [u8; 20]) -> usize
    ensures digits { take result into.new ≡ decimal n }
    ensures read { number_of (take result into.new) ≡ Some n }
    ensures count { (1 ≤ result) × (result ≤ 20) }
    ensures behind { drop result into.new ≡ drop result into.old }
{
    let mut buffer = Buffer::new();
    let text = buffer.format(n).as_bytes();
    into[..text.len()].copy_from_slice(text);
    text.len()
}
