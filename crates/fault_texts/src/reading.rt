//! The fields of a fault line and of the summary's list of faults, in the form in which the program prints
//! them.

use pcg_base::cut_at;

/// What stands behind the first such mark.
fn behind<'a>(line: &'a [u8], mark: &[u8]) -> Option<&'a [u8]> {
    for at in 0..line.len() {
        let (_, rest) = line.split_at(at);
        if let Some(rest) = rest.strip_prefix(mark) {
            return Some(rest);
        }
    }
    None
}

/// The text of a field, by the mark in front of it, which ends in a quote.
pub fn text_behind<'a>(line: &'a [u8], mark: &[u8]) -> Option<&'a [u8]> {
    let (text, _) = cut_at(b'"', behind(line, mark)?)?;
    Some(text)
}

/// The digits of a field, by the mark in front of it.
pub fn digits_behind<'a>(line: &'a [u8], mark: &[u8]) -> Option<&'a [u8]> {
    let rest = behind(line, mark)?;
    let count = rest.iter().position(|byte| !byte.is_ascii_digit())?;
    let (digits, _) = rest.split_at(count);
    Some(digits)
}

/// A client whose session ended in a fault, in the text of a summary.
#[derive(Clone, Copy)]
pub struct FaultText<'a> {
    /// The digits of the client's number.
    pub client: &'a [u8],
    /// The name of its fault.
    pub fault: &'a [u8],
}

/// The first of the faults in a text, and the text behind it.
fn first_fault(text: &[u8]) -> Option<(FaultText<'_>, &[u8])> {
    let text = text.strip_prefix(b"[".as_slice())?;
    let (client, text) = cut_at(b',', text)?;
    let text = text.strip_prefix(b"\"".as_slice())?;
    let (fault, text) = cut_at(b'"', text)?;
    let (_, text) = cut_at(b']', text)?;
    Some((FaultText { client, fault }, text))
}

/// A fault of a summary's list, by its number from 0.
pub fn fault_at(line: &[u8], number: usize) -> Option<FaultText<'_>> {
    let mut text = behind(line, b"\"faults\":[")?;
    for _ in 0..number {
        let (_, rest) = first_fault(text)?;
        text = rest.strip_prefix(b",".as_slice())?;
    }
    let (fault, _) = first_fault(text)?;
    Some(fault)
}
