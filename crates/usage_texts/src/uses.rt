//! What the words behind a mode give, read without memory.

use pcg_base::cut_at;

/// What one word or two give.
#[derive(Clone, Copy)]
pub enum Use<'a> {
    /// The value of an option.
    Value { option: &'a [u8], value: &'a [u8] },
    /// An option at the end of the words, which has no value.
    Lacking { option: &'a [u8] },
    /// A stem.
    Stem { stem: &'a [u8] },
}

/// The words that are left to read, and whether the options have ended.
#[derive(Clone, Copy)]
struct Left<'a> {
    words: &'a [Vec<u8>],
    is_ended: bool,
}

/// What an option gives, by what stands behind its hyphens, and the words that are left then.
fn option_use<'a>(text: &'a [u8], behind: &'a [Vec<u8>]) -> (Use<'a>, Left<'a>) {
    let is_ended = false;
    if let Some((option, value)) = cut_at(b'=', text) {
        let words = behind;
        return (Use::Value { option, value }, Left { words, is_ended });
    }
    let option = text;
    match behind.split_first() {
        Some((value, words)) => {
            let value = value.as_slice();
            (Use::Value { option, value }, Left { words, is_ended })
        }
        None => {
            let words = behind;
            (Use::Lacking { option }, Left { words, is_ended })
        }
    }
}

/// What the first of the words that are left gives, and the words that are left then.
fn first_use<'a>(left: Left<'a>) -> Option<(Use<'a>, Left<'a>)> {
    let (word, words) = left.words.split_first()?;
    let stem = word.as_slice();
    if left.is_ended {
        return Some((
            Use::Stem { stem },
            Left {
                words,
                is_ended: true,
            },
        ));
    }
    if stem == b"--".as_slice() {
        let (word, words) = words.split_first()?;
        let stem = word.as_slice();
        return Some((
            Use::Stem { stem },
            Left {
                words,
                is_ended: true,
            },
        ));
    }
    match stem.strip_prefix(b"--".as_slice()) {
        Some(text) => Some(option_use(text, words)),
        None => Some((
            Use::Stem { stem },
            Left {
                words,
                is_ended: false,
            },
        )),
    }
}

/// What these words give, by its number from 0.
pub fn use_at(words: &[Vec<u8>], number: usize) -> Option<Use<'_>> {
    let mut left = Left {
        words,
        is_ended: false,
    };
    for _ in 0..number {
        let (_, behind) = first_use(left)?;
        left = behind;
    }
    let (found, _) = first_use(left)?;
    Some(found)
}

/// The value that an option has, if it stands in these words.
pub fn value_of<'a>(words: &'a [Vec<u8>], name: &[u8]) -> Option<&'a [u8]> {
    for number in 0..words.len() {
        if let Use::Value { option, value } = use_at(words, number)? {
            if option == name {
                return Some(value);
            }
        }
    }
    None
}

/// How many stems the first uses give.
pub fn stems_before(words: &[Vec<u8>], end: usize) -> usize {
    let mut count = 0usize;
    for number in 0..end {
        if let Some(Use::Stem { .. }) = use_at(words, number) {
            count = count.saturating_add(1);
        }
    }
    count
}

/// The stem of a client, whose number counts from 1.
pub fn stem_of(words: &[Vec<u8>], client: u64) -> Option<&[u8]> {
    let mut count = 0u64;
    for number in 0..words.len() {
        if let Use::Stem { stem } = use_at(words, number)? {
            count = count.saturating_add(1);
            if count == client {
                return Some(stem);
            }
        }
    }
    None
}
