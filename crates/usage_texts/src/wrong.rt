//! What is wrong with words: the first word that can't stand where it does, or what is missing.
//!
//! It is asked of words that spell no job, and names nothing that a job may have.

use crate::sentences::Sentence;
use crate::texts::form_text;
use crate::uses::{Use, stems_before, use_at, value_of};
use crate::values::{fits_bits, is_of_form, room_of};
use node_ids::read_digits;
use option_words::OptionRule;
use pcg_words::{make_options, rehearse_options, trial_options};

/// How many stems there may be.
const MOST_STEMS: usize = 64;

/// The option of this name.
fn rule_of<'o>(options: &'o [OptionRule], name: &[u8]) -> Option<&'o OptionRule> {
    options.iter().find(|option| option.name.as_bytes() == name)
}

/// Whether one of the first uses is of an option.
fn stands_before(words: &[Vec<u8>], end: usize, name: &[u8]) -> bool {
    for number in 0..end {
        if let Some(Use::Value { option, .. }) = use_at(words, number) {
            if option == name {
                return true;
            }
        }
    }
    false
}

/// Whether an option's value is the name of a file.
fn is_file(option: &[u8]) -> bool {
    option == b"supervoxels".as_slice()
        || option == b"edges".as_slice()
        || option == b"schedule".as_slice()
}

/// Whether a file is one of the two of a stem.
fn is_of_stem(file: &[u8], stem: &[u8]) -> bool {
    match file.strip_prefix(stem) {
        Some(ending) => ending == b".req".as_slice() || ending == b".ans".as_slice(),
        None => false,
    }
}

/// Whether two uses give files of one name.
fn share_a_file(one: Use<'_>, other: Use<'_>) -> bool {
    match one {
        Use::Value { option, value } => is_file(option) && is_file_of(value, other),
        Use::Stem { stem } => is_stem_of(stem, other),
        Use::Lacking { .. } => false,
    }
}

/// Whether a use gives a file of this name.
fn is_file_of(file: &[u8], other: Use<'_>) -> bool {
    match other {
        Use::Value { option, value } => is_file(option) && value == file,
        Use::Stem { stem } => is_of_stem(file, stem),
        Use::Lacking { .. } => false,
    }
}

/// Whether a use gives a file of this stem.
fn is_stem_of(name: &[u8], other: Use<'_>) -> bool {
    match other {
        Use::Value { option, value } => is_file(option) && is_of_stem(value, name),
        Use::Stem { stem } => stem == name,
        Use::Lacking { .. } => false,
    }
}

/// Whether one of the first uses gives a file that a use gives too.
fn shares_before(words: &[Vec<u8>], end: usize, found: Use<'_>) -> bool {
    for number in 0..end {
        if let Some(before) = use_at(words, number) {
            if share_a_file(before, found) {
                return true;
            }
        }
    }
    false
}

/// What is wrong with the text of a value or a stem, or nothing.
fn fault_of_text(text: &[u8]) -> Option<&'static [u8]> {
    if text.is_empty() {
        return Some(b" is empty");
    }
    if text[0] == b'-' {
        return Some(b" begins with a hyphen: ");
    }
    if str::from_utf8(text).is_err() {
        return Some(b" isn't UTF-8: ");
    }
    None
}

/// What is wrong with the value of an option.
fn wrong_value<'a>(
    options: &[OptionRule],
    words: &'a [Vec<u8>],
    number: usize,
    option: &'a [u8],
    value: &'a [u8],
) -> Option<Sentence<'a>> {
    let Some(rule) = rule_of(options, option) else {
        return Some(Sentence::new(b"this mode has no option --").and(option));
    };
    if stands_before(words, number, option) {
        return Some(Sentence::new(b"this option stands twice: --").and(option));
    }
    let of_option = Sentence::new(b"the value of --").and(option);
    if let Some(fault) = fault_of_text(value) {
        return Some(of_option.and(fault).and(value));
    }
    if !is_of_form(rule.name, value) {
        let form = form_text(rule.name);
        return Some(
            of_option
                .and(b" has to be ")
                .and(form)
                .and(b", and is ")
                .and(value),
        );
    }
    if shares_before(words, number, Use::Value { option, value }) {
        return Some(of_option.and(b" is another file's name too: ").and(value));
    }
    None
}

/// What is wrong with a stem.
fn wrong_stem<'a>(words: &'a [Vec<u8>], number: usize, stem: &'a [u8]) -> Option<Sentence<'a>> {
    if let Some(fault) = fault_of_text(stem) {
        return Some(Sentence::new(b"a stem").and(fault).and(stem));
    }
    if stems_before(words, number) >= MOST_STEMS {
        return Some(Sentence::new(b"there are more than 64 stems; this is the 65th: ").and(stem));
    }
    if shares_before(words, number, Use::Stem { stem }) {
        return Some(Sentence::new(
            b"a stem stands twice, or its files have the name of another one: ",
        ).and(stem));
    }
    None
}

/// What is wrong with an option at the end of the words.
fn lacking<'a>(options: &[OptionRule], option: &'a [u8]) -> Sentence<'a> {
    match rule_of(options, option) {
        Some(_) => Sentence::new(b"this option has no value: --").and(option),
        None => Sentence::new(b"this mode has no option --").and(option),
    }
}

/// What is wrong with a use, by its number.
fn wrong_use<'a>(
    options: &[OptionRule],
    has_stems: bool,
    words: &'a [Vec<u8>],
    number: usize,
    found: Use<'a>,
) -> Option<Sentence<'a>> {
    match found {
        Use::Value { option, value } => wrong_value(options, words, number, option, value),
        Use::Stem { stem } if !has_stems => {
            Some(Sentence::new(b"this mode has no stems: ").and(stem))
        }
        Use::Stem { stem } => wrong_stem(words, number, stem),
        Use::Lacking { option } => Some(lacking(options, option)),
    }
}

/// What is missing in words of which each may stand where it does.
fn missing<'a>(
    options: &[OptionRule],
    has_stems: bool,
    words: &'a [Vec<u8>],
) -> Option<Sentence<'a>> {
    for option in options {
        let name = option.name.as_bytes();
        if option.is_required && value_of(words, name).is_none() {
            return Some(Sentence::new(b"this option is missing: --").and(name));
        }
    }
    if has_stems && stems_before(words, words.len()) == 0 {
        return Some(Sentence::new(b"there are no stems"));
    }
    None
}

/// What is wrong with values of which each is of its form.
fn wrong_together(words: &[Vec<u8>]) -> Sentence<'_> {
    let other = Sentence::new(b"these words are no job");
    let (Some(bits), Some(grid)) = (value_of(words, b"bits"), value_of(words, b"grid")) else {
        return other;
    };
    let Some(number) = read_digits(bits) else {
        return other;
    };
    if !fits_bits(number, grid) {
        let front = Sentence::new(
            b"the value of --grid has an axis of more than 2^B chunks, where B is ",
        );
        return front.and(bits).and(b": ").and(grid);
    }
    let (Some(size), Some(room)) = (value_of(words, b"size"), room_of(number, grid)) else {
        return other;
    };
    match read_digits(size) {
        Some(n) if n > room => {
            Sentence::new(
                b"the value of --size is more supervoxels than the grid has room for: ",
            ).and(size)
        }
        _ => other,
    }
}

/// What is wrong with the words behind a mode that has these options, and stems or none.
fn wrong_behind<'a>(options: &[OptionRule], has_stems: bool, words: &'a [Vec<u8>]) -> Sentence<'a> {
    for number in 0..words.len() {
        let Some(found) = use_at(words, number) else {
            break;
        };
        if let Some(wrong) = wrong_use(options, has_stems, words, number, found) {
            return wrong;
        }
    }
    match missing(options, has_stems, words) {
        Some(wrong) => wrong,
        None => wrong_together(words),
    }
}

/// What is wrong with words that are no job.
pub fn wrong_in(words: &[Vec<u8>]) -> Sentence<'_> {
    let Some((mode, rest)) = words.split_first() else {
        return Sentence::new(b"a mode is missing");
    };
    if mode.as_slice() == b"rehearse".as_slice() {
        return wrong_behind(rehearse_options().as_slice(), true, rest);
    }
    if mode.as_slice() == b"make".as_slice() {
        return wrong_behind(make_options().as_slice(), true, rest);
    }
    if mode.as_slice() == b"trial".as_slice() {
        return wrong_behind(trial_options().as_slice(), false, rest);
    }
    Sentence::new(b"there is no mode ").and(mode.as_slice())
}
