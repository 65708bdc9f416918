//! What a command line says.

ghost use Rattle.std.specs.Prelude.{◌≡◌, [], ◌∷◌, ◌++◌, true, false, map, Some, None, codes, bytes_eq, option_map, unwrap_or, IfOk};
ghost use Rattle.std.specs.List.{list_all};
ghost use Rattle.clap.specs.Simple.{app_of};
ghost use Rattle.clap.specs.Walk.{rule_of, texts};
ghost use Rattle.option_words.specs.Command.{command_of, option_rule, stem_rule};
ghost use Rattle.option_words.specs.Found.{clap_found, is_plain_if_there, known_of, line_in, line_plain, stem_id};
ghost use Rattle.option_words.specs.Grammar.{is_known, is_plain, line_of, only_if};
ghost use Rattle.option_words.specs.Spelled.{Spells, said};
ghost use Rattle.std.specs.Result.{result_map_both};

use crate::options::OptionRule;
use clap::error::ErrorKind;
use clap::{Arg, ArgAction, ArgMatches, Command};
use std::alloc::{AllocError, Global};

/// Why words say nothing.
#[derive(Clone, Copy, Debug, PartialEq, Eq)]
pub enum WordsError {
    /// The words aren't of the command's grammar.
    BadWords,
    /// Memory ran out.
    NoMemory,
}

/// What the words of a command say: the values of its options, and its stems, in the words' own
/// text.
#[derive(Drop)]
pub struct Found<'a> {
    matches: ArgMatches<'a>,
}

impl<'a> Found<'a> {
    /// The value of an option, if the option stands.
    pub fn value(&self, name: &str) -> Option<&'a str>
        ensures { option_map (λ s. s.now) result ≡ (said self.now).value name.now }
    {
        if is_stem_id(name) {
            return None;
        }
        self.matches.get_str(name)
    }

    /// The stems, in order, if there are any.
    pub fn stems(&self) -> Option<&[&'a str]>
        ensures { unwrap_or (option_map (λ s. texts s.now) result) [] ≡ (said self.now).stems }
    {
        self.matches.get_raw("stem")
    }
}

/// Whether a name is the one that the stems have in `clap`.
fn is_stem_id(name: &str) -> bool
    ensures { result ≡ bytes_eq stem_id name.now }
{
    "stem".as_bytes() == name.as_bytes()
}

/// The argument by which `clap` reads an option.
fn option_arg<'a>(alloc: Global, option: &OptionRule) -> Arg<'a>
    ensures rule { rule_of result ≡ option_rule (option.now.name.now, option.now.is_required) }
    ensures local { result.global ≡ false }
{
    Arg::new(alloc, option.name)
        .long(option.name)
        .action(ArgAction::Set)
        .required(option.is_required)
}

/// The argument by which `clap` reads the stems.
fn stem_arg<'a>(alloc: Global) -> Arg<'a>
    ensures rule { rule_of result ≡ stem_rule }
    ensures local { result.global ≡ false }
{
    Arg::new(alloc, "stem")
        .action(ArgAction::Append)
        .required(true)
}

/// The command by which `clap` reads these options, with stems or without.
fn command_with<'a>(
    alloc: Global,
    options: &[OptionRule],
    with_stems: bool,
) -> Result<Command<'a>, AllocError>
    ensures { IfOk result (λ c. app_of c ≡ command_of (known_of options.now) with_stems) }
{
    let command = with_options(alloc, options)?;
    if with_stems {
        return command.arg(stem_arg(alloc));
    }
    Ok(command)
}

/// The command by which `clap` reads these options, without stems.
fn with_options<'a>(alloc: Global, options: &[OptionRule]) -> Result<Command<'a>, AllocError>
    ensures { IfOk result (λ c. app_of c ≡ command_of (known_of options.now) false) }
{
    let mut command = Command::new(alloc, "pcg")
        .no_binary_name(true)
        .disable_help_flag(true)
        .disable_version_flag(true);
    for option in options {
        command = command.arg(option_arg(alloc, option))?;
    }
    Ok(command)
}

/// What `clap` finds in the words.
fn clap_line<'a>(
    alloc: Global,
    options: &[OptionRule],
    with_stems: bool,
    words: &'a [&'a str],
) -> Result<Found<'a>, WordsError>
    ensures { Spells (option_map line_in (clap_found (known_of options.now) with_stems (texts words.entry.now))) (result_map_both said (λ e. e) result) }
{
    let Ok(command) = command_with(alloc, options, with_stems) else {
        return Err(WordsError::NoMemory);
    };
    match command.try_get_matches_from(words) {
        Ok(matches) => Ok(Found { matches }),
        Err(e) => match e.kind() {
            ErrorKind::OutOfMemory => Err(WordsError::NoMemory),
            _ => Err(WordsError::BadWords),
        },
    }
}

/// Whether a text may be a value or a stem: it isn't empty, and begins with no hyphen.
fn is_plain(text: &str) -> bool
    ensures { result ≡ is_plain text.now }
{
    let bytes = text.as_bytes();
    !bytes.is_empty() && bytes[0] != b'-'
}

/// Whether a value is plain, if it stands.
fn is_plain_if_there(text: Option<&str>) -> bool
    ensures { result ≡ is_plain_if_there (option_map (λ s. s.now) text.entry) }
{
    match text {
        Some(text) => is_plain(text),
        None => true,
    }
}

/// Whether all texts are plain.
fn all_plain(list: &[&str]) -> bool
    ensures { result ≡ list_all is_plain (texts list.now) }
{
    for text in list {
        if !is_plain(text) {
            return false;
        }
    }
    true
}

/// Whether the values of all options that stand are plain.
fn values_plain(options: &[OptionRule], found: &Found) -> bool
    ensures { result ≡ list_all (λ k. is_plain_if_there ((said found.now).value k.0)) (known_of options.now) }
{
    for option in options {
        if !is_plain_if_there(found.value(option.name)) {
            return false;
        }
    }
    true
}

/// Whether the stems are plain.
fn stems_plain(found: &Found) -> bool
    ensures { result ≡ list_all is_plain (said found.now).stems }
{
    match found.stems() {
        Some(stems) => all_plain(stems),
        None => true,
    }
}

/// Whether all values and stems are plain.
fn line_plain(options: &[OptionRule], found: &Found) -> bool
    ensures { result ≡ line_plain (known_of options.now) (said found.now) }
{
    values_plain(options, found) && stems_plain(found)
}

/// What the words say, if they are of the grammar of a command with these options, with stems or
/// without. `BadWords` comes exactly if they aren't.
pub fn read_line<'a>(
    alloc: Global,
    options: &[OptionRule],
    with_stems: bool,
    words: &'a [&'a str],
) -> Result<Found<'a>, WordsError>
    requires { is_known (known_of options.now) stem_id ≡ false }
    ensures { Spells (line_of (known_of options.now) with_stems (texts words.entry.now)) (result_map_both said (λ e. e) result) }
{
    match clap_line(alloc, options, with_stems, words) {
        Ok(found) => plain_line(options, found),
        Err(stop) => Err(stop),
    }
}

/// What `clap` found, if all of it is plain.
fn plain_line<'a>(options: &[OptionRule], found: Found<'a>) -> Result<Found<'a>, WordsError>
    ensures { Spells (only_if (line_plain (known_of options.now)) (said found.entry)) (result_map_both said (λ e. e) result) }
{
    if line_plain(options, &found) {
        return Ok(found);
    }
    Err(WordsError::BadWords)
}
