//! Sentences about a call, on their way to a person.

ghost use Rattle.pcg_base.specs.Causes.{HasCause};
ghost use Rattle.usage_texts.specs.Told.{PutsSome};

use crate::faults::{Ended, sentence_at};
use crate::last_line::LastLine;
use call_lines::Status;
use pcg_base::{Failed, Sink};
use request_lines::Page;
use usage_texts::{Sentence, put_sentence, write_usage};

/// How many faults a call may have: one for each client.
const MOST: usize = 64;

/// Puts the sentence of a fault on a page, by its number from 0, if there are so many.
#[tactic(auto, using(usage_texts::proofs::Some::some_none))]
fn put_fault<K: Sink>(page: &mut Page, out: &mut K, ended: Ended<'_>, number: usize)
    ensures { PutsSome (K.state out.old) (K.state out.new) page.old page.new }
{
    if let Some(sentence) = sentence_at(ended, number) {
        put_sentence(page, out, &sentence);
    }
}

/// Puts the sentences of a call's faults on a page.
fn put_faults<K: Sink>(page: &mut Page, out: &mut K, ended: Ended<'_>)
    ensures { PutsSome (K.state out.old) (K.state out.new) page.old page.new }
{
    for number in 0..MOST {
        put_fault(page, out, ended, number);
    }
}

/// Puts on a page that the output failed, if it did.
#[tactic(auto, using(usage_texts::proofs::Some::some_none))]
fn put_output<K: Sink>(page: &mut Page, out: &mut K, has_failed: bool)
    ensures { PutsSome (K.state out.old) (K.state out.new) page.old page.new }
{
    if has_failed {
        put_sentence(
            page,
            out,
            &Sentence::new(b"standard output: a write failed"),
        );
    }
}

/// Writes a sentence for each fault.
fn write_faults<K: Sink>(ended: Ended<'_>, has_failed: bool, out: &mut K) -> Result<(), Failed>
    ensures { HasCause (K.state out.old).faults (K.state out.new).faults result }
{
    let mut page = Page::new();
    put_faults(&mut page, out, ended);
    put_output(&mut page, out, has_failed);
    page.finish(out)
}

/// The words behind the mode.
fn behind_mode(words: &[Vec<u8>]) -> &[Vec<u8>] {
    match words.split_first() {
        Some((_, rest)) => rest,
        None => words,
    }
}

/// Tells what a call came to that had these words, answered this status and printed by way of `printed`.
/// If all was done it writes nothing. It takes no memory.
pub fn tell<K: Sink, P: Drop>(
    words: &[Vec<u8>],
    status: Status,
    printed: &LastLine<P>,
    out: &mut K,
) -> Result<(), Failed>
    ensures { HasCause (K.state out.old).faults (K.state out.new).faults result }
{
    if status == Status::Done {
        return Ok(());
    }
    if status == Status::BadWords {
        return write_usage(words, out);
    }
    let ended = Ended {
        words: behind_mode(words),
        status,
        line: printed.line(),
    };
    write_faults(ended, printed.has_failed(), out)
}
