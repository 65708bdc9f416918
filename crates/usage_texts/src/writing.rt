//! Sentences on their way to a person.

ghost use Rattle.pcg_base.specs.Causes.{HasCause};
ghost use Rattle.usage_texts.specs.Told.{PutsSome};

use crate::sentences::Sentence;
use crate::texts::USAGE;
use crate::wrong::wrong_in;
use pcg_base::{Failed, Sink};
use request_lines::Page;

/// How many bytes of a part are shown.
const SHOWN: usize = 1024;

/// Puts a part of a sentence on a page, with a question mark for each byte that isn't plain text.
fn put_shown<K: Sink>(page: &mut Page, out: &mut K, part: &[u8])
    ensures { PutsSome (K.state out.old) (K.state out.new) page.old page.new }
{
    for at in 0..part.len().min(SHOWN) {
        let byte = part[at];
        let shown = if (32..127).contains(&byte) {
            byte
        } else {
            b'?'
        };
        page.put(out, [shown].as_slice());
    }
}

/// Puts parts on a page, one behind the other.
fn put_parts<K: Sink>(page: &mut Page, out: &mut K, parts: &[&[u8]])
    ensures { PutsSome (K.state out.old) (K.state out.new) page.old page.new }
{
    for part in parts {
        put_shown(page, out, part);
    }
}

/// Puts a sentence on a page, as a line that begins with the program's name. It shows at most 1024 bytes of
/// each part, and a question mark for each byte that isn't plain text.
pub fn put_sentence<K: Sink>(page: &mut Page, out: &mut K, sentence: &Sentence<'_>)
    ensures { PutsSome (K.state out.old) (K.state out.new) page.old page.new }
{
    page.put(out, b"pcg: ");
    put_parts(page, out, sentence.parts());
    page.put(out, b"\n");
}

/// Puts how the program is used on a page.
fn put_usage<K: Sink>(page: &mut Page, out: &mut K)
    ensures { PutsSome (K.state out.old) (K.state out.new) page.old page.new }
{
    for line in USAGE.as_slice() {
        page.put(out, line.as_bytes());
    }
}

/// Writes what is wrong with words that are no job, and how the program is used. It takes no memory.
pub fn write_usage<K: Sink>(words: &[Vec<u8>], out: &mut K) -> Result<(), Failed>
    ensures { HasCause (K.state out.old).faults (K.state out.new).faults result }
{
    let mut page = Page::new();
    put_sentence(&mut page, out, &wrong_in(words));
    put_usage(&mut page, out);
    page.finish(out)
}
