//! Where a walk along a child's links may start. The hints of links lead forwards over ever greater
//! parts of the child's links, as row_words keeps them, so a search by them takes a logarithm of the
//! links. What it finds is tested by the words, and no contract tells how near it is: a worse start
//! costs time and nothing else.

ghost use Rattle.std.specs.Prelude.{◌≡◌};

use crate::near::word_or;
use pcg_base::Words;

/// The place where the walk to the newest link below this entry may start, for the child whose
/// record stands at `child`: the newest link, if it is below the entry, else the last one below it
/// that the hints of links lead to; 0 where no hint is kept for the child.
pub fn near_link<W: Words>(w: &mut W, child: u64, below: u64) -> u64
    ensures same { w.new ≡ w.old }
{
    let newest = w.hint(child);
    if newest == 0 {
        return 0;
    }
    let id = word_or(w, child, 1);
    if is_below(w, newest, id, below) {
        return newest;
    }
    let first = word_or(w, child, 5);
    last_below(w, first, newest, id, below)
}

// the last link below this entry that hints lead to from the first one on, and before the newest
fn last_below<W: Words>(w: &mut W, first: u64, newest: u64, id: u64, below: u64) -> u64
    ensures same { w.new ≡ w.old }
{
    let mut at = 0;
    let mut next = first;
    while at < next && next < newest {
        at = next;
        next = further(w, at, id, below);
    }
    at
}

// the link that a link's hint leads to, if that is below this entry, else the next one, if that is;
// else 0
fn further<W: Words>(w: &mut W, at: u64, id: u64, below: u64) -> u64
    ensures same { w.new ≡ w.old }
{
    let far = w.hint(at);
    if at < far && is_below(w, far, id, below) {
        return far;
    }
    let next = word_or(w, at, 6);
    if is_below(w, next, id, below) {
        next
    } else {
        0
    }
}

// whether the record at a place is that of a link of this child below this entry
fn is_below<W: Words>(w: &mut W, place: u64, id: u64, below: u64) -> bool
    ensures same { w.new ≡ w.old }
{
    word_or(w, place, 0) % 256 == 5 && word_or(w, place, 1) == id && word_or(w, place, 3) < below
}
