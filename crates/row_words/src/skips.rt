//! Hints by which a reader skips along the links of one child.
//!
//! The links of a child stand in the order of their entries. Each has a **part** of 2^k - 1 links
//! right behind it, and its hint leads to the link behind that part. Within a part, parts have half
//! the size: the link that begins the part of a link with k has k - 1, and so has the link that its
//! hint leads to. There a link with k = 0 needs no hint. The other links are the **posts**: the first
//! one has k = 0, and the hint of a post leads to the next one, with k + 1. So from the first link on
//! a reader takes about 2 log2(n) steps to any of n links: along the posts, then down their parts.
//!
//! A link waits until the one that its hint leads to is there. Until then its hint keeps k, whether
//! it is a post, and the link that waits around it. So a new link sets three hints, and no memory is
//! taken. No contract tells of hints: a wrong one costs a reader time and nothing else.

ghost use Rattle.std.specs.Prelude.{◌≡◌};

use pcg_base::{VecWords, Words};

// what a hint keeps of a waiting link beside a place of 24 bits: k, and this much more for a post
const POST: u64 = 32;

const PLACES: u64 = 16777216;

/// Keeps a link as the hint for its child's record, since it is the child's newest, and as the hint
/// of the link that waited for it.
pub fn keep_link(w: &mut VecWords, row: [u64; 8], place: u64)
    ensures { w.new ≡ w.old }
{
    if row[0] == 5 {
        let newest = w.hint(row[2]);
        w.set_hint(row[2], place);
        keep_behind(w, newest, place);
    }
}

/// Keeps the last record as the hint for the header, if that has none: the own record of the first
/// entry, if that is the only one.
pub fn keep_first(w: &mut VecWords)
    ensures { w.new ≡ w.old }
{
    if w.hint(0) == 0 {
        let count = w.len() / 8;
        w.set_hint(0, count.saturating_sub(1));
    }
}

// the hints for one more link, behind the one that was the newest; 0 where there was none
fn keep_behind(w: &mut VecWords, newest: u64, place: u64)
    ensures { w.new ≡ w.old }
{
    let state = w.hint(newest);
    let size = state / PLACES;
    if newest == 0 || state == 0 {
        w.set_hint(place, waiting(POST, 0));
    } else if size % POST > 0 {
        w.set_hint(place, waiting(size % POST - 1, newest));
    } else if size == 0 {
        keep_next(w, state, place);
    } else {
        keep_next(w, newest, place);
    }
}

// the new link is the one that another one waits for, and takes its place
fn keep_next(w: &mut VecWords, waits: u64, place: u64)
    ensures { w.new ≡ w.old }
{
    let state = w.hint(waits);
    w.set_hint(waits, place);
    w.set_hint(place, waiting(next_size(state / PLACES), state));
}

// k for the link that one with this k waits for: posts get greater parts, other links lesser ones
fn next_size(size: u64) -> u64 {
    if size < POST {
        size.saturating_sub(1)
    } else {
        size.saturating_add(1)
    }
}

// what the hint of a waiting link keeps: k, and the link that waits around it
fn waiting(size: u64, around: u64) -> u64 {
    size % 64 * PLACES + around % PLACES
}
