//! The words with a draft applied.

ghost use Rattle.std.specs.Prelude.{◌≡◌, ◌<◌, ◌≤◌, ◌+◌, ◌-◌, ◌*◌, ◌++◌, length, map, slice_set};
ghost use Rattle.std.specs.List.{concat};
ghost use Rattle.pcg_base.specs.WordStores.{word_store};
ghost use Rattle.record_rows.specs.Growth.{stored};
ghost use Rattle.row_words.specs.Drafts.{applied, store_of};

use crate::draft::{Draft, DraftLink};
use crate::skips::{keep_first, keep_link};
use pcg_base::{VecWords, Words};

/// Fills the draft's pointers and puts its records behind the words, which must end at the draft's
/// tail and have room for them. Each link becomes the hint for its child's record, and the links
/// before it get hints that lead on. The header's hint is the last record that stood before the first
/// draft, as of the first entry. It takes no memory.
pub fn apply(w: &mut VecWords, draft: &Draft)
    requires tail { length w.old.words ≡ 8 * draft.now.tail }
    requires room { 8 * length draft.now.rows ≤ w.old.spare }
    ensures { w.new ≡ word_store (applied draft.now w.old.words) (w.old.spare - 8 * length draft.now.rows) }
{
    fill_pointers(w, draft);
    keep_first(w);
    put_rows(w, draft);
}

/// Fills the draft's pointers.
#[tactic(auto, using(crate::proofs::Filling::none_stored, crate::proofs::Filling::stored_more, crate::proofs::Filling::as_long))]
fn fill_pointers(w: &mut VecWords, draft: &Draft)
    requires tail { length w.old.words ≡ 8 * draft.now.tail }
    ensures { w.new ≡ word_store (stored (map store_of draft.now.links) w.old.words) w.old.spare }
{
    for k in 0..draft.links() {
        fill_pointer(w, draft.link(k));
    }
}

/// Fills one pointer.
fn fill_pointer(w: &mut VecWords, link: DraftLink)
    requires within { 8 * link.from + link.k < length w.old.words }
    ensures { w.new ≡ word_store (slice_set w.old.words (8 * link.from + link.k) link.to) w.old.spare }
{
    w.set(8 * link.from.0 as u64 + link.k as u64, link.to.0 as u64);
}

/// Puts the draft's records behind the words.
#[tactic(auto, using(crate::proofs::Filling::concat_more))]
fn put_rows(w: &mut VecWords, draft: &Draft)
    requires room { 8 * length draft.now.rows ≤ w.old.spare }
    ensures { w.new ≡ word_store (w.old.words ++ concat draft.now.rows) (w.old.spare - 8 * length draft.now.rows) }
{
    for k in 0..draft.rows() {
        put_row(w, draft.row(k));
    }
}

/// Puts one record behind the words.
fn put_row(w: &mut VecWords, row: [u64; 8])
    requires room { 8 ≤ w.old.spare }
    ensures { w.new ≡ word_store (w.old.words ++ row) (w.old.spare - 8) }
{
    let place = w.len() / 8;
    push_row(w, row);
    keep_link(w, row, place);
}

// the eight words of a record behind the others
fn push_row(w: &mut VecWords, row: [u64; 8])
    requires room { 8 ≤ w.old.spare }
    ensures { w.new ≡ word_store (w.old.words ++ row) (w.old.spare - 8) }
{
    for word in row {
        w.push(word);
    }
}
