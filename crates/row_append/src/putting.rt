//! One record's words, and one pointer.

ghost use Rattle.std.specs.Prelude.{◌≡◌, ℕ, List, ◌<◌, ◌≤◌, ◌+◌, ◌-◌, ◌*◌, ◌^◌, ◌++◌, length, slice_set};
ghost use Rattle.pcg_base.specs.WordStores.{word_store};
ghost use Rattle.record_rows.specs.Rows.{Row};
ghost use Rattle.record_rows.specs.Words.{words_of};
ghost use Rattle.row_append.specs.Tails.{word_number};

use crate::tail::Tail;
use pcg_base::{VecWords, Words};
use row_words::Spot;

/// The place of the next record.
#[tactic(auto, using(crate::proofs::Counting::places))]
pub(crate) fn next_place(w: &VecWords) -> Spot
    requires places { length w.now.words < 8 * 2 ^ 32 }
    ensures is { (rows : List Row) → w.now.words ≡ words_of rows → result ≡ length rows }
{
    Spot((w.len() / 8) as u32)
}

/// Makes a pointer lead to the record of a place.
pub(crate) fn fill(w: &mut VecWords, tail: Tail, place: Spot)
    requires within { word_number tail < length w.old.words }
    ensures { w.new ≡ word_store (slice_set w.old.words (word_number tail) place) w.old.spare }
{
    w.set(8 * tail.spot.0 as u64 + tail.word as u64, place.0 as u64);
}

/// Puts one record behind the words.
pub(crate) fn put_row(w: &mut VecWords, row: [u64; 8])
    requires room { 8 ≤ w.old.spare }
    ensures { w.new ≡ word_store (w.old.words ++ row) (w.old.spare - 8) }
{
    for word in row {
        w.push(word);
    }
}
