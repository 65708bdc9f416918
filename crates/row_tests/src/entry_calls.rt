//! Each call of an entry, where there is one of this number.

ghost use Rattle.std.specs.Prelude.{◌≡◌};
ghost use Rattle.row_tests.specs.Kinds.{IsSample};

use log_rows::{
    Head, TimeRefusal, all_changed, asked, entry_spot, first_change, head, last_about,
    last_about_by_changes, length, next_entry, prefix_at,
};
use op_model::{Asked, ChangedPairs, Entry};
use pcg_base::{NoMemory, VecWords};
use row_words::Spot;
use std::alloc::Global;
use timestamp_reader::entry;

pub fn length_of(w: &mut VecWords) -> u32
    requires sample { IsSample w.old.words }
    ensures same { w.new ≡ w.old }
{
    length(w)
}

pub fn count_at(w: &mut VecWords, t: u64) -> Result<u32, TimeRefusal>
    requires sample { IsSample w.old.words }
    ensures same { w.new ≡ w.old }
{
    prefix_at(w, t)
}

/// An entry's head, the places of its record and of its first change, and the last entry about it.
pub fn entry_row(w: &mut VecWords, n: u32) -> Option<(Head, Spot, Option<Spot>, u32)>
    requires sample { IsSample w.old.words }
    ensures same { w.new ≡ w.old }
{
    if n < length(w) {
        let told = head(w, n);
        let spot = entry_spot(w, n);
        let first = first_change(w, n);
        let last = last_about(w, n);
        Some((told, spot, first, last))
    } else {
        None
    }
}

/// The place of the next entry's record, and the last entry about this one, by changes.
pub fn entry_ahead(w: &mut VecWords, n: u32) -> Option<(Option<Spot>, u32)>
    requires sample { IsSample w.old.words }
    ensures same { w.new ≡ w.old }
{
    if n < length(w) {
        let spot = entry_spot(w, n);
        let next = next_entry(w, spot);
        let last = last_about_by_changes(w, n);
        Some((next, last))
    } else {
        None
    }
}

/// What made an entry, what it changed, and the whole entry.
pub fn entry_lists(
    alloc: Global,
    w: &mut VecWords,
    n: u32,
) -> Result<Option<(Asked, ChangedPairs, Entry)>, NoMemory>
    requires sample { IsSample w.old.words }
    ensures same { w.new ≡ w.old }
{
    if n < length(w) {
        let request = asked(alloc, w, n)?;
        let pairs = all_changed(alloc, w, n)?;
        let whole = entry(alloc, w, n)?;
        Ok(Some((request, pairs, whole)))
    } else {
        Ok(None)
    }
}
