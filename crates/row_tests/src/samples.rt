//! The words of three logs of one base: supervoxels p and q in one base chunk, r and s in the next one,
//! with the edges p-q and q-r active and r-s not. They are those of `specs/Samples`.

ghost use Rattle.std.specs.Prelude.{◌≡◌, ◌≤◌, IfOk};
ghost use Rattle.row_tests.specs.Samples.{words_halved, words_ingested, words_regained};

use crate::names::*;
use pcg_base::{NoMemory, VecWords, Words};
use std::alloc::Global;

/// The words of the base with the entry of the ingest alone.
pub fn ingested(alloc: Global) -> Result<VecWords, NoMemory>
    ensures { IfOk result (λ v. v.words ≡ words_ingested) }
{
    let items = [
        2049, GRID, COUNTS, 1, 0, 0, 0, 0, //
        2, P, 0, 0, 8, 16, 0, 0, //
        2, Q, 0, 0, 8, 17, 0, 0, //
        2, R, 0, 0, 9, 18, 0, 0, //
        2, S, 0, 0, 10, 19, 0, 0, //
        3, LEFT_0, 0, 0, 11, 0, 0, 0, //
        3, RIGHT_0, 0, 0, 12, 0, 0, 0, //
        3, TOP_0, 0, 0, 14, 0, 0, 0, //
        262, P, Q, 10, 0, 0, 9, 0, //
        262, Q, R, 7, 0, 0, 10, 0, //
        6, R, S, 5, 0, 0, 0, 0, //
        4, LEFT_1, P, 0, 16, 20, 0, 0, //
        4, RIGHT_1, R, 0, 18, 21, 0, 13, //
        4, RIGHT_2, S, 0, 19, 22, 0, 0, //
        4, TOP_1, P, 0, 20, 0, 0, 15, //
        4, TOP_2, S, 0, 22, 0, 0, 0, //
        5, P, 1, 0, 11, 17, 0, 0, //
        5, Q, 2, 0, 11, 0, 0, 0, //
        5, R, 3, 0, 12, 0, 0, 0, //
        5, S, 4, 0, 13, 0, 0, 0, //
        5, LEFT_1, 11, 0, 14, 21, 0, 0, //
        5, RIGHT_1, 12, 0, 14, 0, 0, 0, //
        5, RIGHT_2, 13, 0, 15, 0, 0, 0, //
        9, 1000, 0, 0, 0, 0, 0, 0, //
    ];
    held(alloc, &items, 0)
}

/// With r and s merged, and p split from s.
pub fn halved(alloc: Global) -> Result<VecWords, NoMemory>
    ensures { IfOk result (λ v. v.words ≡ words_halved) }
{
    let items = [
        2049, GRID, COUNTS, 1, 0, 0, 0, 0, //
        2, P, 0, 0, 8, 16, 0, 0, //
        2, Q, 0, 0, 8, 17, 0, 0, //
        2, R, 0, 0, 9, 18, 0, 0, //
        2, S, 0, 0, 10, 19, 0, 0, //
        3, LEFT_0, 0, 0, 11, 0, 0, 0, //
        3, RIGHT_0, 0, 0, 12, 0, 0, 0, //
        3, TOP_0, 0, 0, 14, 0, 0, 0, //
        262, P, Q, 10, 0, 0, 9, 0, //
        262, Q, R, 7, 0, 0, 10, 0, //
        6, R, S, 5, 32, 0, 0, 0, //
        4, LEFT_1, P, 0, 16, 20, 0, 0, //
        4, RIGHT_1, R, 0, 18, 21, 33, 13, //
        4, RIGHT_2, S, 0, 19, 22, 33, 24, //
        4, TOP_1, P, 0, 20, 0, 33, 15, //
        4, TOP_2, S, 0, 22, 0, 33, 25, //
        5, P, 1, 0, 11, 17, 0, 0, //
        5, Q, 2, 0, 11, 0, 0, 0, //
        5, R, 3, 0, 12, 0, 26, 0, //
        5, S, 4, 0, 13, 0, 27, 0, //
        5, LEFT_1, 11, 0, 14, 21, 28, 0, //
        5, RIGHT_1, 12, 0, 14, 0, 0, 0, //
        5, RIGHT_2, 13, 0, 15, 0, 0, 0, //
        9, 1000, 0, 0, 0, 0, 0, 0, //
        4, RIGHT_3, R, 1, 26, 29, 46, 34, //
        4, TOP_3, P, 1, 28, 0, 46, 36, //
        5, R, 3, 1, 24, 27, 38, 0, //
        5, S, 4, 1, 24, 0, 39, 0, //
        5, LEFT_1, 11, 1, 25, 29, 40, 0, //
        5, RIGHT_3, 24, 1, 25, 0, 0, 0, //
        264, R, 0, 0, 31, 0, 0, 0, //
        520, S, 0, 0, 0, 0, 0, 0, //
        263, R, S, 1, 10, 45, 0, 0, //
        265, 1010, LINE, 1, 30, 32, 23, 0, //
        4, RIGHT_4, R, 2, 38, 41, 0, 35, //
        4, RIGHT_5, S, 2, 39, 42, 0, 0, //
        4, TOP_4, P, 2, 40, 0, 0, 37, //
        4, TOP_5, S, 2, 42, 0, 0, 0, //
        5, R, 3, 2, 34, 0, 0, 0, //
        5, S, 4, 2, 35, 0, 0, 0, //
        5, LEFT_1, 11, 2, 36, 41, 0, 0, //
        5, RIGHT_4, 34, 2, 36, 0, 0, 0, //
        5, RIGHT_5, 35, 2, 37, 0, 0, 0, //
        264, P, 0, 0, 44, 0, 0, 0, //
        520, S, 0, 0, 0, 0, 0, 0, //
        7, R, S, 2, 10, 0, 0, 0, //
        521, 1020, LINE, 2, 43, 45, 33, 0, //
    ];
    held(alloc, &items, 0)
}

/// With r and s merged, that undone, p and s merged, the first merge done again, and undone at last.
pub fn regained(alloc: Global) -> Result<VecWords, NoMemory>
    ensures { IfOk result (λ v. v.words ≡ words_regained) }
{
    let items = [
        2049, GRID, COUNTS, 1, 0, 0, 0, 0, //
        2, P, 0, 0, 8, 16, 0, 0, //
        2, Q, 0, 0, 8, 17, 0, 0, //
        2, R, 0, 0, 9, 18, 0, 0, //
        2, S, 0, 0, 10, 19, 0, 0, //
        3, LEFT_0, 0, 0, 11, 0, 0, 0, //
        3, RIGHT_0, 0, 0, 12, 0, 0, 0, //
        3, TOP_0, 0, 0, 14, 0, 0, 0, //
        262, P, Q, 10, 0, 45, 9, 0, //
        262, Q, R, 7, 0, 0, 10, 0, //
        6, R, S, 5, 32, 0, 45, 0, //
        4, LEFT_1, P, 0, 16, 20, 58, 46, //
        4, RIGHT_1, R, 0, 18, 21, 33, 13, //
        4, RIGHT_2, S, 0, 19, 22, 33, 24, //
        4, TOP_1, P, 0, 20, 0, 33, 15, //
        4, TOP_2, S, 0, 22, 0, 33, 25, //
        5, P, 1, 0, 11, 17, 49, 0, //
        5, Q, 2, 0, 11, 0, 50, 0, //
        5, R, 3, 0, 12, 0, 26, 0, //
        5, S, 4, 0, 13, 0, 27, 0, //
        5, LEFT_1, 11, 0, 14, 21, 28, 0, //
        5, RIGHT_1, 12, 0, 14, 0, 0, 0, //
        5, RIGHT_2, 13, 0, 15, 0, 0, 0, //
        9, 1000, 0, 0, 0, 0, 0, 0, //
        4, RIGHT_3, R, 1, 26, 29, 44, 34, //
        4, TOP_3, P, 1, 28, 0, 44, 36, //
        5, R, 3, 1, 24, 27, 38, 0, //
        5, S, 4, 1, 24, 0, 39, 0, //
        5, LEFT_1, 11, 1, 25, 29, 40, 0, //
        5, RIGHT_3, 24, 1, 25, 0, 0, 0, //
        264, R, 0, 0, 31, 0, 0, 0, //
        520, S, 0, 0, 0, 0, 0, 0, //
        263, R, S, 1, 10, 43, 0, 0, //
        265, 1010, LINE, 1, 30, 32, 23, 0, //
        4, RIGHT_4, R, 2, 38, 41, 66, 35, //
        4, RIGHT_5, S, 2, 39, 42, 58, 47, //
        4, TOP_4, P, 2, 40, 0, 58, 37, //
        4, TOP_5, S, 2, 42, 0, 58, 48, //
        5, R, 3, 2, 34, 0, 61, 0, //
        5, S, 4, 2, 35, 0, 51, 0, //
        5, LEFT_1, 11, 2, 36, 41, 0, 0, //
        5, RIGHT_4, 34, 2, 36, 0, 53, 0, //
        5, RIGHT_5, 35, 2, 37, 0, 0, 0, //
        7, R, S, 2, 10, 65, 0, 0, //
        4294968073, 1020, LINE, 2, 0, 43, 33, 0, //
        EDGE_3, P, S, 1, 57, 0, 0, 0, //
        4, LEFT_2, P, 3, 49, 52, 0, 0, //
        4, RIGHT_6, S, 3, 51, 54, 66, 59, //
        4, TOP_6, P, 3, 52, 0, 66, 60, //
        5, P, 1, 3, 46, 50, 0, 0, //
        5, Q, 2, 3, 46, 0, 0, 0, //
        5, S, 4, 3, 47, 0, 62, 0, //
        5, LEFT_2, 46, 3, 48, 53, 63, 0, //
        5, RIGHT_4, 34, 3, 48, 54, 0, 0, //
        5, RIGHT_6, 47, 3, 48, 0, 0, 0, //
        264, P, 0, 0, 56, 0, 0, 0, //
        520, S, 0, 0, 0, 0, 0, 0, //
        263, P, S, 3, 45, 0, 0, 0, //
        265, 1030, LINE, 3, 55, 57, 44, 0, //
        4, RIGHT_7, R, 4, 61, 64, 76, 67, //
        4, TOP_7, P, 4, 63, 0, 76, 69, //
        5, R, 3, 4, 59, 62, 70, 0, //
        5, S, 4, 4, 59, 0, 71, 0, //
        5, LEFT_2, 46, 4, 60, 64, 72, 0, //
        5, RIGHT_7, 59, 4, 60, 0, 0, 0, //
        263, R, S, 4, 10, 75, 0, 0, //
        4294968329, 1040, LINE, 4, 0, 65, 58, 0, //
        4, RIGHT_8, R, 5, 70, 73, 0, 68, //
        4, RIGHT_9, S, 5, 71, 74, 0, 0, //
        4, TOP_8, P, 5, 72, 0, 0, 0, //
        5, R, 3, 5, 67, 0, 0, 0, //
        5, S, 4, 5, 68, 0, 0, 0, //
        5, LEFT_2, 46, 5, 69, 73, 0, 0, //
        5, RIGHT_8, 67, 5, 69, 74, 0, 0, //
        5, RIGHT_9, 68, 5, 69, 0, 0, 0, //
        7, R, S, 5, 10, 0, 0, 0, //
        4294968073, 1050, LINE, 5, 0, 75, 66, 0, //
    ];
    held(alloc, &items, 0)
}

/// These words, with room for so many more.
///
/// # Errors
///
/// `NoMemory` where there is none for the words.
pub fn held(alloc: Global, items: &[u64], spare: u64) -> Result<VecWords, NoMemory>
    ensures words { IfOk result (λ v. v.words ≡ items.now) }
    ensures spare { IfOk result (λ v. spare ≤ v.spare) }
{
    match Vec::from_slice(alloc, items) {
        Ok(items) => VecWords::new(items, spare),
        Err(_) => Err(NoMemory),
    }
}

/// Whether these words are the same.
pub fn same_words(one: &mut VecWords, other: &mut VecWords) -> bool {
    let count = one.len();
    for k in 0..count {
        if k >= one.len() || k >= other.len() {
            return false;
        }
        if one.word(k) != other.word(k) {
            return false;
        }
    }
    other.len() == count
}
