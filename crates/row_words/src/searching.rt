//! The record of an id, found by halving of what the ids leave.

ghost use Rattle.std.specs.Prelude.{◌≡◌, ◌<◌, ◌≤◌, ◌+◌, ◌*◌, ◌^◌, length};
ghost use Rattle.record_rows.specs.Sorted.{FoundAmong, Sorted, id_at, supervoxel_count};

use crate::probing::probe_ids;
use crate::rows::fixed;
use crate::spot::Spot;
use pcg_base::Words;

/// The record of this id among `count` records from `first` on; `None` exactly where none has it.
/// The ids, which stand in word 1 of these records, must ascend.
pub fn find_sorted<W: Words>(w: &mut W, first: Spot, count: u32, id: u64) -> Option<Spot>
    requires sorted { Sorted (W.words w.old) first count }
    ensures same { w.new ≡ w.old }
    ensures found { FoundAmong (W.words w.old) first count id result }
{
    let mut low = 0;
    let mut high = count;
    let mut below = 0;
    let mut above = u64::MAX;
    let mut before = u32::MAX;
    while low < high {
        let middle = probe_ids(low, high, below, above, id, before);
        before = high - low;
        let spot = behind(first, middle);
        let here = id_of(w, spot);
        if here == id {
            return Some(spot);
        }
        if here < id {
            low = middle + 1;
            below = here;
        } else {
            high = middle;
            above = here;
        }
    }
    None
}

/// The place `k` records behind this one.
fn behind(first: Spot, k: u32) -> Spot
    requires { first + k < 2 ^ 32 }
    ensures { result ≡ first + k }
{
    Spot(first.0 + k)
}

/// The id of a supervoxel, a chunk or a node, which word 1 of its record is. The record must lie
/// within the words.
#[tactic(auto, unfolding(record_rows::specs::Sorted::id_at))]
pub fn id_of<W: Words>(w: &mut W, spot: Spot) -> u64
    requires within { 8 * spot + 8 ≤ length (W.words w.old) }
    ensures same { w.new ≡ w.old }
    ensures is { result ≡ id_at (W.words w.old) spot }
{
    fixed(w, spot, 1)
}

/// The record of a supervoxel; `None` exactly where the header counts none of this id. The
/// supervoxels stand behind the header, and their ids must ascend.
pub fn supervoxel<W: Words>(w: &mut W, id: u64) -> Option<Spot>
    requires header { 8 ≤ length (W.words w.old) }
    requires sorted { Sorted (W.words w.old) 1 (supervoxel_count (W.words w.old)) }
    ensures same { w.new ≡ w.old }
    ensures found { FoundAmong (W.words w.old) 1 (supervoxel_count (W.words w.old)) id result }
{
    let count = count_supervoxels(w);
    find_sorted(w, Spot(1), count, id)
}

/// How many supervoxels the header counts.
#[tactic(auto, unfolding(record_rows::specs::Sorted::supervoxel_count))]
fn count_supervoxels<W: Words>(w: &mut W) -> u32
    requires header { 8 ≤ length (W.words w.old) }
    ensures same { w.new ≡ w.old }
    ensures is { result ≡ supervoxel_count (W.words w.old) }
{
    (fixed(w, Spot(0), 2) % 4294967296) as u32
}
