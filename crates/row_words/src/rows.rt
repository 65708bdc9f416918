//! The words of one record.

ghost use Rattle.std.specs.Prelude.{◌≡◌, ◌<◌, ◌≤◌, ◌+◌, ◌*◌, ◌%◌, ◌^◌, length, slice_index};
ghost use Rattle.record_rows.specs.Readings.{place_of};

use crate::spot::Spot;
use pcg_base::Words;

/// The kind of a record, from 1 to 9: the low 8 bits of its first word. The record must lie within
/// the words.
pub fn kind_of<W: Words>(w: &mut W, spot: Spot) -> u8
    requires within { 8 * spot + 8 ≤ length (W.words w.old) }
    ensures same { w.new ≡ w.old }
    ensures is { result ≡ slice_index (W.words w.old) (8 * spot) % 2 ^ 8 }
{
    (w.word(8 * spot.0 as u64) % 256) as u8
}

/// The fixed word `k`, from 0 to 3, of a record, which must lie within the words.
pub fn fixed<W: Words>(w: &mut W, spot: Spot, k: u8) -> u64
    requires fixed { k < 4 }
    requires within { 8 * spot + 8 ≤ length (W.words w.old) }
    ensures same { w.new ≡ w.old }
    ensures is { result ≡ slice_index (W.words w.old) (8 * spot + k) }
{
    w.word(8 * spot.0 as u64 + k as u64)
}

/// Where the pointer in word `k`, from 4 to 7, of a record leads; `None` exactly where it is empty.
/// The record must lie within the words, and the pointer be the place of a record.
pub fn pointer<W: Words>(w: &mut W, spot: Spot, k: u8) -> Option<Spot>
    requires pointer { (4 ≤ k) × (k < 8) }
    requires within { 8 * spot + 8 ≤ length (W.words w.old) }
    requires place { slice_index (W.words w.old) (8 * spot + k) < 2 ^ 32 }
    ensures same { w.new ≡ w.old }
    ensures is { result ≡ place_of (slice_index (W.words w.old) (8 * spot + k)) }
{
    let place = w.word(8 * spot.0 as u64 + k as u64);
    spot_of(place)
}

/// The place that a pointer's word gives; `None` for 0.
#[tactic(auto, unfolding(record_rows::specs::Readings::place_of))]
fn spot_of(place: u64) -> Option<Spot>
    requires { place < 2 ^ 32 }
    ensures { result ≡ place_of place }
{
    if place == 0 {
        None
    } else {
        Some(Spot(place as u32))
    }
}
