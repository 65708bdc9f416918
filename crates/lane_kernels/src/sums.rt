//! The sum of affinities.

ghost use Rattle.std.specs.Prelude.{◌≡◌, ◌+◌, ◌-◌, ◌*◌, ◌<◌, ◌≤◌, ◌^◌, length, sum, slice_range};

use std::simd::num::SimdUint;
use std::simd::prelude::u32x8;

// the sum of eight items from a place on, a lane each
fn sum_in(list: &[u32], at: usize) -> u64
    requires { at + 8 ≤ length list.now }
    ensures value { result ≡ sum (slice_range list.now at (at + 8)) }
    ensures small { result ≤ 4294967295 * 8 }
{
    let lanes = u32x8::from_slice(&list[at..]);
    lanes.cast::<u64>().reduce_sum()
}

/// The sum of a list of affinities, exactly: eight lanes at a time, and what is left at the end one
/// by one. At most `2^32 - 1` items of any value below `2^32`, whose sum always fits.
pub fn sum_affinities(list: &[u32]) -> u64
    requires { length list.now < 2 ^ 32 }
    ensures { result ≡ sum list.now }
{
    let mut total = 0u64;
    let whole = list.len() / 8;
    for block in 0..whole {
        total += sum_in(list, 8 * block);
    }
    for i in 8 * whole..list.len() {
        total += u64::from(list[i]);
    }
    total
}
