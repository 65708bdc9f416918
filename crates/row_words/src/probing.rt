//! Where a search probes next, within the part of the records that is left. A good place saves
//! probes, and any place within the part serves.

ghost use Rattle.std.specs.Prelude.{◌<◌, ◌≤◌};

/// Where to probe, from place `low` on and before `high`, for the last record with a number of at
/// most `sought`, if numbers rise along the records from `below` to `above`: as far along the places
/// as `sought` is between the numbers. If the part is still longer than half of `before`, which it
/// was before the last probe, it is its middle. So a search takes at most two logarithms of the
/// records, and few probes if the numbers rise about evenly.
pub fn probe(low: u32, high: u32, below: u64, above: u64, sought: u64, before: u32) -> u32
    requires part { low < high }
    ensures from { low ≤ result }
    ensures to { result < high }
{
    let left = high - low;
    let step = if left > before / 2 {
        (left / 2) as u64
    } else {
        share(left, below, above, sought)
    };
    low + step.min((left - 1) as u64) as u32
}

// the share of these places that the sought number has of the way between two numbers
fn share(places: u32, below: u64, above: u64, sought: u64) -> u64 {
    let far = sought.saturating_sub(below);
    let wide = above.saturating_sub(below);
    // so that the product fits: numbers of entries and ids of a chunk are less, and times in
    // milliseconds need no more than this
    let unit = if wide < 2147483648 { 1 } else { 65536 };
    let part = (far / unit).wrapping_mul(2).wrapping_add(1);
    part.wrapping_mul(places as u64) / (wide / unit).wrapping_mul(2).max(1)
}

/// Where to probe, from place `low` on and before `high`, for the record with the id `sought`, if ids
/// ascend, with `below` on the record before the place `low`, and `above` on that at `high`. The
/// record is at most as many places from an end as the ids are apart. Where that leaves a part out, it
/// is probed as far off as it can be, so ids that follow one another take one probe. If the part is
/// still longer than half of `before`, or nothing is left out, it is the middle.
pub fn probe_ids(low: u32, high: u32, below: u64, above: u64, sought: u64, before: u32) -> u32
    requires part { low < high }
    ensures from { low ≤ result }
    ensures to { result < high }
{
    let left = high - low;
    let from_low = sought.saturating_sub(below).saturating_sub(1);
    let from_high = above.saturating_sub(sought);
    let step = if left > before / 2 {
        (left / 2) as u64
    } else if from_low < left as u64 {
        from_low
    } else if from_high < left as u64 {
        (left as u64) - from_high
    } else {
        (left / 2) as u64
    };
    low + step.min((left - 1) as u64) as u32
}
