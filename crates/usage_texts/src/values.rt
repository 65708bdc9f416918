//! Which values options may have.

use node_ids::read_digits;
use pcg_base::cut_at;

/// Whether a value is a number of this range.
fn is_within(low: u64, high: u64, value: &[u8]) -> bool {
    match read_digits(value) {
        Some(n) => low <= n && n <= high,
        None => false,
    }
}

/// The three parts of a grid.
fn axes_of(value: &[u8]) -> Option<(&[u8], &[u8], &[u8])> {
    let (x, rest) = cut_at(b',', value)?;
    let (y, z) = cut_at(b',', rest)?;
    Some((x, y, z))
}

/// Whether a value is three numbers of chunks, each at most so many.
fn is_grid(most: u64, value: &[u8]) -> bool {
    match axes_of(value) {
        Some((x, y, z)) => {
            is_within(1, most, x) && is_within(1, most, y) && is_within(1, most, z)
        }
        None => false,
    }
}

/// Whether a value is the two numbers of a clock.
fn is_clock(value: &[u8]) -> bool {
    let most = (1 << 62) - 1;
    match cut_at(b',', value) {
        Some((start, step)) => is_within(0, most, start) && is_within(0, most, step),
        None => false,
    }
}

/// Whether a value may be that of an option, whatever the other options are.
pub fn is_of_form(option: &str, value: &[u8]) -> bool {
    match option {
        "bits" => is_within(1, 16, value),
        "grid" => is_grid(65536, value),
        "merge-affinity" => is_within(1, 4294967295, value),
        "records" => is_within(2, 16777216, value),
        "clock" => is_clock(value),
        "from" => is_within(0, u64::MAX, value),
        "size" => is_within(1, 1000000, value),
        "requests" => is_within(0, 100000, value),
        "clients" => is_within(1, 64, value),
        _ => true,
    }
}

/// Whether a grid has at most 2 to the number of bits chunks along each axis.
pub fn fits_bits(bits: u64, grid: &[u8]) -> bool {
    bits <= 16 && is_grid(1 << bits, grid)
}

/// How many chunks a grid has, at most `2^64 - 1`.
fn chunk_count(grid: &[u8]) -> Option<u64> {
    let (x, y, z) = axes_of(grid)?;
    let x = read_digits(x)?;
    let y = read_digits(y)?;
    let z = read_digits(z)?;
    Some(x.saturating_mul(y).saturating_mul(z))
}

/// How many supervoxels a grid has room for, at most `2^64 - 1`.
pub fn room_of(bits: u64, grid: &[u8]) -> Option<u64> {
    if bits < 1 || bits > 16 {
        return None;
    }
    let segments = (1u64 << (56 - 3 * bits)) - 1;
    Some(chunk_count(grid)?.saturating_mul(segments))
}
