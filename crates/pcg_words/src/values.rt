//! The values of single words.

ghost use Rattle.std.specs.Prelude.{◌≡◌, ◌≤◌, ◌<◌, ◌^◌, IfSome, Some};
ghost use Rattle.pcg_words.specs.Words.{number_within, grid_of, ticks_of};
ghost use Rattle.pcg_words.specs.Job.{IsAxis};

use chunk_geometry::Grid;
use node_ids::read_digits;
use pcg_base::{Ticks, cut_at};

/// A number from low to high.
#[tactic(auto, unfolding(crate::specs::Words::number_within))]
pub fn number_within(low: u64, high: u64, text: &[u8]) -> Option<u64>
    ensures is { result ≡ number_within low high text.now }
    ensures within { IfSome result (λ n. (low ≤ n) × (n ≤ high)) }
{
    let Some(n) = read_digits(text) else {
        return None;
    };
    if low <= n && n <= high {
        return Some(n);
    }
    None
}

/// The grid of three numbers that fit.
#[tactic(auto, unfolding(chunk_geometry::specs::Grids::grid_of))]
fn grid_within(x: u32, y: u32, z: u32) -> Option<Grid>
    requires x { (1 ≤ x) × (x ≤ 65536) }
    requires y { (1 ≤ y) × (y ≤ 65536) }
    requires z { (1 ≤ z) × (z ≤ 65536) }
    ensures { result ≡ Some (record { x = x; y = y; z = z }) }
{
    Grid::new(x, y, z).ok()
}

/// The grid that three numbers spell, each from 1 to 2 to the number of bits.
#[tactic(auto, unfolding(crate::specs::Words::grid_of))]
pub fn grid_of(bits: u64, text: &[u8]) -> Option<Grid>
    requires { bits ≤ 16 }
    ensures is { result ≡ grid_of bits text.now }
    ensures axes { IfSome result (λ g. (IsAxis bits g.x) × (IsAxis bits g.y) × (IsAxis bits g.z)) }
{
    let Some((first, rest)) = cut_at(b',', text) else {
        return None;
    };
    let Some((second, third)) = cut_at(b',', rest) else {
        return None;
    };
    let most = 1 << bits;
    let Some(x) = number_within(1, most, first) else {
        return None;
    };
    let Some(y) = number_within(1, most, second) else {
        return None;
    };
    let Some(z) = number_within(1, most, third) else {
        return None;
    };
    grid_within(x as u32, y as u32, z as u32)
}

/// The clock that two numbers spell.
#[tactic(auto, unfolding(crate::specs::Words::ticks_of))]
pub fn ticks_of(text: &[u8]) -> Option<Ticks>
    ensures is { result ≡ ticks_of text.now }
    ensures small { IfSome result (λ t. (t.start < 2 ^ 62) × (t.step < 2 ^ 62)) }
{
    let Some((first, second)) = cut_at(b',', text) else {
        return None;
    };
    let most = (1 << 62) - 1;
    let Some(start) = number_within(0, most, first) else {
        return None;
    };
    let Some(step) = number_within(0, most, second) else {
        return None;
    };
    Some(Ticks { start, step })
}
