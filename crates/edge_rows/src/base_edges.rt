//! The record of a base's edge. The base's edges stand in a row behind its chunks, by their pairs,
//! so that one is found by halving.

ghost use Rattle.std.specs.Prelude.{◌≡◌, ◌≢◌, ℕ, List, length, MatchOption};
ghost use Rattle.op_model.specs.declared.base.Dataset.{Dataset};
ghost use Rattle.op_model.specs.declared.base.Base.{Base};
ghost use Rattle.op_model.specs.declared.base.Edge.{Edge};
ghost use Rattle.op_model.specs.declared.entry.Entry.{Entry};
ghost use Rattle.record_rows.specs.Rows.{Row};
ghost use Rattle.record_rows.specs.LogRows.{base_rows, rows_of};
ghost use Rattle.record_rows.specs.Readings.{Image, Holds, HoldsEdge};
ghost use Rattle.edge_rows.specs.BaseEdges.{IsLower, base_before, base_of, base_word, of_base};

use crate::fields::pair_of;
use crate::ordering::{is_before, is_same};
use op_model::Pair;
use pcg_base::Words;
use row_words::{Spot, fixed};

/// The record of the base's edge of this pair; `None` exactly where the base hasn't the pair.
pub(crate) fn base_edge<W: Words>(w: &mut W, pair: &Pair) -> Option<Spot>
    requires image { (d : Dataset) × (b : Base) × (log : List Entry) × Image d b log (W.words w.old) }
    ensures same { w.new ≡ w.old }
    ensures found { (d : Dataset) (b : Base) (log : List Entry) → Image d b log (W.words w.old)
        → MatchOption result ((p : ℕ) (e : Edge) → HoldsEdge d b log p 0 e → e.pair ≢ pair.now) (λ p. (e : Edge) × HoldsEdge d b log p 0 e × (e.pair ≡ pair.now)) }
{
    let place = lower(w, pair);
    if place >= count(w) {
        return None;
    }
    if is_base_of(w, Spot(place), pair) {
        Some(Spot(place))
    } else {
        None
    }
}

// the first place behind the chunks at which no edge of the base stands that is before the pair
fn lower<W: Words>(w: &mut W, pair: &Pair) -> u32
    requires image { (d : Dataset) × (b : Base) × (log : List Entry) × Image d b log (W.words w.old) }
    ensures same { w.new ≡ w.old }
    ensures is { (d : Dataset) (b : Base) (log : List Entry) → Image d b log (W.words w.old) → IsLower (rows_of d b log) (length (base_rows d b)) pair.now result }
{
    let mut low = first_place(w);
    let mut high = count(w);
    while low < high {
        let middle = low + (high - low) / 2;
        if is_base_before(w, Spot(middle), pair) {
            low = middle + 1;
        } else {
            high = middle;
        }
    }
    low
}

// how many records there are
fn count<W: Words>(w: &W) -> u32
    requires image { (d : Dataset) × (b : Base) × (log : List Entry) × Image d b log (W.words w.now) }
    ensures is { (d : Dataset) (b : Base) (log : List Entry) → Image d b log (W.words w.now) → result ≡ length (rows_of d b log) }
{
    (w.len() / 8) as u32
}

// how many records stand before those of the first entry
fn first_place<W: Words>(w: &mut W) -> u32
    requires image { (d : Dataset) × (b : Base) × (log : List Entry) × Image d b log (W.words w.old) }
    ensures same { w.new ≡ w.old }
    ensures is { (d : Dataset) (b : Base) (log : List Entry) → Image d b log (W.words w.old) → result ≡ length (base_rows d b) }
{
    let word = fixed(w, Spot(0), 2);
    (1 + word % 4294967296 + word / 4294967296) as u32
}

// whether the record is that of an edge of the base
fn is_base<W: Words>(w: &mut W, spot: Spot) -> bool
    requires record { (d : Dataset) × (b : Base) × (log : List Entry) × (row : Row) × Image d b log (W.words w.old) × Holds d b log spot row }
    ensures same { w.new ≡ w.old }
    ensures is { (d : Dataset) (b : Base) (log : List Entry) (row : Row) → Image d b log (W.words w.old) → Holds d b log spot row → result ≡ of_base row }
{
    let word = fixed(w, spot, 0);
    is_base_word(word)
}

// whether this is the first word of an edge of the base
#[tactic(auto, unfolding(crate::specs::BaseEdges::base_word))]
fn is_base_word(word: u64) -> bool
    ensures { result ≡ base_word word }
{
    word % 256 == 6 && word / 4294967296 == 0
}

// whether the record is that of an edge of the base before the pair
fn is_base_before<W: Words>(w: &mut W, spot: Spot, pair: &Pair) -> bool
    requires record { (d : Dataset) × (b : Base) × (log : List Entry) × (row : Row) × Image d b log (W.words w.old) × Holds d b log spot row }
    ensures same { w.new ≡ w.old }
    ensures is { (d : Dataset) (b : Base) (log : List Entry) (row : Row) → Image d b log (W.words w.old) → Holds d b log spot row → result ≡ base_before pair.now row }
{
    if !is_base(w, spot) {
        return false;
    }
    let ends = pair_of(w, spot);
    is_before(&ends, pair)
}

// whether the record is that of the base's edge of the pair
fn is_base_of<W: Words>(w: &mut W, spot: Spot, pair: &Pair) -> bool
    requires record { (d : Dataset) × (b : Base) × (log : List Entry) × (row : Row) × Image d b log (W.words w.old) × Holds d b log spot row }
    ensures same { w.new ≡ w.old }
    ensures is { (d : Dataset) (b : Base) (log : List Entry) (row : Row) → Image d b log (W.words w.old) → Holds d b log spot row → result ≡ base_of pair.now row }
{
    if !is_base(w, spot) {
        return false;
    }
    let ends = pair_of(w, spot);
    is_same(&ends, pair)
}
