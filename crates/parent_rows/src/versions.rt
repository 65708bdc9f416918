//! The parents of a supervoxel or a node, entry by entry.

ghost use Rattle.std.specs.Prelude.{◌≡◌, ℕ, ◌+◌, ◌*◌, ◌≤◌, List, length, true, IfSome};
ghost use Rattle.op_model.specs.declared.base.Dataset.{Dataset};
ghost use Rattle.op_model.specs.declared.base.Base.{Base};
ghost use Rattle.op_model.specs.declared.entry.Entry.{Entry};
ghost use Rattle.record_rows.specs.Rows.{Row, Link, LinkRow};
ghost use Rattle.record_rows.specs.Chains.{version_of};
ghost use Rattle.record_rows.specs.LogRows.{rows_of};
ghost use Rattle.record_rows.specs.Readings.{ParentImage, Holds, HoldsId, first_place, next_place, last_place};
ghost use Rattle.record_rows.specs.Versions.{parent_place};
ghost use Rattle.parent_rows.specs.Steps.{IsLinkOf, MayStart, is_version};

use crate::skips::near_link;
use pcg_base::Words;
use row_words::{Spot, fixed, id_of, kind_of, pointer};

/// The place of the parent of the supervoxel or node at a place, as the entries below the prefix
/// left it; `None` where none of them gave it a parent.
pub fn parent_at<W: Words>(w: &mut W, spot: Spot, prefix: u32) -> Option<Spot>
    requires owner { (d : Dataset) × (b : Base) × (log : List Entry) × (id : ℕ) × ParentImage d b log (W.words w.old) × HoldsId d b log spot id }
    ensures same { w.new ≡ w.old }
    ensures is { (d : Dataset) (b : Base) (log : List Entry) (id : ℕ) → ParentImage d b log (W.words w.old) → HoldsId d b log spot id → result ≡ parent_place (rows_of d b log) id prefix }
{
    let Some(link) = newest_below(w, spot, prefix as u64) else {
        return None;
    };
    pointer(w, link, 4)
}

/// The place of the newest link of the supervoxel or node at a place; `None` where it has none.
pub fn last_version<W: Words>(w: &mut W, spot: Spot) -> Option<Spot>
    requires owner { (d : Dataset) × (b : Base) × (log : List Entry) × (id : ℕ) × ParentImage d b log (W.words w.old) × HoldsId d b log spot id }
    ensures same { w.new ≡ w.old }
    ensures is { (d : Dataset) (b : Base) (log : List Entry) (id : ℕ) → ParentImage d b log (W.words w.old) → HoldsId d b log spot id → result ≡ last_place (version_of id) (rows_of d b log) }
{
    newest_below(w, spot, 4294967296)
}

// the newest of the links of the supervoxel or node at a place whose entries are below this one; the
// links stand in the order of their entries, so the first one that is too new ends the walk
fn newest_below<W: Words>(w: &mut W, spot: Spot, below: u64) -> Option<Spot>
    requires owner { (d : Dataset) × (b : Base) × (log : List Entry) × (id : ℕ) × ParentImage d b log (W.words w.old) × HoldsId d b log spot id }
    ensures same { w.new ≡ w.old }
    ensures is { (d : Dataset) (b : Base) (log : List Entry) (id : ℕ) → ParentImage d b log (W.words w.old) → HoldsId d b log spot id → result ≡ last_place (is_version id below) (rows_of d b log) }
{
    let mut found = None;
    let mut at = start(w, spot, below);
    while let Some(link) = at {
        if fixed(w, link, 3) >= below {
            return found;
        }
        found = at;
        at = next_version(w, link);
    }
    found
}

// where the walk to the newest link below this entry may start: at the place that the hints lead to,
// if that is one of its links below the entry, else at its first link
fn start<W: Words>(w: &mut W, spot: Spot, below: u64) -> Option<Spot>
    requires owner { (d : Dataset) × (b : Base) × (log : List Entry) × (id : ℕ) × ParentImage d b log (W.words w.old) × HoldsId d b log spot id }
    ensures same { w.new ≡ w.old }
    ensures is { (d : Dataset) (b : Base) (log : List Entry) (id : ℕ) → ParentImage d b log (W.words w.old) → HoldsId d b log spot id → MayStart (version_of id) (is_version id below) (rows_of d b log) result }
{
    let place = near_link(w, spot.0 as u64, below);
    let Some(link) = tested(w, spot, place, below) else {
        return first_version(w, spot);
    };
    Some(link)
}

// the record at a place, if it is that of a link below this entry of the supervoxel or node
fn tested<W: Words>(w: &mut W, spot: Spot, place: u64, below: u64) -> Option<Spot>
    requires owner { (d : Dataset) × (b : Base) × (log : List Entry) × (id : ℕ) × ParentImage d b log (W.words w.old) × HoldsId d b log spot id }
    ensures same { w.new ≡ w.old }
    ensures is { (d : Dataset) (b : Base) (log : List Entry) (id : ℕ) → ParentImage d b log (W.words w.old) → HoldsId d b log spot id → IfSome result (λ p. (row : Row) × Holds d b log p row × (is_version id below row ≡ true)) }
{
    if place >= w.len() / 8 {
        return None;
    }
    let link = Spot(place as u32);
    let id = id_of(w, spot);
    if is_link(w, link, id, below) {
        Some(link)
    } else {
        None
    }
}

// whether a record is that of a link of this child whose entry is below this one
fn is_link<W: Words>(w: &mut W, link: Spot, id: u64, below: u64) -> bool
    requires within { 8 * link + 8 ≤ length (W.words w.old) }
    ensures same { w.new ≡ w.old }
    ensures is { result ≡ true → IsLinkOf (W.words w.old) link id below }
{
    if kind_of(w, link) != 5 {
        return false;
    }
    let child = fixed(w, link, 1);
    let entry = fixed(w, link, 3);
    child == id && entry < below
}

// the first link of the supervoxel or node at a place
fn first_version<W: Words>(w: &mut W, spot: Spot) -> Option<Spot>
    requires owner { (d : Dataset) × (b : Base) × (log : List Entry) × (id : ℕ) × ParentImage d b log (W.words w.old) × HoldsId d b log spot id }
    ensures same { w.new ≡ w.old }
    ensures is { (d : Dataset) (b : Base) (log : List Entry) (id : ℕ) → ParentImage d b log (W.words w.old) → HoldsId d b log spot id → result ≡ first_place (version_of id) (rows_of d b log) }
{
    pointer(w, spot, 5)
}

// the next link of a link's child
fn next_version<W: Words>(w: &mut W, link: Spot) -> Option<Spot>
    requires link { (d : Dataset) × (b : Base) × (log : List Entry) × (l : Link) × ParentImage d b log (W.words w.old) × Holds d b log link (LinkRow l) }
    ensures same { w.new ≡ w.old }
    ensures is { (d : Dataset) (b : Base) (log : List Entry) (l : Link) → ParentImage d b log (W.words w.old) → Holds d b log link (LinkRow l) → result ≡ next_place (version_of l.child) (rows_of d b log) link }
{
    pointer(w, link, 6)
}
