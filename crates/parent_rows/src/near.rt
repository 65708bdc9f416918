//! Where a walk along a chunk's nodes may start. The nodes of a base follow one another in each chunk,
//! so an id tells how far its node stands behind the chunk's first one. The nodes of the top chunk
//! are the roots, of which each entry makes some, as its last nodes, with greater numbers than before:
//! so probes over the records find the entry. What they find is tested by the words, and no contract
//! tells how near it is: a worse start costs time and nothing else.

ghost use Rattle.std.specs.Prelude.{◌≡◌, ℕ, ◌≤◌, List, IfSome};
ghost use Rattle.op_model.specs.declared.base.Dataset.{Dataset};
ghost use Rattle.op_model.specs.declared.base.Base.{Base};
ghost use Rattle.op_model.specs.declared.entry.Entry.{Entry};
ghost use Rattle.record_rows.specs.LogRows.{rows_of};
ghost use Rattle.record_rows.specs.Rows.{Node};
ghost use Rattle.record_rows.specs.Readings.{ParentImage, HoldsChunk, HoldsNode};
ghost use Rattle.parent_rows.specs.Steps.{IsNear};

use crate::chunk_nodes::first_node;
use crate::runs::{is_of, layout};
use pcg_base::Words;
use row_words::{Spot, id_of, probe};

/// Where the walk along a chunk's nodes to this id may start: at one of them whose id is at most
/// this one, or at the first. It is the node itself if the base made it. In the top chunk it is
/// else the last root that an entry made.
pub fn near_node<W: Words>(w: &mut W, chunk: Spot, id: u64) -> Option<Spot>
    requires chunk { (d : Dataset) × (b : Base) × (log : List Entry) × (c : ℕ) × ParentImage d b log (W.words w.old) × HoldsChunk d b log chunk c }
    ensures same { w.new ≡ w.old }
    ensures is { (d : Dataset) (b : Base) (log : List Entry) (c : ℕ) → ParentImage d b log (W.words w.old) → HoldsChunk d b log chunk c → IsNear (rows_of d b log) c id result }
{
    let place = near_place(w, chunk.0 as u64, id);
    let Some(node) = tested(w, place, chunk, id) else {
        return first_node(w, chunk);
    };
    Some(node)
}

// the record at a place, if it is that of a node of the chunk whose id is at most this one
fn tested<W: Words>(w: &mut W, place: u64, chunk: Spot, id: u64) -> Option<Spot>
    requires chunk { (d : Dataset) × (b : Base) × (log : List Entry) × (c : ℕ) × ParentImage d b log (W.words w.old) × HoldsChunk d b log chunk c }
    ensures same { w.new ≡ w.old }
    ensures is { (d : Dataset) (b : Base) (log : List Entry) (c : ℕ) → ParentImage d b log (W.words w.old) → HoldsChunk d b log chunk c → IfSome result (λ p. (m : Node) × HoldsNode d b log p m × (m.chunk ≡ c) × (m.id ≤ id)) }
{
    if place >= w.len() / 8 {
        return None;
    }
    let node = Spot(place as u32);
    let ids = layout(w);
    let key = id_of(w, chunk);
    if is_of(w, node, ids, key, id) {
        Some(node)
    } else {
        None
    }
}

// where the node of this id would stand if it is the base's and that is so; else a root's place
fn near_place<W: Words>(w: &mut W, chunk: u64, id: u64) -> u64
    ensures same { w.new ≡ w.old }
{
    let first = word_or(w, chunk, 4);
    let start = word_or(w, first, 1);
    let place = first.saturating_add(id.saturating_sub(start));
    if word_or(w, place, 0) % 256 == 4 && word_or(w, place, 1) == id {
        return place;
    }
    if chunk == last_chunk(w) {
        root_place(w, chunk, id)
    } else {
        0
    }
}

// the place of the last root that an entry behind the first one made, of the newest entry whose last
// root is at most this one; 0 where there is none. The last record is the newest entry's own, which
// word 3 numbers
fn root_place<W: Words>(w: &mut W, chunk: u64, id: u64) -> u64
    ensures same { w.new ≡ w.old }
{
    let count = (w.len() / 8).min(4294967295);
    let newest = count.saturating_sub(1);
    if word_or(w, newest, 3) == 0 {
        return 0;
    }
    let root = last_root(w, newest);
    let above = word_or(w, root, 1);
    if above <= id {
        return root;
    }
    let first = word_or(w, chunk, 4).min(count);
    let below = word_or(w, first, 1);
    last_root_to(w, id, first as u32, count as u32, below, above)
}

// the place of the last root of the newest entry that names a record in a part of the records and
// whose last root is at most this one; 0 where there is none. The roots rise from one to another id
fn last_root_to<W: Words>(w: &mut W, id: u64, first: u32, count: u32, start: u64, end: u64) -> u64
    ensures same { w.new ≡ w.old }
{
    let mut found = 0;
    let mut low = first;
    let mut high = count;
    let mut below = start;
    let mut above = end;
    let mut before = u32::MAX;
    while low < high {
        let middle = probe(low, high, below, above, id, before);
        before = high - low;
        let mark = next_mark(w, middle, high);
        if mark >= high {
            high = middle;
        } else if word_or(w, mark as u64, 3) == 0 {
            low = mark + 1;
        } else {
            let root = last_root(w, mark as u64);
            let here = word_or(w, root, 1);
            if here == id {
                return root;
            }
            if here < id {
                found = root;
                below = here;
                low = mark + 1;
            } else {
                above = here;
                high = middle;
            }
        }
    }
    found
}

// the place of the last root made by the entry that the record names, which is a node's, a link's or
// an entry's own. Its nodes and then its links stand in a row, and the last link leads to that root
fn last_root<W: Words>(w: &mut W, mark: u64) -> u64
    ensures same { w.new ≡ w.old }
{
    let link = if word_or(w, mark, 0) % 256 == 9 {
        link_before(w, mark)
    } else {
        last_in_row(w, mark)
    };
    word_or(w, link, 4)
}

// the first record from a place on and before the end that is a node's, a link's or an entry's own
fn next_mark<W: Words>(w: &mut W, from: u32, end: u32) -> u32
    ensures same { w.new ≡ w.old }
    ensures behind { from ≤ result }
{
    let mut at = from;
    while at < end && !is_mark(word_or(w, at as u64, 0)) {
        at += 1;
    }
    at
}

// whether a record with this first word is a node's, a link's or an entry's own
fn is_mark(word: u64) -> bool {
    let kind = word % 256;
    kind == 4 || kind == 5 || kind == 9
}

// the last of the nodes and links that stand in a row from a place on
fn last_in_row<W: Words>(w: &mut W, from: u64) -> u64
    ensures same { w.new ≡ w.old }
{
    let end = w.len() / 8;
    let mut at = from;
    while at < end && is_made(word_or(w, at + 1, 0)) {
        at += 1;
    }
    at
}

// whether a record with this first word is a node's or a link's
fn is_made(word: u64) -> bool {
    let kind = word % 256;
    kind == 4 || kind == 5
}

// the last record up to a place that is a link's
fn link_before<W: Words>(w: &mut W, from: u64) -> u64
    ensures same { w.new ≡ w.old }
{
    let mut at = from;
    while at > 0 && word_or(w, at, 0) % 256 != 5 {
        at -= 1;
    }
    at
}

// the place of the last chunk, which is the top one
fn last_chunk<W: Words>(w: &mut W) -> u64
    ensures same { w.new ≡ w.old }
{
    let counts = word_or(w, 0, 2);
    counts % 4294967296 + counts / 4294967296
}

/// A word of a record, and 0 where there is none.
pub fn word_or<W: Words>(w: &mut W, place: u64, k: u64) -> u64
    ensures same { w.new ≡ w.old }
{
    if place < w.len() / 8 && k < 8 {
        w.word(8 * place + k)
    } else {
        0
    }
}
