//! Where the records of children may stand. No contract tells of it: whoever takes such a place tests
//! it by the words.

ghost use Rattle.std.specs.Prelude.{◌≡◌};

use crate::joints::PlacedJoint;
use pcg_base::{NoMemory, Words};
use row_words::Spot;
use std::alloc::Global;

// a list of so many zeros
fn zeros(alloc: Global, count: usize) -> Result<Vec<Spot>, NoMemory> {
    let Ok(list) = (vec![in alloc; Spot(0); count]) else {
        return Err(NoMemory);
    };
    Ok(list)
}

// a word of a record, and 0 where there is none
fn word_or<W: Words>(w: &mut W, place: u64, k: u64) -> u64
    ensures same { w.new ≡ w.old }
{
    if place < w.len() / 8 && k < 8 {
        w.word(8 * place + k)
    } else {
        0
    }
}

// keeps the place of a child's record for its least leaf, if none is kept for that
fn put_guess(list: &mut Vec<Spot>, least: usize, child: u64) {
    if least < list.len() && child < 4294967296 && list[least].0 == 0 {
        list[least] = Spot(child as u32);
    }
}

// keeps the places of a node's children, whose joints begin with this one, and answers which joint
// is the next
fn put_children<W: Words>(
    list: &mut Vec<Spot>,
    w: &mut W,
    joints: &[PlacedJoint],
    first: usize,
    node: Spot,
) -> usize
    ensures same { w.new ≡ w.old }
{
    let mut link = word_or(w, node.0 as u64, 4);
    for k in first..joints.len() {
        if link == 0 {
            return k;
        }
        let child = word_or(w, link, 2);
        put_guess(list, joints[k].b as usize, child);
        link = word_or(w, link, 5);
    }
    joints.len()
}

/// For each of so many supervoxels a place where the record may stand of a child whose least leaf it
/// is; 0 where none is known. The joints begin with those of the nodes at `places` with their
/// children, those of lower layers first, so of several children the lowest one counts.
///
/// # Errors
///
/// `NoMemory` where there is none for the list.
pub fn child_guesses<W: Words>(
    alloc: Global,
    w: &mut W,
    count: usize,
    joints: &[PlacedJoint],
    places: &[Spot],
) -> Result<Vec<Spot>, NoMemory>
    ensures same { w.new ≡ w.old }
{
    let mut list = zeros(alloc, count)?;
    let mut next = 0;
    for place in places {
        next = put_children(&mut list, w, joints, next, *place);
    }
    Ok(list)
}
