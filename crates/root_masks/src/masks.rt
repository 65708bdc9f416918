//! The locks of roots, as bits of a mask.

ghost use Rattle.std.specs.Prelude.{◌≡◌, ◌<◌, ◌||◌, ◌==◌, ℕ, true};
ghost use Rattle.graph_model.specs.Lists.{has};
ghost use Rattle.op_model.specs.Labels.{root};
ghost use Rattle.op_model.specs.Locks.{lock_of};
ghost use Rattle.record_rows.specs.Readings.{ForEachLog, ForSomeLog, ParentImage};
ghost use Rattle.log_rows.specs.Entries.{HasLog};
ghost use Rattle.root_masks.specs.Masks.{has_bit};

use crate::roots::root_now;
use node_ids::NodeId;
use pcg_base::Words;
use record_rows::layout_of;
use row_words::{Spot, fixed};

/// The number of a root's lock, from 0 to 63.
pub fn lock_number<W: Words>(w: &mut W, root: NodeId) -> u8
    requires image { HasLog ParentImage (W.words w.old) }
    ensures same { w.new ≡ w.old }
    ensures is { ForEachLog ParentImage (W.words w.old) (λ d b log. result ≡ lock_of d.layout root) }
    ensures low { result < 64 }
{
    let word = fixed(w, Spot(0), 0);
    (layout_of(word).unpack(root).segment % 64) as u8
}

/// The mask with the lock of this number too.
pub fn with_lock(mask: u64, number: u8) -> u64
    requires { number < 64 }
    ensures { (l : ℕ) → has_bit result l ≡ (has_bit mask l || number == l) }
{
    mask | 1 << number
}

/// The mask with the lock of the root of a supervoxel too. The base must have the supervoxel.
pub fn with_root<W: Words>(w: &mut W, mask: u64, sv: NodeId) -> u64
    requires known { ForSomeLog ParentImage (W.words w.old) (λ d b log. has b.supervoxels sv ≡ true) }
    ensures same { w.new ≡ w.old }
    ensures is { ForEachLog ParentImage (W.words w.old) (λ d b log. has b.supervoxels sv ≡ true → (l : ℕ) → has_bit result l ≡ (has_bit mask l || lock_of d.layout (root d b log sv) == l)) }
{
    let root = root_now(w, sv);
    let number = lock_number(w, root);
    with_lock(mask, number)
}

/// The mask with the locks of the roots of two supervoxels too. The base must have both.
pub fn with_ends<W: Words>(w: &mut W, mask: u64, first: NodeId, second: NodeId) -> u64
    requires known { ForSomeLog ParentImage (W.words w.old) (λ d b log. (has b.supervoxels first ≡ true) × (has b.supervoxels second ≡ true)) }
    ensures same { w.new ≡ w.old }
    ensures is { ForEachLog ParentImage (W.words w.old) (λ d b log. has b.supervoxels first ≡ true → has b.supervoxels second ≡ true → (l : ℕ) → has_bit result l ≡ (has_bit mask l || (lock_of d.layout (root d b log first) == l || lock_of d.layout (root d b log second) == l))) }
{
    let one = with_root(w, mask, first);
    with_root(w, one, second)
}
