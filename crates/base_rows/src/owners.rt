//! The header, and the records of supervoxels and chunks.

ghost use Rattle.std.specs.Prelude.{◌≡◌, ℕ, List, ◌≤◌, ◌<◌, ◌+◌, ◌-◌, ◌*◌, ◌^◌, ◌++◌, [], ◌∷◌, length, map};
ghost use Rattle.op_model.specs.declared.base.Dataset.{Dataset as TheDataset};
ghost use Rattle.record_rows.specs.Rows.{HeaderRow, SupervoxelRow, ChunkRow};
ghost use Rattle.record_rows.specs.Words.{words_of};
ghost use Rattle.base_rows.specs.BaseRows.{owner_rows};

use node_ids::NodeId;
use op_model::Dataset;
use pcg_base::VecWords;
use row_append::{push_chunk, push_header, push_supervoxel};

// puts the supervoxels behind the header
fn put_supervoxels(w: &mut VecWords, ids: &[NodeId])
    requires places { length w.old.words + 8 * length ids.now < 8 * 2 ^ 32 }
    requires room { 8 * length ids.now ≤ w.old.spare }
    ensures words { (d : TheDataset) (s c : ℕ) → w.old.words ≡ words_of (HeaderRow d s c ∷ []) → w.new.words ≡ words_of (HeaderRow d s c ∷ map SupervoxelRow ids.now) }
    ensures length { length w.new.words ≡ length w.old.words + 8 * length ids.now }
    ensures room { w.new.spare ≡ w.old.spare - 8 * length ids.now }
{
    for id in ids {
        push_supervoxel(w, *id);
    }
}

// puts the chunks behind the supervoxels
fn put_chunks(w: &mut VecWords, chunks: &[NodeId])
    requires places { length w.old.words + 8 * length chunks.now < 8 * 2 ^ 32 }
    requires room { 8 * length chunks.now ≤ w.old.spare }
    ensures words { (d : TheDataset) (s c : ℕ) (ids : List ℕ) → w.old.words ≡ words_of (HeaderRow d s c ∷ map SupervoxelRow ids)
        → w.new.words ≡ words_of (HeaderRow d s c ∷ map SupervoxelRow ids ++ map ChunkRow chunks.now) }
    ensures length { length w.new.words ≡ length w.old.words + 8 * length chunks.now }
    ensures room { w.new.spare ≡ w.old.spare - 8 * length chunks.now }
{
    for id in chunks {
        push_chunk(w, *id);
    }
}

/// Puts the header, the supervoxels and the chunks into words that are empty yet.
#[tactic(auto, unfolding(crate::specs::BaseRows::owner_rows))]
pub(crate) fn put_owners(w: &mut VecWords, dataset: Dataset, ids: &[NodeId], chunks: &[NodeId])
    requires empty { w.old.words ≡ [] }
    requires places { 1 + length ids.now + length chunks.now < 2 ^ 32 }
    requires room { 8 * (1 + length ids.now + length chunks.now) ≤ w.old.spare }
    ensures words { w.new.words ≡ words_of (owner_rows dataset ids.now chunks.now) }
    ensures length { length w.new.words ≡ 8 * (1 + length ids.now + length chunks.now) }
    ensures room { w.new.spare ≡ w.old.spare - 8 * (1 + length ids.now + length chunks.now) }
{
    push_header(w, dataset, ids.len() as u32, chunks.len() as u32);
    put_supervoxels(w, ids);
    put_chunks(w, chunks);
}
