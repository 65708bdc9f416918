//! The bases of worked edits, and the words and the plain program's log that begin with one.

ghost use Rattle.std.specs.Prelude.{IfOk};
ghost use Rattle.op_model.specs.Valid.{IsDataset};
ghost use Rattle.entry_tests.specs.Servers.{IsServer};

use crate::calls::built;
use op_model::Dataset;
use pcg_base::VecWords;
use plain_history::History;
use std::alloc::Global;
use std::test::Fail;
use table_ingest::read_base;

/// The texts of a base's supervoxels and edges.
pub type Texts = (&'static str, &'static str);

/// p and q in one chunk, r and s in the next one.
pub const SUPERVOXELS: &str =
    "supervoxel\n72057594037927937\n72057594037927938\n72339069014638593\n72339069014638594\n";

/// Edges that join p, q and r, and one that doesn't join s to them.
pub const EDGES: &str =
    "a,b,affinity,active\n72057594037927937,72057594037927938,10,1\n72057594037927938,72339069014638593,7,1\n72339069014638593,72339069014638594,5,0\n";

/// A fifth supervoxel, t, beside r and s.
pub const FIVE: &str =
    "supervoxel\n72057594037927937\n72057594037927938\n72339069014638593\n72339069014638594\n72339069014638595\n";

/// One supervoxel in each of four chunks in a row.
pub const ROW: &str =
    "supervoxel\n72057594037927937\n72339069014638593\n72620543991349249\n72902018968059905\n";

/// Edges that join each of them to the next one.
pub const ROW_EDGES: &str =
    "a,b,affinity,active\n72057594037927937,72339069014638593,2,1\n72339069014638593,72620543991349249,4,1\n72620543991349249,72902018968059905,6,1\n";

/// Two supervoxels.
pub const TWO: &str = "supervoxel\n72057594037927937\n72057594037927938\n";

/// The edge that joins them.
pub const TWO_EDGES: &str = "a,b,affinity,active\n72057594037927937,72057594037927938,1,1\n";

/// The words of a base of these texts, with the entry of its ingest at a time in milliseconds.
pub fn words_of(alloc: Global, texts: Texts, dataset: &Dataset, at: u64) -> Result<VecWords, Fail>
    requires dataset { IsDataset dataset.now }
    ensures server { IfOk result (λ w. IsServer dataset.now w.words w.spare) }
{
    let base = read_base(alloc, texts.0.as_bytes(), texts.1.as_bytes(), dataset)?;
    Ok(built(alloc, &base, dataset, at)?)
}

/// The same log of the plain program.
pub fn history_of(
    alloc: Global,
    texts: Texts,
    dataset: &Dataset,
    at: u64,
) -> Result<History, Fail> {
    let base = read_base(alloc, texts.0.as_bytes(), texts.1.as_bytes(), dataset)?;
    Ok(History::new(alloc, dataset, &base, at)?)
}
