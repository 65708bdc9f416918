//! The record of one entry, and the way to the entry before.

ghost use Rattle.std.specs.Prelude.{◌≡◌, ◌-◌, length};
ghost use Rattle.op_model.specs.declared.entry.Asked.{Asked};
ghost use Rattle.op_model.specs.Answers.{kind_of};
ghost use Rattle.record_rows.specs.Chains.{entry_before};
ghost use Rattle.record_rows.specs.Words.{kind_code};
ghost use Rattle.record_rows.specs.LogRows.{rows_of};
ghost use Rattle.record_rows.specs.Readings.{ForEachLog, ParentImage, first_place};
ghost use Rattle.log_rows.specs.Entries.{AtEntry, ForEntryAt, HasLog};
ghost use Rattle.log_rows.specs.Heads.{head_of};

use op_model::Kind;
use pcg_base::Words;
use row_words::{Spot, fixed, pointer};

/// What an entry's record tells of it, but for its number.
#[derive(Clone, Copy, PartialEq, Eq, Debug, Drop)]
pub struct Head {
    /// The entry's timestamp in milliseconds.
    pub at: u64,
    /// The client that asked it, counted from 1; 0 for the ingest.
    pub client: u32,
    /// The client's line that asked it, counted from 1; 0 for the ingest.
    pub line: u32,
    /// What the entry is.
    pub kind: Kind,
    /// The operation that an undo or a redo names; 0 for any other entry.
    pub names: u64,
}

/// The place of the last record, which is that of the newest entry.
pub fn newest<W: Words>(w: &W) -> Spot
    requires image { HasLog ParentImage (W.words w.now) }
    ensures is { ForEachLog ParentImage (W.words w.now) (λ d b log. result ≡ length (rows_of d b log) - 1) }
{
    Spot((w.len() / 8 - 1) as u32)
}

/// How many records there are.
pub fn count<W: Words>(w: &W) -> u32
    requires image { HasLog ParentImage (W.words w.now) }
    ensures is { ForEachLog ParentImage (W.words w.now) (λ d b log. result ≡ length (rows_of d b log)) }
{
    (w.len() / 8) as u32
}

/// The number of the entry whose record stands there.
pub fn number<W: Words>(w: &mut W, entry: Spot) -> u32
    requires entry { AtEntry (W.words w.old) entry }
    ensures same { w.new ≡ w.old }
    ensures is { ForEntryAt ParentImage (W.words w.old) entry (λ d b log e. result ≡ e.number) }
{
    fixed(w, entry, 3) as u32
}

/// The timestamp of the entry whose record stands there, in milliseconds.
pub fn time<W: Words>(w: &mut W, entry: Spot) -> u64
    requires entry { AtEntry (W.words w.old) entry }
    ensures same { w.new ≡ w.old }
    ensures is { ForEntryAt ParentImage (W.words w.old) entry (λ d b log e. result ≡ e.at) }
{
    fixed(w, entry, 1)
}

/// The place of the record of the entry before; `None` for the first entry.
pub fn before<W: Words>(w: &mut W, entry: Spot) -> Option<Spot>
    requires entry { AtEntry (W.words w.old) entry }
    ensures same { w.new ≡ w.old }
    ensures is { ForEntryAt ParentImage (W.words w.old) entry (λ d b log e. result ≡ first_place (entry_before e.number) (rows_of d b log)) }
{
    pointer(w, entry, 6)
}

/// What the entry is whose record stands there.
pub fn head_at<W: Words>(w: &mut W, entry: Spot) -> Head
    requires entry { AtEntry (W.words w.old) entry }
    ensures same { w.new ≡ w.old }
    ensures is { ForEntryAt ParentImage (W.words w.old) entry (λ d b log e. result ≡ head_of e) }
{
    let first = fixed(w, entry, 0);
    let at = fixed(w, entry, 1);
    let asker = fixed(w, entry, 2);
    Head {
        at,
        client: (asker >> 32) as u32,
        line: (asker % 4294967296) as u32,
        kind: kind_at((first >> 8) % 256),
        names: first >> 32,
    }
}

/// What the code in an entry's record stands for.
fn kind_at(code: u64) -> Kind
    requires kind { (asked : Asked) × (code ≡ kind_code asked) }
    ensures is { (asked : Asked) → code ≡ kind_code asked → result ≡ kind_of asked }
{
    match code {
        0 => Kind::Ingest,
        1 => Kind::Merge,
        2 => Kind::Split,
        3 => Kind::Undo,
        _ => Kind::Redo,
    }
}
