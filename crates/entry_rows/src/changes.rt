//! The changes of an entry.

ghost use Rattle.std.specs.Prelude.{◌≡◌, ℕ, List, [], ◌∷◌, ◌++◌, ◌<◌, ◌≤◌, ◌+◌, ◌*◌, ◌^◌, length, map, None, OnOk};
ghost use Rattle.record_rows.specs.Rows.{Row, ChangeRow};
ghost use Rattle.grown_rows.specs.Aimed.{ChangesEnd};
ghost use Rattle.grown_rows.specs.Growths.{IsGrowth};
ghost use Rattle.entry_rows.specs.Changes.{AreChanges};

use grown_rows::{Growth, push_change};
use op_model::Changed;
use pcg_base::NoMemory;
use row_append::Tail;
use row_words::Spot;

/// A change of a pair, with the places that its record tells.
#[derive(Clone, Copy, PartialEq, Eq, Debug, Drop)]
pub struct EntryChange {
    /// The pair, and whether it is active from now on.
    pub changed: Changed,
    /// The place of the pair's edge.
    pub edge: Spot,
    /// Where the changes of the pair end.
    pub last: Tail,
}

/// Puts changes of the entry of this number behind the others, each of another pair. None of this
/// entry stands yet.
///
/// # Errors
///
/// `NoMemory` where there is none for the records.
pub fn put_changes(growth: &mut Growth, entry: u32, changes: &[EntryChange]) -> Result<(), NoMemory>
    requires places { 8 * growth.old.tail + length growth.old.more + 8 * length changes.now ≤ 8 * 2 ^ 32 }
    requires state { (old : List Row) × (more : List Row) × IsGrowth old more growth.old × ChangesEnd entry (old ++ more) None × AreChanges (old ++ more) changes.now }
    ensures state { (old more : List Row) → IsGrowth old more growth.old → ChangesEnd entry (old ++ more) None → AreChanges (old ++ more) changes.now
        → OnOk result (IsGrowth old (more ++ map (λ x. ChangeRow entry x.changed) changes.now) growth.new) }
    ensures length { OnOk result (length growth.new.more ≡ length growth.old.more + 8 * length changes.now) }
    ensures tail { growth.new.tail ≡ growth.old.tail }
{
    let mut before = None;
    for change in changes {
        let spot = push_change(
            growth,
            entry,
            change.changed,
            change.edge,
            change.last,
            before,
        )?;
        before = Some(spot);
    }
    Ok(())
}
