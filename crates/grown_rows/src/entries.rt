//! The items, the changes and the record of a later entry, each put behind the others.

ghost use Rattle.std.specs.Prelude.{◌≡◌, ℕ, List, [], ◌∷◌, ◌++◌, ◌<◌, ◌≤◌, ◌+◌, ◌*◌, ◌^◌, length, IsFalse, IfSome, OnOk, IfOk};
ghost use Rattle.std.specs.List.{All, list_any};
ghost use Rattle.op_model.specs.declared.entry.Changed.{Changed as TheChanged};
ghost use Rattle.op_model.specs.declared.entry.Entry.{Entry};
ghost use Rattle.record_rows.specs.Rows.{Row, ChangeRow, ItemRow, EntryRow, Item};
ghost use Rattle.record_rows.specs.Chains.{change_in, entry_before, is_edge, item_in};
ghost use Rattle.record_rows.specs.Words.{bit, kind_code, names, place_from};
ghost use Rattle.row_append.specs.Tails.{word_number};
ghost use Rattle.grown_rows.specs.Aimed.{AreRetired, ChangesEnd, ChangesEndAt, ItemsEnd, is_entry, tails_at, tails_before};
ghost use Rattle.grown_rows.specs.Entries.{IsNewEntry};
ghost use Rattle.grown_rows.specs.Growths.{IsGrowth, IsTail, IsWithin, filled_by};

use crate::growing::Growth;
use node_ids::NodeId;
use op_model::Changed;
use pcg_base::NoMemory;
use row_append::Tail;
use row_words::Spot;

// fills a pointer of the record at a place, if there is one
#[tactic(auto, unfolding(crate::specs::Growths::filled_by))]
fn fill_before(
    growth: &mut Growth,
    before: Option<Spot>,
    word: u8,
    place: Spot,
) -> Result<(), NoMemory>
    requires word { (4 ≤ word) × (word < 8) }
    requires within { IfSome before (IsWithin growth.old) }
    ensures filled { OnOk result (growth.new ≡ filled_by place (tails_before word before) growth.old) }
    ensures tail { growth.new.tail ≡ growth.old.tail }
    ensures length { length growth.new.more ≡ length growth.old.more }
{
    let Some(spot) = before else {
        return Ok(());
    };
    growth.fill(Tail { spot, word }, place)?;
    Ok(())
}

/// Puts an item behind the others: a mark of this side, from 1 to 2, of a request. `before` is the
/// place of the entry's last item; it stands last of all.
///
/// # Errors
///
/// `NoMemory` where there is none for the record.
pub fn push_item(
    growth: &mut Growth,
    side: u8,
    id: NodeId,
    before: Option<Spot>,
) -> Result<Spot, NoMemory>
    requires places { 8 * growth.old.tail + length growth.old.more < 8 * 2 ^ 32 }
    requires within { IfSome before (IsWithin growth.old) }
    ensures pushed { (old more : List Row) (i : Item) → IsGrowth old more growth.old → i.side ≡ side → i.id ≡ id → ItemsEnd i.entry (old ++ more) before → OnOk result (IsGrowth old (more ++ ItemRow i ∷ []) growth.new) }
    ensures place { (old more : List Row) → IsGrowth old more growth.old → IfOk result (λ p. p ≡ length (old ++ more)) }
    ensures length { OnOk result (length growth.new.more ≡ length growth.old.more + 8) }
    ensures tail { growth.new.tail ≡ growth.old.tail }
{
    let place = growth.next_place();
    growth.put([8 + side as u64 * 256, id.0, 0, 0, 0, 0, 0, 0])?;
    fill_before(growth, before, 4, place)?;
    Ok(place)
}

/// Puts a change of this entry behind the others. `edge` is the place of the pair's edge, and the
/// changes of the pair must end at `last`. `before` is the place of the entry's last change; it
/// stands last of all.
///
/// # Errors
///
/// `NoMemory` where there is none for the record.
pub fn push_change(
    growth: &mut Growth,
    entry: u32,
    changed: Changed,
    edge: Spot,
    last: Tail,
    before: Option<Spot>,
) -> Result<Spot, NoMemory>
    requires places { 8 * growth.old.tail + length growth.old.more < 8 * 2 ^ 32 }
    requires last { IsTail growth.old last }
    requires within { IfSome before (IsWithin growth.old) }
    ensures pushed { (old more : List Row) → IsGrowth old more growth.old → place_from (is_edge changed.pair) 0 (old ++ more) ≡ edge → ChangesEndAt changed.pair (old ++ more) (word_number last) → ChangesEnd entry (old ++ more) before
        → OnOk result (IsGrowth old (more ++ ChangeRow entry changed ∷ []) growth.new) }
    ensures place { (old more : List Row) → IsGrowth old more growth.old → IfOk result (λ p. p ≡ length (old ++ more)) }
    ensures length { OnOk result (length growth.new.more ≡ length growth.old.more + 8) }
    ensures tail { growth.new.tail ≡ growth.old.tail }
{
    let place = growth.next_place();
    growth.put([
        change_word(changed.active),
        changed.pair.a.0,
        changed.pair.b.0,
        entry as u64,
        edge.0 as u64,
        0,
        0,
        0,
    ])?;
    growth.fill(last, place)?;
    fill_before(growth, before, 6, place)?;
    Ok(place)
}

// the first word of a change
#[tactic(auto, unfolding(record_rows::specs::Words::bit))]
fn change_word(active: bool) -> u64
    ensures { result ≡ 7 + bit active * 2 ^ 8 }
{
    if active { 263 } else { 7 }
}

/// What an entry's record tells beside the nodes that it retires.
#[derive(Clone, Copy, PartialEq, Eq, Debug, Drop)]
pub struct NewEntry {
    /// What made it: 1 for a merge, 2 for a split, 3 for an undo, 4 for a redo.
    pub kind: u8,
    /// The operation that an undo or redo names, else 0.
    pub names: u32,
    /// Its timestamp in milliseconds.
    pub at: u64,
    /// The client that asked it.
    pub client: u32,
    /// The client's line that asked it.
    pub line: u32,
    /// How many entries stand before it.
    pub number: u32,
    /// The place of its first item, 0 where it has none.
    pub items: Spot,
    /// The place of its first change, 0 where it has none.
    pub changes: Spot,
    /// The place of the entry before it.
    pub before: Spot,
}

// fills the pointers of retired nodes
fn fill_retired(growth: &mut Growth, retired: &[Spot], place: Spot) -> Result<(), NoMemory>
    requires within { All (IsWithin growth.old) retired.now }
    ensures filled { OnOk result (growth.new ≡ filled_by place (tails_at retired.now) growth.old) }
    ensures tail { growth.new.tail ≡ growth.old.tail }
    ensures length { length growth.new.more ≡ length growth.old.more }
{
    for spot in retired {
        growth.fill(
            Tail {
                spot: *spot,
                word: 6,
            },
            place,
        )?;
    }
    Ok(())
}

/// Puts the record of an entry behind the others, with the places of the nodes that it retires.
///
/// # Errors
///
/// `NoMemory` where there is none for the record.
pub fn push_entry(growth: &mut Growth, entry: NewEntry, retired: &[Spot]) -> Result<Spot, NoMemory>
    requires places { 8 * growth.old.tail + length growth.old.more < 8 * 2 ^ 32 }
    requires within { All (IsWithin growth.old) retired.now }
    ensures pushed { (old more : List Row) (e : Entry) → IsGrowth old more growth.old → IsNewEntry e entry
        → place_from (item_in e.number) 0 (old ++ more) ≡ entry.items → place_from (change_in e.number) 0 (old ++ more) ≡ entry.changes → place_from (entry_before e.number) 0 (old ++ more) ≡ entry.before
        → IsFalse (list_any (is_entry (e.number + 1)) (old ++ more)) → AreRetired e (old ++ more) retired.now
        → OnOk result (IsGrowth old (more ++ EntryRow e ∷ []) growth.new) }
    ensures place { (old more : List Row) → IsGrowth old more growth.old → IfOk result (λ p. p ≡ length (old ++ more)) }
    ensures length { OnOk result (length growth.new.more ≡ length growth.old.more + 8) }
    ensures tail { growth.new.tail ≡ growth.old.tail }
{
    let place = growth.next_place();
    growth.put([
        9 + entry.kind as u64 * 256 + entry.names as u64 * 4294967296,
        entry.at,
        entry.client as u64 * 4294967296 + entry.line as u64,
        entry.number as u64,
        entry.items.0 as u64,
        entry.changes.0 as u64,
        entry.before.0 as u64,
        0,
    ])?;
    fill_retired(growth, retired, place)?;
    Ok(place)
}
