//! The ids of a request, with their sides.

ghost use Rattle.std.specs.Prelude.{◌≡◌, ◌++◌, ℕ, List, map, IfOk, OnOk};
ghost use Rattle.std.specs.List.{flat_map};
ghost use Rattle.op_model.specs.declared.request.Edit.TheVariants.{Merge, Split};
ghost use Rattle.op_model.specs.declared.entry.Asked.TheVariants as asked;
ghost use Rattle.record_rows.specs.LogRows.{marks};
ghost use Rattle.entry_rows.specs.States.{AreItems};
ghost use Rattle.entry_lists.specs.Items.{pair_items, side_item};

use entry_rows::EntryItem;
use node_ids::NodeId;
use op_model::AskedPair;
use pcg_base::NoMemory;
use std::alloc::Global;

// puts the ends of a pair behind other items
#[tactic(auto, unfolding(crate::specs::Items::pair_items))]
fn put_pair(list: &mut Vec<EntryItem>, pair: &AskedPair) -> Result<(), NoMemory>
    ensures { OnOk result (list.new.items ≡ list.old.items ++ pair_items pair.now) }
{
    let first = EntryItem {
        id: pair.a,
        side: 1,
    };
    let Ok(()) = list.push(first) else {
        return Err(NoMemory);
    };
    let second = EntryItem {
        id: pair.b,
        side: 2,
    };
    let Ok(()) = list.push(second) else {
        return Err(NoMemory);
    };
    Ok(())
}

// puts ids of one side behind other items
fn put_side(list: &mut Vec<EntryItem>, side: u8, ids: &[NodeId]) -> Result<(), NoMemory>
    ensures { OnOk result (list.new.items ≡ list.old.items ++ map (side_item side) ids.now) }
{
    for id in ids {
        let item = EntryItem { id: *id, side };
        let Ok(()) = list.push(item) else {
            return Err(NoMemory);
        };
    }
    Ok(())
}

/// The ids of a merge's pairs, in its order.
///
/// # Errors
///
/// `NoMemory` where there is none for the list.
pub fn merge_items(alloc: Global, pairs: &[AskedPair]) -> Result<Vec<EntryItem>, NoMemory>
    ensures { (n : ℕ) → IfOk result (λ v. AreItems n v.items (marks n (asked.Edit (Merge pairs.now)))) }
{
    let mut list = Vec::new(alloc);
    for pair in pairs {
        put_pair(&mut list, pair)?;
    }
    Ok(list)
}

/// The marks of a split, its sources before its sinks.
///
/// # Errors
///
/// `NoMemory` where there is none for the list.
pub fn split_items(
    alloc: Global,
    sources: &[NodeId],
    sinks: &[NodeId],
) -> Result<Vec<EntryItem>, NoMemory>
    ensures { (n : ℕ) → IfOk result (λ v. AreItems n v.items (marks n (asked.Edit (Split sources.now sinks.now)))) }
{
    let mut list = Vec::new(alloc);
    put_side(&mut list, 1, sources)?;
    put_side(&mut list, 2, sinks)?;
    Ok(list)
}
