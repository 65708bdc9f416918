//! Where the chains of records end that stand behind each other.

ghost use Rattle.std.specs.Prelude.{◌≡◌, ◌≤◌, ◌<◌, ◌+◌, ◌^◌, ◌++◌, OnOk};
ghost use Rattle.base_rows.specs.States.{tails_from};

use pcg_base::NoMemory;
use row_append::Tail;
use row_words::Spot;

/// Puts the pointer of this number, from 4 to 7, of each of so many records behind a list; the first
/// record stands at the place `from`.
///
/// # Errors
///
/// `NoMemory` where there is none for the list.
pub(crate) fn put_tails(
    list: &mut Vec<Tail>,
    from: u32,
    count: u32,
    word: u8,
) -> Result<(), NoMemory>
    requires places { from + count < 2 ^ 32 }
    ensures { OnOk result (list.new.items ≡ list.old.items ++ tails_from from word count) }
{
    for k in 0..count {
        let tail = Tail {
            spot: Spot(from + k),
            word,
        };
        let Ok(()) = list.push(tail) else {
            return Err(NoMemory);
        };
    }
    Ok(())
}
