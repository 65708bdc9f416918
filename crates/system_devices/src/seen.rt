ghost use Rattle.std.specs.Prelude.{◌≡◌, ◌≢◌, ℕ, List, OnOk, OnErr};
ghost use Rattle.system_devices.specs.Seen.{seen_at, IsKnown};

use pcg_base::NoMemory;
use std::alloc::Global;
use std::collections::BTreeMap;

/// What a folder keeps beside a name: four counts, which stop at `2^64 - 1`, and whether the name
/// was opened.
#[derive(Clone, Copy)]
pub struct Seen {
    /// Failed openings for reading.
    pub source_openings: u64,
    /// Failed openings for writing.
    pub sink_openings: u64,
    /// Faults of the sources that were kept.
    pub source_faults: u64,
    /// Faults of the sinks that were kept.
    pub sink_faults: u64,
    /// Whether the name was opened for reading.
    pub opened_in: bool,
    /// Whether the name was opened for writing.
    pub opened_out: bool,
}

/// A name of which nothing was seen.
const UNSEEN: Seen = Seen {
    source_openings: 0,
    sink_openings: 0,
    source_faults: 0,
    sink_faults: 0,
    opened_in: false,
    opened_out: false,
};

/// What was seen of each name.
pub type Names = BTreeMap<String, Seen>;

/// What was seen of a name.
pub fn look(names: &Names, name: &str) -> Seen
    ensures { result ≡ seen_at names.now name.now }
{
    names.get(name).copied().unwrap_or(UNSEEN)
}

/// Makes room for what is seen of a name. It changes nothing that was seen.
pub fn make_room(alloc: Global, names: &mut Names, name: &str) -> Result<(), NoMemory>
    ensures known { OnOk result (IsKnown names.new name.now) }
    ensures same { (n : List ℕ) → seen_at names.new n ≡ seen_at names.old n }
{
    let seen = look(names, name);
    let Ok(key) = String::from_str(alloc, name) else {
        return Err(NoMemory);
    };
    let Ok(_) = names.insert(key, seen) else {
        return Err(NoMemory);
    };
    Ok(())
}

/// Writes what was seen of a name that has room.
pub fn put(names: &mut Names, name: &str, seen: Seen)
    requires { IsKnown names.old name.now }
    ensures here { seen_at names.new name.now ≡ seen }
    ensures elsewhere { (n : List ℕ) → n ≢ name.now → seen_at names.new n ≡ seen_at names.old n }
{
    if let Some(kept) = names.get_mut(name) {
        *kept = seen;
    }
}
