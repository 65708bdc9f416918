//! Which entries were there at a time.

ghost use Rattle.std.specs.Prelude.{◌≡◌};
ghost use Rattle.record_rows.specs.Readings.{ForEachLog, ParentImage};
ghost use Rattle.log_rows.specs.Entries.{HasLog};
ghost use Rattle.log_rows.specs.Times.{count_to, prefix_of_time};

use crate::heads::entry_spot;
use crate::records::{count, newest, number, time};
use crate::seeking::next_own;
use pcg_base::Words;
use row_words::{Spot, probe};

/// Why no entries are told for a time.
#[derive(Clone, Copy, PartialEq, Eq, Debug, Drop)]
pub enum TimeRefusal {
    /// The time is below the timestamp of the first entry, which is `first` (milliseconds).
    TooEarly { first: u64 },
    /// The time is above the last timestamp, which is `latest` (milliseconds).
    Unpublished { latest: u64 },
}

/// How many entries there were at the time `t`, in milliseconds: those with a timestamp of at most
/// `t`.
pub fn prefix_at<W: Words>(w: &mut W, t: u64) -> Result<u32, TimeRefusal>
    requires image { HasLog ParentImage (W.words w.old) }
    ensures same { w.new ≡ w.old }
    ensures is { ForEachLog ParentImage (W.words w.old) (λ d b log. result ≡ prefix_of_time log t) }
{
    let last = newest(w);
    let latest = time(w, last);
    if latest < t {
        return Err(TimeRefusal::Unpublished { latest });
    }
    count_to(w, t, latest)
}

/// How many entries have a timestamp of at most `t`, in milliseconds. `latest` says where the search
/// begins: about the newest timestamp.
fn count_to<W: Words>(w: &mut W, t: u64, latest: u64) -> Result<u32, TimeRefusal>
    requires image { HasLog ParentImage (W.words w.old) }
    ensures same { w.new ≡ w.old }
    ensures is { ForEachLog ParentImage (W.words w.old) (λ d b log. result ≡ count_to log t) }
{
    let start = entry_spot(w, 0);
    let first = time(w, start);
    if t < first {
        return Err(TimeRefusal::TooEarly { first });
    }
    let count = count(w);
    let mut low = start.0;
    let mut high = count;
    let mut found = 0;
    let mut below = first;
    let mut above = latest;
    let mut before = u32::MAX;
    while low < high {
        let middle = probe(low, high, below, above, t, before);
        before = high - low;
        let own = next_own(w, middle, count);
        let here = time(w, Spot(own));
        if here <= t {
            low = own + 1;
            below = here;
            found = number(w, Spot(own));
        } else {
            high = middle;
            above = here;
        }
    }
    Ok(found + 1)
}
