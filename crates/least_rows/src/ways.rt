ghost use Rattle.least_rows.specs.Ways.{AreEntries, IsShort, rank_in, way_in, Joins};

use crate::entry::Entry;
use crate::way::{Way, Ways, offer_way};
use rhythm_base::Carry;

/// Offers a way out of which `count` chords are carried with each entry after it of a row that they are carried into.
#[inline(always)]
pub fn join(next: &mut Ways, way: Way, count: Carry, entries: &[Entry])
    requires short { IsShort way }
    requires entries { AreEntries entries.now }
    ensures { Joins way count (rank_in entries.now 0) (way_in next.old) (way_in next.new) }
{
    let mut rank = 0u8;
    'entries: for entry in entries {
        offer_way(
            &mut next[entry.to as usize],
            way.then(count, entry.cost, rank),
        );
        rank += 1;
    }
}
