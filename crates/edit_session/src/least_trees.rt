ghost use Rattle.edit_session.specs.LeastTrees.{AreOfLeastPath, IsTableIn};
ghost use Rattle.edit_session.specs.VoiceTables.{HasPath};
ghost use Rattle.rhythm_base.specs.BarTables.{list_at};
ghost use Rattle.rhythm_base.specs.Grammar.{Grammar};
ghost use Rattle.std.specs.Prelude.{◌≡◌, ◌<◌, All, IfOk, IsSome, Some, map};

use crate::voice_tables::VoiceTables;
use least_cost::BarTable;
use std::alloc::{AllocError, Global};

/// The rule list of the least tree of a bar for these numbers of chords carried in and out, with which some tree fits.
fn least_list(table: &BarTable, from: u8, to: u8) -> &[u16]
    requires from { from < 5 }
    requires to { to < 5 }
    requires there { IsSome (list_at table.now from to) }
    ensures { Some result.now ≡ list_at table.now from to }
{
    table.rules(from, to).unwrap()
}

/// The rule lists of the trees of a voice, bar after bar: each tree is the least of its bar for the numbers of chords that the
/// least path carries over the barlines round it.
pub fn least_lists(alloc: Global, voice: &VoiceTables) -> Result<Vec<&[u16]>, AllocError>
    requires tables { (g : Grammar) × All (IsTableIn g) voice.now.tables }
    requires path { HasPath voice.now }
    ensures { IfOk result (λ v. AreOfLeastPath voice.now.tables (map (λ l. l.now) v.items)) }
{
    let carries = voice.carries(alloc)?;
    let counts = carries.as_slice();
    let tables = voice.tables();
    let mut lists = Vec::with_capacity(alloc, tables.len())?;
    'bars: for number in 0..tables.len() {
        let from = counts[number];
        let to = counts[number + 1];
        lists.push(least_list(&tables[number], from, to))?;
    }
    Ok(lists)
}
