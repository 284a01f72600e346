ghost use Rattle.least_rows.specs.Ways.{AreEntries, IsLead, IsShort, quiet_rank, rank_in};
ghost use Rattle.least_rows.specs.declared.lead.Lead.TheVariants.{Several};
ghost use Rattle.grammar_plan.specs.declared.quiet_tree.QuietTree.{QuietTree};
ghost use Rattle.std.specs.Prelude.{◌≡◌, ◌≢◌, ◌≤◌, Some};

use crate::entry::Entry;
use crate::state::RowSpan;
use crate::way::Way;
use grammar_plan::QuietTree;
use rhythm_base::Carry;

/// Where one way leads over the next part of a cut.
#[derive(Clone, Copy)]
pub enum Lead {
    /// The part has no tree for the chords that are carried into it.
    Nowhere,
    /// On as one way, and the number of chords carried out of it.
    One(Way, u8),
    /// To several ways, which the row of the part tells.
    Several,
}

/// Where one way leads over the next part of a cut, with the part's row, which tells it where it is to several ways.
#[derive(Clone, Copy)]
pub struct RowLead {
    pub lead: Lead,
    pub row: RowSpan,
}

/// One way with the entries of a row after it.
#[inline(always)]
pub fn lead_by_row(way: Way, count: Carry, entries: &[Entry]) -> Lead
    requires short { IsShort way }
    requires entries { AreEntries entries.now }
    ensures { IsLead (rank_in entries.now 0) way count result }
{
    match entries {
        [] => Lead::Nowhere,
        [entry] => Lead::One(way.then(count, entry.cost, 0), entry.to),
        [_, _, ..] => Lead::Several,
    }
}

/// One way with the tree over a quiet interval after it.
#[inline(always)]
pub fn lead_by_quiet(way: Way, count: Carry, tree: Option<QuietTree>) -> Lead
    requires short { IsShort way }
    requires tree { (t : QuietTree) → tree ≡ Some t → t.cost ≤ 3000000000 }
    ensures lead { IsLead (quiet_rank tree) way count result }
    ensures one { result ≢ Several }
{
    match tree {
        None => Lead::Nowhere,
        Some(tree) => Lead::One(way.then(count, tree.cost, 0), 0),
    }
}
