ghost use Rattle.carry_matrix.specs.Rows.{cost_code, entry_of, rank_code, row_code};
ghost use Rattle.std.specs.Prelude.{◌≡◌, None, slice_index_or};

use rhythm_base::Best;

/// 2 to the power 62: every cost is below it.
pub const ABOVE_COSTS: u64 = 4_611_686_018_427_387_904;

/// What stands for the cost of an entry that is not there: 2 to the power 63, so that a sum with it is above
/// `ABOVE_COSTS`, and is not taken in a product, which need not ask. With it a row is 48 bytes, where five options are 120.
pub const ABSENT: u64 = 9_223_372_036_854_775_808;

/// The entries for one number of chords carried in, by the number carried out. Where an entry is not there, its cost is
/// `ABSENT` and its rank 0.
#[derive(Clone, Copy)]
pub struct Row {
    pub costs: [u64; 5],
    pub ranks: [u8; 5],
}

/// What stands for the cost of an entry.
#[inline(always)]
fn cost_of(entry: Option<Best>) -> u64
    ensures { result ≡ cost_code entry }
{
    match entry {
        None => ABSENT,
        Some(best) => best.cost,
    }
}

/// What stands for the rank of an entry.
#[inline(always)]
fn rank_of(entry: Option<Best>) -> u8
    ensures { result ≡ rank_code entry }
{
    match entry {
        None => 0,
        Some(best) => best.rank,
    }
}

/// The row of these entries.
#[inline(always)]
pub fn row_of(entries: &[Option<Best>; 5]) -> Row
    ensures { result ≡ row_code (λ to. slice_index_or entries.now to None) }
{
    Row {
        costs: [
            cost_of(entries[0]),
            cost_of(entries[1]),
            cost_of(entries[2]),
            cost_of(entries[3]),
            cost_of(entries[4]),
        ],
        ranks: [
            rank_of(entries[0]),
            rank_of(entries[1]),
            rank_of(entries[2]),
            rank_of(entries[3]),
            rank_of(entries[4]),
        ],
    }
}

/// The entry for which this cost and this rank stand.
#[inline(always)]
pub fn entry(cost: u64, rank: u8) -> Option<Best>
    ensures { result ≡ entry_of cost rank }
{
    if cost < ABOVE_COSTS {
        Some(Best { cost, rank })
    } else {
        None
    }
}
