ghost use Rattle.grammar_plan.specs.Drafts.{ArePairsOf, HaveRootPairs, IsDraftOf, IsLonger};
ghost use Rattle.grammar_plan.specs.Plans.{HaveSeatsOverBars};
ghost use Rattle.grammar_plan.specs.Spans.{AreRuleSpans};
ghost use Rattle.rhythm_base.specs.Readable.{IsReadable};
ghost use Rattle.std.specs.Prelude.{◌≡◌, ◌<◌, ◌+◌, [], IfOk, length};

use crate::draft::Draft;
use crate::grid::Grid;
use crate::pairs::Pairs;
use crate::seat::Seat;
use crate::spans::Spans;
use rhythm_base::Grammar;
use std::alloc::{AllocError, Global};

/// By symbol: its seat over the whole bar, where it is the root of a start of the grammar.
pub fn root_seats(
    alloc: Global,
    pairs: &mut Pairs,
    grammar: &Grammar,
) -> Result<Vec<Option<u32>>, AllocError>
    requires readable { IsReadable grammar.now }
    requires lawful { ArePairsOf grammar.now pairs.old }
    ensures lawful { IfOk result (λ _. ArePairsOf grammar.now pairs.new) }
    ensures roots { IfOk result (λ seats. HaveRootPairs grammar.now pairs.new seats.items) }
    ensures starts { IfOk result (λ seats. HaveSeatsOverBars seats.items grammar.now.starts) }
{
    let mut seats = vec![in alloc; None; grammar.names.len()]?;
    'starts: for start in &grammar.starts {
        let seat = pairs.seat(grammar.resolution, start.symbol)?;
        seats[start.symbol as usize] = Some(seat);
    }
    Ok(seats)
}

/// The seats of all that was found, and of what is found with them. There are no numbers past 4,294,967,295: where they
/// have run out, the answer is that there is no memory.
pub fn fill_seats(
    draft: &mut Draft,
    seats: &mut Vec<Seat>,
    grid: &mut Grid,
    grammar: &Grammar,
    spans: &Spans,
) -> Result<(), AllocError>
    requires readable { IsReadable grammar.now }
    requires spans { AreRuleSpans grammar.now.rules spans.now }
    requires none { seats.old.items ≡ [] }
    requires draft { IsDraftOf grammar.now draft.old seats.old.items }
    ensures draft { IfOk result (λ _. IsDraftOf grammar.now draft.new seats.new.items) }
    ensures longer { IfOk result (λ done. IsLonger draft.old.pairs.found.items draft.new.pairs.found.items) }
    ensures all { IfOk result (λ done. length seats.new.items ≡ length draft.new.pairs.found.items) }
{
    'seats: for number in 0..u32::MAX {
        if number as usize >= draft.pairs.found.len() {
            return Ok(());
        }
        push_seat(draft, seats, grid, grammar, spans)?;
    }
    Err(AllocError)
}

/// One seat more, of the first pair that has none.
fn push_seat(
    draft: &mut Draft,
    seats: &mut Vec<Seat>,
    grid: &mut Grid,
    grammar: &Grammar,
    spans: &Spans,
) -> Result<(), AllocError>
    requires readable { IsReadable grammar.now }
    requires spans { AreRuleSpans grammar.now.rules spans.now }
    requires more { length seats.old.items < length draft.old.pairs.found.items }
    requires draft { IsDraftOf grammar.now draft.old seats.old.items }
    ensures draft { IfOk result (λ _. IsDraftOf grammar.now draft.new seats.new.items) }
    ensures longer { IfOk result (λ done. IsLonger draft.old.pairs.found.items draft.new.pairs.found.items) }
    ensures next { IfOk result (λ done. length seats.new.items ≡ length seats.old.items + 1) }
{
    let (width, symbol) = draft.pairs.found[seats.len()];
    let first = u32::try_from(draft.cuts.len()).ok().ok_or(AllocError)?;
    draft.push_cuts(grammar, spans.span(grammar, symbol), width, symbol)?;
    let end = u32::try_from(draft.cuts.len()).ok().ok_or(AllocError)?;
    let stretch = grid.push(width)?;
    seats.push(Seat {
        width,
        symbol,
        first,
        end,
        base: stretch.base,
        inverse: stretch.inverse,
    })?;
    Ok(())
}
