ghost use Rattle.grammar_plan.specs.Frames.{IsFrame};
ghost use Rattle.rhythm_base.specs.Readable.{IsReadable};
ghost use Rattle.std.specs.Prelude.{IfOk};

use crate::draft::Draft;
use crate::grid::Grid;
use crate::leaf_rules::all_leaf_rules;
use crate::pairs::Pairs;
use crate::plan::Plan;
use crate::seats::{fill_seats, root_seats};
use crate::spans::Spans;
use rhythm_base::Grammar;
use std::alloc::{AllocError, Global};

/// The plan of a grammar, without the quiet trees.
pub fn frame(alloc: Global, grammar: &Grammar) -> Result<Plan, AllocError>
    requires readable { IsReadable grammar.now }
    ensures { IfOk result (IsFrame grammar.now) }
{
    let mut pairs = Pairs::new(alloc, grammar.resolution)?;
    let roots = root_seats(alloc, &mut pairs, grammar)?;
    let mut draft = Draft {
        pairs,
        cuts: Vec::new(alloc),
        parts: Vec::new(alloc),
    };
    let mut seats = Vec::new(alloc);
    let mut grid = Grid::new(grammar);
    fill_seats(
        &mut draft,
        &mut seats,
        &mut grid,
        grammar,
        &Spans::of(grammar),
    )?;
    let leaves = all_leaf_rules(alloc, grammar)?;
    let Draft {
        pairs: _,
        cuts,
        parts,
    } = draft;
    Ok(Plan {
        roots,
        seats,
        cuts,
        parts,
        leaves,
        sounding: Vec::new(alloc),
        silent: Vec::new(alloc),
        places: grid.places,
    })
}
