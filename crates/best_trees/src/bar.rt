ghost use Rattle.best_trees.specs.BarTrees.{AreBestBarTrees};
ghost use Rattle.row_laws.specs.Grounds.{IsReady};
ghost use Rattle.std.specs.Prelude.{IfOk, option_map};

use crate::agenda::Agenda;
use crate::grid::Grid;
use crate::memo::{Asked, Memo};
use crate::pins::Pins;
use crate::search::{SearchedBar, search};
use crate::suited::Suited;
use bar_view::View;
use rhythm_base::{BarInput, Grammar, Shape};
use std::alloc::{AllocError, Global};

/// The first `count` of the trees of a bar, of this shape where one is given. The bar's own pin is not looked at. The call keeps
/// what it finds of each symbol over each interval of the bar, and of each part of the shape, for as long as it works, and never
/// lists all. A part with more leaves than its interval has units has no trees, and is not searched.
pub fn best_trees(
    alloc: Global,
    grammar: &Grammar,
    input: &BarInput,
    shape: Option<&Shape>,
    count: usize,
) -> Result<Grid, AllocError>
    requires ready { IsReady grammar.now input.now }
    ensures { IfOk result (AreBestBarTrees grammar.now input.now (option_map (λ s. s.now) shape.entry) count) }
{
    let mut pins = Pins::new(alloc);
    let demand = pins.take(shape)?;
    if pins.leaves(demand) > usize::from(input.resolution()) {
        return Grid::none(alloc);
    }
    let mut view = View::new(alloc);
    view.set(grammar, input)?;
    let nothing = Suited::new(alloc);
    let unread = SearchedBar {
        alloc,
        grammar,
        input,
        view: &view,
        suited: &nothing,
        pins: &pins,
        count,
    };
    let asked = Asked {
        place: 0,
        width: input.resolution(),
        symbol: input.start(),
        demand,
    };
    let agenda = Agenda::of(&unread, asked)?;
    let bar = SearchedBar {
        suited: &agenda.suited,
        ..unread
    };
    let mut memo = Memo::new(alloc);
    'widths: for width in 0..asked.width {
        agenda.search(&bar, width, &mut memo)?;
    }
    let number = search(&bar, &mut memo, asked)?;
    Ok(memo.take(number))
}
