ghost use Rattle.best_trees.specs.Firsts.{offered};
ghost use Rattle.best_trees.specs.Grids.{HasLists};
ghost use Rattle.best_trees.specs.Leaves.{IsSmallLeaf};
ghost use Rattle.best_trees.specs.Memos.{KeepsFound};
ghost use Rattle.best_trees.specs.Nodes.{
  AreBestBelow,
  AreBestBeside,
  AreFound,
  HasNoLeaf,
  IsAnswerAt,
  IsLeafHere,
  IsOf,
  IsInBar,
  ending_at,
};
ghost use Rattle.best_trees.specs.Pieces.{piece_pair};
ghost use Rattle.best_trees.specs.Searches.{IsTreeSearch};
ghost use Rattle.best_trees.specs.Suited.{AreAllThatSuit};
ghost use Rattle.rhythm_base.specs.Bodies.{sizes};
ghost use Rattle.rhythm_base.specs.Trees.{suits};
ghost use Rattle.tree_laws.specs.Shares.{AreBelow};
ghost use Rattle.std.specs.Prelude.{
  ◌≡◌,
  ◌+◌,
  ◌<◌,
  ◌≤◌,
  ◌==◌,
  ◌^◌,
  [],
  true,
  if◌then◌else◌,
  IfOk,
  IfSome,
  MatchOption,
  None,
  OnOk,
  Some,
  length,
  map,
  slice_get,
};

use crate::cut::{Piece, children};
use crate::grid::{Grid, Sides, join};
use crate::leaf_offer::offer_leaf;
use crate::memo::{Asked, Family, LastParts, Memo, Site};
use crate::pins::{Demand, Pins};
use crate::suited::{Suited, suiting};
use bar_view::{Leaf, View};
use rhythm_base::{BarInput, Carry, Grammar};
use std::alloc::{AllocError, Global};

/// What is searched: a bar by its view, for the first `count` of the trees of the parts of a pin.
#[derive(Clone, Copy)]
pub struct SearchedBar<'a> {
    pub alloc: Global,
    pub grammar: &'a Grammar,
    pub input: &'a BarInput,
    pub view: &'a View,
    pub suited: &'a Suited,
    pub pins: &'a Pins,
    pub count: usize,
}

/// No trees side by side: what is carried in is carried out.
fn nothing(alloc: Global, count: usize) -> Result<Grid, AllocError>
    ensures { IfOk result (HasLists (λ a b. if a == b then offered count (0, []) [] else [])) }
{
    let mut grid = Grid::none(alloc)?;
    'counts: for number in 0..5u8 {
        let carried = Carry::of(number);
        grid.offer(alloc, count, carried, carried, 0, &[])?;
    }
    Ok(grid)
}

/// The family of the trees that are asked for.
pub fn family_of(bar: &SearchedBar<'_>, asked: Asked) -> Family
    requires search { IsTreeSearch bar.now }
    requires within { IsInBar bar.now.input.now asked }
    ensures { IsOf bar.now result asked }
{
    let site = match bar.view.quiet(bar.input, asked.place, asked.width) {
        Some(quiet) => Site::Wherever(quiet),
        None => Site::From(asked.place),
    };
    Family {
        site,
        width: asked.width,
        symbol: asked.symbol,
        demand: asked.demand,
    }
}

/// The leaf over the interval, where no other shape is demanded, and no more than four chords are attached to it or to the next.
fn leaf_here(bar: &SearchedBar<'_>, asked: Asked) -> Option<Leaf>
    requires search { IsTreeSearch bar.now }
    requires within { IsInBar bar.now.input.now asked }
    ensures leaf { MatchOption result (HasNoLeaf bar.now asked)
        (IsLeafHere bar.now asked) }
    ensures small { IfSome result IsSmallLeaf }
{
    if bar.pins.allows_none(asked.demand) {
        bar.view
            .leaf(bar.grammar, bar.input, asked.place, asked.width)
    } else {
        None
    }
}

/// The number of the best trees that are asked for, found once for all intervals that are answered alike.
#[cycle(search)]
pub fn search(bar: &SearchedBar<'_>, memo: &mut Memo, asked: Asked) -> Result<usize, AllocError>
    requires search { IsTreeSearch bar.now }
    requires within { IsInBar bar.now.input.now asked }
    requires found { AreFound bar.now memo.old.found.items }
    ensures more { OnOk result (KeepsFound memo.old.found.items memo.new.found.items) }
    ensures found { OnOk result (AreFound bar.now memo.new.found.items) }
    ensures answer { IfOk result (IsAnswerAt bar.now memo.new.found.items asked) }
{
    let family = family_of(bar, asked);
    if let Some(number) = memo.find(family) {
        return Ok(number);
    }
    let mut best = Grid::none(bar.alloc)?;
    by_rules(bar, memo, asked, &mut best)?;
    let number = memo.keep(family, best)?;
    Ok(number)
}

/// Offers the trees with any rule on top. There are none yet.
#[cycle(search)]
fn by_rules(
    bar: &SearchedBar<'_>,
    memo: &mut Memo,
    asked: Asked,
    best: &mut Grid,
) -> Result<(), AllocError>
    requires search { IsTreeSearch bar.now }
    requires within { IsInBar bar.now.input.now asked }
    requires found { AreFound bar.now memo.old.found.items }
    requires best { AreBestBelow bar.now asked 0 best.old }
    ensures more { OnOk result (KeepsFound memo.old.found.items memo.new.found.items) }
    ensures found { OnOk result (AreFound bar.now memo.new.found.items) }
    ensures best { OnOk result (AreBestBelow bar.now asked (length bar.now.grammar.now.rules) best.new) }
{
    match bar.suited.rules(asked.width, asked.symbol) {
        Some(numbers) => by_each(bar, memo, asked, numbers, best),
        None => {
            let numbers = suiting(bar.alloc, bar.grammar, asked.width, asked.symbol)?;
            by_each(bar, memo, asked, numbers.as_slice(), best)
        }
    }
}

/// Offers the trees with one of these rules on top, which are all that suit. There are none yet.
#[cycle(search)]
fn by_each(
    bar: &SearchedBar<'_>,
    memo: &mut Memo,
    asked: Asked,
    numbers: &[u16],
    best: &mut Grid,
) -> Result<(), AllocError>
    requires search { IsTreeSearch bar.now }
    requires within { IsInBar bar.now.input.now asked }
    requires numbers { AreAllThatSuit bar.now.grammar.now.rules (asked.width, asked.symbol) numbers.now }
    requires found { AreFound bar.now memo.old.found.items }
    requires best { AreBestBelow bar.now asked 0 best.old }
    ensures more { OnOk result (KeepsFound memo.old.found.items memo.new.found.items) }
    ensures found { OnOk result (AreFound bar.now memo.new.found.items) }
    ensures best { OnOk result (AreBestBelow bar.now asked (length bar.now.grammar.now.rules) best.new) }
{
    'rules: for number in numbers {
        by_rule(bar, memo, asked, *number, best)?;
    }
    Ok(())
}

/// Offers the trees with one rule on top, which suits.
#[cycle(search)]
fn by_rule(
    bar: &SearchedBar<'_>,
    memo: &mut Memo,
    asked: Asked,
    number: u16,
    best: &mut Grid,
) -> Result<(), AllocError>
    requires search { IsTreeSearch bar.now }
    requires within { IsInBar bar.now.input.now asked }
    requires number { number < length bar.now.grammar.now.rules }
    requires suits { suits (slice_get bar.now.grammar.now.rules number) (asked.width, asked.symbol) ≡ true }
    requires found { AreFound bar.now memo.old.found.items }
    requires best { AreBestBelow bar.now asked number best.old }
    ensures more { OnOk result (KeepsFound memo.old.found.items memo.new.found.items) }
    ensures found { OnOk result (AreFound bar.now memo.new.found.items) }
    ensures best { OnOk result (AreBestBelow bar.now asked (number + 1) best.new) }
{
    let grammar = bar.grammar;
    let rule = &grammar.rules[number as usize];
    match rule.body.ending() {
        Some(ending) => match leaf_here(bar, asked) {
            Some(leaf) => offer_leaf(
                bar.alloc,
                bar.count,
                ending,
                leaf,
                rule.weight,
                number,
                best,
            ),
            None => Ok(()),
        },
        None => by_cut(bar, memo, asked, number, best),
    }
}

/// Offers the trees with a rule on top that cuts the interval.
#[cycle(search)]
fn by_cut(
    bar: &SearchedBar<'_>,
    memo: &mut Memo,
    asked: Asked,
    number: u16,
    best: &mut Grid,
) -> Result<(), AllocError>
    requires search { IsTreeSearch bar.now }
    requires within { IsInBar bar.now.input.now asked }
    requires number { number < length bar.now.grammar.now.rules }
    requires suits { suits (slice_get bar.now.grammar.now.rules number) (asked.width, asked.symbol) ≡ true }
    requires cut { ending_at bar.now.grammar.now.rules number ≡ None }
    requires found { AreFound bar.now memo.old.found.items }
    requires best { AreBestBelow bar.now asked number best.old }
    ensures more { OnOk result (KeepsFound memo.old.found.items memo.new.found.items) }
    ensures found { OnOk result (AreFound bar.now memo.new.found.items) }
    ensures best { OnOk result (AreBestBelow bar.now asked (number + 1) best.new) }
{
    let grammar = bar.grammar;
    let rule = &grammar.rules[number as usize];
    let parts = children(bar.alloc, &rule.body, asked.width)?;
    let pieces = parts.as_slice();
    if !bar.pins.have_room(asked.demand, pieces) {
        return Ok(());
    }
    let [piece, rest @ ..] = pieces else {
        return Ok(());
    };
    let Some((below, others)) = bar.pins.split(asked.demand) else {
        return Ok(());
    };
    let first = Asked {
        place: asked.place,
        width: piece.width,
        symbol: piece.symbol,
        demand: below,
    };
    let next = asked.place + piece.width;
    let last = beside(bar, memo, next, rest, others, asked.width)?;
    let left = search(bar, memo, first)?;
    let sides = Sides {
        cost: u64::from(rule.weight),
        top: &[number],
        left: memo.grid(left),
        right: memo.grid_of(&last),
    };
    best.offer_joined(bar.alloc, bar.count, &sides)
}

/// The best trees over the pieces as demanded, side by side from the unit `place` on. Each piece is narrower than `below` units.
#[cycle(search)]
fn beside(
    bar: &SearchedBar<'_>,
    memo: &mut Memo,
    place: u16,
    pieces: &[Piece],
    demand: Demand,
    below: u16,
) -> Result<LastParts, AllocError>
    requires search { IsTreeSearch bar.now }
    requires below { AreBelow below (map piece_pair pieces.now) }
    requires within { place + sizes (map piece_pair pieces.now) ≤ bar.now.input.now.resolution }
    requires found { AreFound bar.now memo.old.found.items }
    ensures more { OnOk result (KeepsFound memo.old.found.items memo.new.found.items) }
    ensures found { OnOk result (AreFound bar.now memo.new.found.items) }
    ensures best { IfOk result (AreBestBeside bar.now memo.new.found.items demand place pieces.now) }
{
    let [piece, rest @ ..] = pieces else {
        return Ok(LastParts::Several(if bar.pins.allows_none(demand) {
            nothing(bar.alloc, bar.count)?
        } else {
            Grid::none(bar.alloc)?
        }));
    };
    let Some((first, others)) = bar.pins.split(demand) else {
        return Ok(LastParts::Several(Grid::none(bar.alloc)?));
    };
    let asked = Asked {
        place,
        width: piece.width,
        symbol: piece.symbol,
        demand: first,
    };
    if rest.is_empty() && bar.pins.allows_none(others) {
        let number = search(bar, memo, asked)?;
        return Ok(LastParts::One(number));
    }
    let next = place + piece.width;
    let last = beside(bar, memo, next, rest, others, below)?;
    let number = search(bar, memo, asked)?;
    let all = join(bar.alloc, bar.count, memo.grid(number), memo.grid_of(&last))?;
    Ok(LastParts::Several(all))
}
