ghost use Rattle.best_trees.specs.Nodes.{AreFound, IsInBar};
ghost use Rattle.best_trees.specs.Searches.{IsTreeSearch};
ghost use Rattle.best_trees.specs.Suited.{AreAllSuited};
ghost use Rattle.std.specs.Prelude.{◌≡◌, [], IfOk, IsTrue, OnOk};

use crate::cut::{Piece, children};
use crate::memo::{Asked, Memo, code_of};
use crate::search::{SearchedBar, family_of, search};
use crate::suited::Suited;
use rhythm_base::{BarInput, Rule};
use std::alloc::{AllocError, Global};
use std::collections::HashSet;

/// What a search comes to ask, by width. Asked for in this order, from the narrowest on, nothing is searched more than one level
/// down, whatever the depth of the trees. It is an order alone: what is found is right in any.
#[derive(Drop)]
pub struct Agenda {
    /// By the width: what is asked for.
    asked: Vec<Vec<Asked>>,
    /// The codes of the families that are asked for.
    known: HashSet<u64>,
    /// The rules that suit their widths and symbols.
    pub suited: Suited,
}

/// Whether the interval lies in the bar.
fn is_within(input: &BarInput, asked: Asked) -> bool
    ensures { IsTrue result → IsInBar input.now asked }
{
    asked.width >= 1
        && u32::from(asked.place) + u32::from(asked.width) <= u32::from(input.resolution())
}

impl Agenda {
    /// Nothing, of widths up to this one.
    fn none(alloc: Global, widest: u16) -> Result<Agenda, AllocError>
        ensures { IfOk result (λ a. a.suited.found.items ≡ []) }
    {
        let mut asked = Vec::new(alloc);
        'widths: for _width in 0..=widest {
            asked.push(Vec::new(alloc))?;
        }
        Ok(Agenda {
            asked,
            known: HashSet::new(alloc),
            suited: Suited::new(alloc),
        })
    }

    /// All that a search for this comes to ask.
    pub fn of(bar: &SearchedBar<'_>, root: Asked) -> Result<Agenda, AllocError>
        requires { IsTreeSearch bar.now }
        ensures { IfOk result (λ a. AreAllSuited bar.now.grammar.now.rules a.suited) }
    {
        let mut agenda = Agenda::none(bar.alloc, root.width)?;
        agenda.ask(bar, root)?;
        'levels: for narrower in 0..root.width {
            agenda.go_down(bar, root.width - narrower)?;
        }
        Ok(agenda)
    }

    /// Adds what is asked for, where its family is not there yet.
    fn ask(&mut self, bar: &SearchedBar<'_>, asked: Asked) -> Result<(), AllocError>
        requires search { IsTreeSearch bar.now }
        requires suited { AreAllSuited bar.now.grammar.now.rules self.old.suited }
        ensures { OnOk result (AreAllSuited bar.now.grammar.now.rules self.new.suited) }
    {
        if !is_within(bar.input, asked) || !self.known.insert(code_of(family_of(bar, asked)))? {
            return Ok(());
        }
        if let Some(list) = self.asked.get_mut(usize::from(asked.width)) {
            list.push(asked)?;
        }
        Ok(())
    }

    /// What is asked for under a number among those of its width.
    fn get(&self, width: u16, number: usize) -> Option<Asked> {
        let list = self.asked.get(usize::from(width))?;
        list.get(number).copied()
    }

    /// The rule of the grammar with this index among those in a place.
    fn rule<'a>(&self, bar: &SearchedBar<'a>, place: usize, index: usize) -> Option<&'a Rule> {
        let number = self.suited.rule(place, index)?;
        let grammar = bar.grammar;
        grammar.rules.get(usize::from(number))
    }

    /// Adds the parts of all that is asked for with a width.
    fn go_down(&mut self, bar: &SearchedBar<'_>, width: u16) -> Result<(), AllocError>
        requires search { IsTreeSearch bar.now }
        requires suited { AreAllSuited bar.now.grammar.now.rules self.old.suited }
        ensures { OnOk result (AreAllSuited bar.now.grammar.now.rules self.new.suited) }
    {
        let Some(list) = self.asked.get(usize::from(width)) else {
            return Ok(());
        };
        'asked: for number in 0..list.len() {
            if let Some(asked) = self.get(width, number) {
                self.ask_parts(bar, asked)?;
            }
        }
        Ok(())
    }

    /// Adds the parts of what is asked for, by all rules.
    fn ask_parts(&mut self, bar: &SearchedBar<'_>, asked: Asked) -> Result<(), AllocError>
        requires search { IsTreeSearch bar.now }
        requires suited { AreAllSuited bar.now.grammar.now.rules self.old.suited }
        ensures { OnOk result (AreAllSuited bar.now.grammar.now.rules self.new.suited) }
    {
        let grammar = bar.grammar;
        let place = self
            .suited
            .ask(bar.alloc, grammar, asked.width, asked.symbol)?;
        'rules: for index in 0..self.suited.count(place) {
            if let Some(rule) = self.rule(bar, place, index)
                && rule.body.ending().is_none()
            {
                let pieces = children(bar.alloc, &rule.body, asked.width)?;
                self.ask_each(bar, asked, pieces.as_slice())?;
            }
        }
        Ok(())
    }

    /// Adds the pieces of a cut, where they may be as demanded.
    fn ask_each(
        &mut self,
        bar: &SearchedBar<'_>,
        asked: Asked,
        pieces: &[Piece],
    ) -> Result<(), AllocError>
        requires search { IsTreeSearch bar.now }
        requires suited { AreAllSuited bar.now.grammar.now.rules self.old.suited }
        ensures { OnOk result (AreAllSuited bar.now.grammar.now.rules self.new.suited) }
    {
        if !bar.pins.have_room(asked.demand, pieces) {
            return Ok(());
        }
        let mut place = asked.place;
        let mut demand = asked.demand;
        'pieces: for piece in pieces {
            let Some((first, others)) = bar.pins.split(demand) else {
                return Ok(());
            };
            let part = Asked {
                place,
                width: piece.width,
                symbol: piece.symbol,
                demand: first,
            };
            self.ask(bar, part)?;
            place = place.saturating_add(piece.width);
            demand = others;
        }
        Ok(())
    }

    /// Searches all that is asked for with a width.
    pub fn search(
        &self,
        bar: &SearchedBar<'_>,
        width: u16,
        memo: &mut Memo,
    ) -> Result<(), AllocError>
        requires search { IsTreeSearch bar.now }
        requires found { AreFound bar.now memo.old.found.items }
        ensures found { OnOk result (AreFound bar.now memo.new.found.items) }
    {
        let Some(list) = self.asked.get(usize::from(width)) else {
            return Ok(());
        };
        'asked: for asked in list {
            if is_within(bar.input, *asked) {
                search(bar, memo, *asked)?;
            }
        }
        Ok(())
    }
}
