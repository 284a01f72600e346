ghost use Rattle.grammar_plan.specs.Plans.{HasSeat, IsPlan};
ghost use Rattle.bar_trees.specs.BarTrees.{AreBarTrees};
ghost use Rattle.least_rows.specs.QuietTrees.{bar_trees};
ghost use Rattle.least_rows.specs.Roots.{AreAskedRows};
ghost use Rattle.row_laws.specs.Grounds.{IsReady, ground_of};
ghost use Rattle.row_laws.specs.QuietTrees.{IsQuiet};
ghost use Rattle.std.specs.Prelude.{◌≡◌, [], IfOk, OnOk};

use crate::quiet_bar::quiet_of;
use crate::quiet_trees::{QuietTrees, quiet_trees};
use crate::roots::{find_bests, trees_of};
use crate::rows::Rows;
use crate::search::Search;
use crate::texts::Texts;
use bar_trees::{BarBests, BarTrees, WrittenLists};
use bar_view::View;
use grammar_plan::Plan;
use rhythm_base::{BarInput, Grammar};
use row_laws::Quiet;
use std::alloc::{AllocError, Global};

/// Room for the search of one worker, kept from bar to bar.
#[derive(Drop)]
pub struct Room {
    view: View,
    rows: Rows,
    texts: Texts,
    /// The least trees of the last bar.
    pub trees: BarTrees,
}

impl Room {
    /// No room yet.
    pub fn new(alloc: Global) -> Room {
        Room {
            view: View::new(alloc),
            rows: Rows::new(alloc),
            texts: Texts::new(alloc),
            trees: BarTrees {
                bests: BarBests::none(),
                lists: WrittenLists::new(alloc),
            },
        }
    }

    /// The least trees of a bar that is quiet so as a whole, whose root symbol has this seat in the plan of the grammar. Only
    /// their rule lists are written to the room. The bar's pin is not looked at.
    #[inline(always)]
    pub fn quiet_trees(
        &mut self,
        grammar: &Grammar,
        plan: &Plan,
        input: &BarInput,
        quiet: Quiet,
        root: u32,
    ) -> Result<QuietTrees, AllocError>
        requires ready { IsReady grammar.now input.now }
        requires plan { IsPlan grammar.now plan.now }
        requires root { HasSeat plan.now root (input.now.resolution, input.now.symbol) }
        requires quiet { IsQuiet quiet (ground_of grammar.now input.now) 0 input.now.resolution }
        ensures { IfOk result (λ q. AreBarTrees grammar.now input.now (bar_trees q self.new.trees)) }
    {
        quiet_trees(
            grammar,
            plan,
            input,
            quiet,
            root,
            &mut self.trees.lists.rules,
        )
    }

    /// The least trees of a bar whose root symbol has this seat in the plan of the grammar. The bar's pin is not looked at.
    pub fn search(
        &mut self,
        grammar: &Grammar,
        plan: &Plan,
        input: &BarInput,
        root: u32,
    ) -> Result<(), AllocError>
        requires ready { IsReady grammar.now input.now }
        requires plan { IsPlan grammar.now plan.now }
        requires root { HasSeat plan.now root (input.now.resolution, input.now.symbol) }
        ensures { OnOk result (AreBarTrees grammar.now input.now self.new.trees) }
    {
        if let Some(quiet) = quiet_of(input) {
            return keep_quiet(grammar, plan, input, quiet, root, &mut self.trees);
        }
        self.view.set(grammar, input)?;
        clear(&mut self.rows, plan)?;
        let search = Search {
            grammar,
            plan,
            input,
            view: &self.view,
        };
        trees_of(
            &mut self.rows,
            &search,
            root,
            &mut self.texts,
            &mut self.trees,
        )
    }
}

impl Room {
    /// The costs and the ranks of the least trees of a bar that is not quiet as a whole, for the numbers carried in that are asked
    /// for, and none for the others. No rule list is written: those of the room are no longer of its trees.
    pub fn search_asked(
        &mut self,
        grammar: &Grammar,
        plan: &Plan,
        input: &BarInput,
        root: u32,
        asked: [bool; 5],
    ) -> Result<(), AllocError>
        requires ready { IsReady grammar.now input.now }
        requires plan { IsPlan grammar.now plan.now }
        requires root { HasSeat plan.now root (input.now.resolution, input.now.symbol) }
        ensures { OnOk result (AreAskedRows grammar.now input.now asked 5 self.new.trees.bests.rows) }
    {
        self.view.set(grammar, input)?;
        clear(&mut self.rows, plan)?;
        let search = Search {
            grammar,
            plan,
            input,
            view: &self.view,
        };
        find_bests(&mut self.rows, &search, root, asked, &mut self.trees.bests)
    }
}

/// Forgets all rows, and makes room for those of the plan.
#[inline(always)]
fn clear(rows: &mut Rows, plan: &Plan) -> Result<(), AllocError>
    ensures { OnOk result (rows.new.states.items ≡ []) }
{
    rows.states.clear();
    rows.entries.clear();
    let places = plan.places as usize;
    if rows.table.len() < places {
        rows.table.resize(places, 0)?;
    }
    Ok(())
}

/// The least trees of a bar that is quiet so as a whole, with their lists.
#[inline(never)]
fn keep_quiet(
    grammar: &Grammar,
    plan: &Plan,
    input: &BarInput,
    quiet: Quiet,
    root: u32,
    trees: &mut BarTrees,
) -> Result<(), AllocError>
    requires ready { IsReady grammar.now input.now }
    requires plan { IsPlan grammar.now plan.now }
    requires root { HasSeat plan.now root (input.now.resolution, input.now.symbol) }
    requires quiet { IsQuiet quiet (ground_of grammar.now input.now) 0 input.now.resolution }
    ensures { OnOk result (AreBarTrees grammar.now input.now trees.new) }
{
    let found = quiet_trees(grammar, plan, input, quiet, root, &mut trees.lists.rules)?;
    let ends = found.ends;
    trees.bests = found.bests;
    trees.lists.ends = ends;
    Ok(())
}
