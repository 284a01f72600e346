ghost use Rattle.grammar_plan.specs.Plans.{HasLeafRule, HasQuietTree, HasSeat, IsPlan, IsRoot};
ghost use Rattle.rhythm_base.specs.Readable.{IsReadable};
ghost use Rattle.std.specs.Prelude.{◌≡◌, ◌<◌, ◌≤◌, IfOk, IfSome, IsSome, length};

use crate::cut::Cut;
use crate::frame::frame;
use crate::leaf_rule::LeafRule;
use crate::leaf_rules::place_of_leaf;
use crate::quiet_tree::QuietTree;
use crate::quiet_trees::quiet_trees;
use crate::seat::Seat;
use rhythm_base::{Carry, Grammar};
use row_laws::Quiet;
use std::alloc::{AllocError, Global};

/// What is known of a grammar's trees before any bar is.
#[derive(Drop)]
pub struct Plan {
    /// By symbol: its seat over the whole bar, where it is the root of a start.
    pub roots: Vec<Option<u32>>,
    pub seats: Vec<Seat>,
    pub cuts: Vec<Cut>,
    /// The seats of the parts of the cuts.
    pub parts: Vec<u32>,
    /// By symbol: the rules of its leaves, by what the leaf asks.
    pub leaves: Vec<[Option<LeafRule>; 7]>,
    /// By seat: the least trees over intervals that sound throughout, by the number of chords carried in.
    pub sounding: Vec<[Option<QuietTree>; 5]>,
    /// By seat: the least trees over silent intervals.
    pub silent: Vec<[Option<QuietTree>; 5]>,
    /// How many intervals all seats have.
    pub places: u32,
}

impl Plan {
    /// The plan of a grammar, for bars of the roots of all its starts.
    pub fn of(alloc: Global, grammar: &Grammar) -> Result<Plan, AllocError>
        requires readable { IsReadable grammar.now }
        ensures { IfOk result (IsPlan grammar.now) }
    {
        let mut plan = frame(alloc, grammar)?;
        let sounding = quiet_trees(alloc, grammar, &plan, Quiet::Sounding)?;
        let silent = quiet_trees(alloc, grammar, &plan, Quiet::Silent)?;
        plan.sounding = sounding;
        plan.silent = silent;
        Ok(plan)
    }

    /// The seat of a symbol over the whole bar. The plan is made for the roots of the starts; another symbol may have none.
    pub fn root(&self, grammar: &Grammar, symbol: u8) -> Option<u32>
        requires plan { IsPlan grammar.now self.now }
        ensures seat { IfSome result (λ n. HasSeat self.now n (grammar.now.resolution, symbol)) }
        ensures root { IsRoot grammar.now symbol → IsSome result }
    {
        if (symbol as usize) < self.roots.len() {
            self.roots[symbol as usize]
        } else {
            None
        }
    }

    /// The rule that ends a leaf of a seat to which `count` chords are attached, and in which the latest chord sounds or not.
    #[inline(always)]
    pub fn leaf(&self, grammar: &Grammar, seat: &Seat, count: u8, sounds: bool) -> Option<LeafRule>
        requires plan { IsPlan grammar.now self.now }
        requires seat { seat.now.symbol < length self.now.leaves.items }
        ensures { HasLeafRule grammar.now seat.now.symbol count sounds result }
    {
        let count = Carry::new(count)?;
        self.leaves[seat.symbol as usize][place_of_leaf(count, sounds)]
    }

    /// The least tree of a seat over an interval that is quiet so, with `from` chords carried in.
    #[inline(always)]
    pub fn quiet_tree(
        &self,
        grammar: &Grammar,
        seat: u32,
        quiet: Quiet,
        from: u8,
    ) -> Option<QuietTree>
        requires plan { IsPlan grammar.now self.now }
        requires seat { seat < length self.now.seats.items }
        requires from { from < 5 }
        ensures { HasQuietTree grammar.now self.now seat quiet from result }
    {
        match quiet {
            Quiet::Sounding => self.sounding[seat as usize][from as usize],
            Quiet::Silent => self.silent[seat as usize][from as usize],
        }
    }
}
