ghost use Rattle.least_cost.specs.KeptRules.{rules_of};
ghost use Rattle.least_cost.specs.Tables.{AreAllPlaced, table_with};
ghost use Rattle.bar_trees.specs.WrittenLists.{IsPlaced, list_of, list_number};
ghost use Rattle.rhythm_base.specs.BarTables.{list_at};
ghost use Rattle.rhythm_base.specs.Counter.{risen};
ghost use Rattle.std.specs.Prelude.{◌≡◌, ◌<◌, IfOk, option_map};

use crate::kept_rules::KeptRules;
use crate::steps::Steps;
use carry_matrix::CarryMatrix;
use rhythm_base::{BarInput, Carry, Tag};
use std::alloc::{AllocError, Global};
use std::marker::Model;

/// The least trees of one bar of one voice, by the number of chords carried into the bar and the number carried out: what
/// they cost, how their rule lists are ordered, and the lists. It keeps the input that it was built for.
#[derive(Drop)]
pub struct BarTable {
    matrix: CarryMatrix,
    /// Rule lists one after another: for each number of chords carried in one for each number carried out.
    rules: KeptRules,
    /// Where each list ends. The first begins at 0, and each other where the one before it ends. Where the matrix has no entry the
    /// list is not looked at.
    ends: [u16; 25],
    input: BarInput,
}

impl Model for BarTable {
    ghost use Rattle.rhythm_base.specs.BarTables.{BarTable};
    ghost use Rattle.least_cost.specs.KeptRules.{rules_of};
    ghost use Rattle.least_cost.specs.TableCode.{table_code};
    ghost use Rattle.least_cost.specs.Tables.{AreAllPlaced, table_with};

    ghost Value = { BarTable };

    ghost coded = { table_code };

    ghost view = { λ t. table_with t.matrix (rules_of t.rules) t.ends t.input };

    ghost invariant = { λ t. AreAllPlaced (rules_of t.rules) t.ends };
}

impl BarTable {
    /// The table of these costs and rule lists.
    #[inline(always)]
    pub(crate) fn of(
        matrix: CarryMatrix,
        rules: KeptRules,
        ends: [u16; 25],
        input: BarInput,
    ) -> BarTable
        requires { AreAllPlaced (rules_of rules) ends }
        ensures { result ≡ table_with matrix (rules_of rules) ends input }
    {
        BarTable {
            matrix,
            rules,
            ends,
            input,
        }
    }

    /// The table of an input that is equal to this one's, without a search. It counts as a build: it takes one step, also
    /// where it wants memory.
    pub fn for_equal_input<B: Tag>(
        &self,
        alloc: Global,
        builds: &mut Steps<B>,
    ) -> Result<BarTable, AllocError>
        ensures builds { builds.new ≡ risen builds.old 1 }
        ensures table { IfOk result (λ t. t ≡ self.now) }
    {
        builds.tick();
        // An accessor's contract tells that the input is well formed.
        let _start = self.input.start();
        let rules = self.rules.copy(alloc)?;
        let input = self.input.copy(alloc)?;
        Ok(BarTable::of(self.matrix, rules, self.ends, input))
    }

    /// The costs, each at most 500,000,000,000, and the places of the rule lists in their rows.
    pub fn matrix(&self) -> &CarryMatrix
        ensures { result.now ≡ self.now.matrix }
    {
        &self.matrix
    }

    /// The rules of the least tree for these numbers carried in and out, in preorder; none where no tree fits with them.
    pub fn rules(&self, from: u8, to: u8) -> Option<&[u16]>
        requires from { from < 5 }
        requires to { to < 5 }
        ensures { option_map (λ r. r.now) result ≡ list_at self.now from to }
    {
        match self.matrix.get(from, to) {
            None => None,
            Some(_best) => {
                let row = Carry::of(from);
                let column = Carry::of(to);
                Some(list_in(self.rules.as_slice(), &self.ends, row, column))
            }
        }
    }

    /// The input that the table was built for.
    pub fn input(&self) -> &BarInput
        ensures { result.now ≡ self.now.input }
    {
        &self.input
    }
}

/// The list for these numbers carried in and out.
fn list_in<'a>(rules: &'a [u16], ends: &[u16; 25], from: Carry, to: Carry) -> &'a [u16]
    requires placed { IsPlaced rules.now ends.now (list_number from to) }
    ensures { result.now ≡ list_of rules.now ends.now (list_number from to) }
{
    let number = 5 * from.index() + to.index();
    let end = ends[number] as usize;
    let first = if number == 0 {
        0
    } else {
        ends[number - 1] as usize
    };
    &rules[first..end]
}
