ghost use Rattle.rhythm_base.specs.Forest.{forest_of};
ghost use Rattle.rhythm_base.specs.RuleTrees.{AreFirst, HasPartsOf, IsRuleList, IsTold};
ghost use Rattle.rhythm_base.specs.TestRules.{test_rules};
ghost use Rattle.std.specs.Prelude.{ℕ, List, ◌≡◌, ◌≤◌, ◌++◌, IfOk, length};
ghost use Rattle.rhythm_base.specs.Forest.{Tree};

use crate::grammar::Grammar;
use crate::rule::Rule;
use crate::tree::Tree;
use std::alloc::{AllocError, Global};

impl Tree {
    /// The tree of the symbol `start` over the whole bar whose rules, in preorder, are the list. The list alone decides it:
    /// a rule has as many parts, whatever the width.
    pub fn from_rules(
        alloc: Global,
        grammar: &Grammar,
        start: u8,
        rules: &[u16],
    ) -> Result<Tree, AllocError>
        requires { IsRuleList grammar.now start rules.now }
        ensures { IfOk result (λ t. IsTold grammar.now start rules.now t) }
    {
        let (tree, _rest) = first_tree(alloc, grammar.rules.as_slice(), rules[0], &rules[1..])?;
        Ok(tree)
    }
}

/// The tree of this rule whose parts' rules the list begins with, and what stands after them.
#[cycle(read)]
fn first_tree<'a>(
    alloc: Global,
    book: &[Rule],
    rule: u16,
    rules: &'a [u16],
) -> Result<(Tree, &'a [u16]), AllocError>
    ensures rule { IfOk result (λ r. r.0.rule ≡ rule) }
    ensures parts { IfOk result (λ r. (count : ℕ) → HasPartsOf book.now rule count
        → AreFirst book.now count rules.now r.0.kids r.1.now) }
    ensures shorter { IfOk result (λ r. length r.1.now ≤ length rules.now) }
{
    let mut kids = Vec::new(alloc);
    let count = parts_of(book, rule);
    let rest = push_trees(alloc, book, count, rules, &mut kids)?;
    Ok((Tree { rule, kids }, rest))
}

/// Appends the trees, so many, whose rules the list begins with, and gives what stands after them.
#[cycle(read)]
fn push_trees<'a>(
    alloc: Global,
    book: &[Rule],
    count: usize,
    rules: &'a [u16],
    trees: &mut Vec<Tree>,
) -> Result<&'a [u16], AllocError>
    ensures read { IfOk result (λ rest. (read : List Tree) × (trees.new.items ≡ trees.old.items ++ read)
        × AreFirst book.now count rules.now (forest_of read) rest.now) }
    ensures shorter { IfOk result (λ rest. length rest.now ≤ length rules.now) }
{
    match rules {
        [rule, rest @ ..] if count > 0 => {
            let (tree, rest) = first_tree(alloc, book, *rule, rest)?;
            trees.push(tree)?;
            push_trees(alloc, book, count - 1, rest, trees)
        }
        _ => Ok(rules),
    }
}

/// How many parts the rule has: none where it is a leaf, or no rule of the grammar.
fn parts_of(book: &[Rule], rule: u16) -> usize
    ensures { HasPartsOf book.now rule result }
{
    match book.get(usize::from(rule)) {
        Some(rule) => rule.body.part_count(),
        None => 0,
    }
}

#[cfg(test)]
mod tests {
    use super::*;
    use crate::kids::Kids;
    use crate::portions::Portions;
    use crate::rule::Body;
    use std::test::Fail;

    fn rule(body: Body) -> Rule
        ensures { result ≡ record { lhs = 0; weight = 0; body = body } }
    {
        Rule {
            lhs: 0,
            weight: 0,
            body,
        }
    }

    /// One symbol: cut in two, cut into parts of sizes 2 and 1, a note.
    fn grammar(alloc: Global) -> Result<Grammar, AllocError>
        ensures units { IfOk result (λ g. 12 ≡ g.resolution) }
        ensures rules { IfOk result (λ g. test_rules ≡ g.rules) }
    {
        let halves = rule(Body::Split(Kids::of(vec![in alloc; 0, 0]?)));
        let thirds = rule(Body::Parts(Portions::of(vec![in alloc; (2, 0), (1, 0)]?)));
        Ok(Grammar {
            version: 2,
            resolution: 12,
            window: 0,
            early: 0,
            late: 0,
            names: Vec::new(alloc),
            starts: Vec::new(alloc),
            rules: vec![in alloc; halves, thirds, rule(Body::Note)]?,
        })
    }

    #[test]
    fn reads_the_tree_of_a_list(rt: HostRuntime) -> Result<(), Fail> {
        let alloc = rt.alloc();
        let grammar = grammar(alloc)?;
        let leaf = Tree::from_rules(alloc, &grammar, 0, &[2])?;
        assert!(rt; leaf.rule == 2 && leaf.kids.is_empty());
        let nested = Tree::from_rules(alloc, &grammar, 0, &[0, 1, 2, 2, 2])?;
        assert!(rt; nested.kids.len() == 2 && nested.kids[0].kids.len() == 2);
        assert!(rt; nested.sequence(alloc)?.as_slice() == [0, 1, 2, 2, 2].as_slice());
        Ok(())
    }
}
