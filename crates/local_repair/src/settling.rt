// Replacing and pruning in turn.
ghost use Rattle.std.specs.Prelude.{◌≡◌, ◌+◌, ◌-◌, ◌^◌, ◌≤◌, OnOk, length, max, min};
ghost use Rattle.slt_grammar.specs.Digrams.{IsSettled, digram_rank, HasThreeDisjoint};
ghost use Rattle.slt_grammar.specs.Grammars.{size};
ghost use Rattle.slt_grammar.specs.Keyed.{rules_of};
ghost use Rattle.slt_grammar.specs.Ranks.{greatest_rank};
ghost use Rattle.digram_index.specs.Linked.{IsIndexOf};
ghost use Rattle.digram_index.specs.Marking.{KeepsMarked, MarksStart};
ghost use Rattle.local_repair.specs.Settling.{IsLargerAtMost, IsNoLarger};
ghost use Rattle.slt_grammar.specs.declared.digram.Digram.{Digram};

use crate::reusing::reuse_rules;
use digram_index::{Index, build};
use pair_replace::replace;
use rule_pruning::prune;
use slt_grammar::Grammar;
use std::alloc::{AllocError, Global};

/// Settles a grammar for digrams of a rank within the bound, which is at most 8. The value stays, the grammar isn't larger, and the
/// greatest rank of a rule is at most the bound, or what it was. It fails where memory is refused; the value, the size and the ranks are
/// as told then too.
///
/// A settled grammar can become smaller still where a part stands in two rules and nowhere else. So digrams that stand twice become rules
/// too, once, as far as that takes no longer than settling did, and the grammar is settled again.
pub fn settle(alloc: Global, grammar: &mut Grammar, bound: usize) -> Result<(), AllocError>
    requires { bound ≤ 8 }
    ensures settled { OnOk result (IsSettled (rules_of grammar.new.rules) bound) }
    ensures kept { IsNoLarger (rules_of grammar.old.rules) (rules_of grammar.new.rules) }
    ensures ranks { greatest_rank (rules_of grammar.new.rules) ≤ max bound (greatest_rank (rules_of grammar.old.rules)) }
{
    let mut index = build(alloc, grammar)?;
    settle_touched(alloc, grammar, &mut index, bound)
}

/// The same over an index of the grammar, which is kept. Before, terms of the start of which a node was linked since the last settling
/// become calls of rules that are there, where they begin with their bodies. A term is known to stand in the start by the next node above it
/// that is marked: only nodes of the start may be.
pub fn settle_edited(
    alloc: Global,
    grammar: &mut Grammar,
    index: &mut Index,
    bound: usize,
) -> Result<(), AllocError>
    requires bound { bound ≤ 8 }
    requires index { IsIndexOf grammar.old index.old }
    requires marked { MarksStart grammar.old.rules index.old }
    ensures settled { OnOk result (IsSettled (rules_of grammar.new.rules) bound) }
    ensures kept { IsNoLarger (rules_of grammar.old.rules) (rules_of grammar.new.rules) }
    ensures ranks { greatest_rank (rules_of grammar.new.rules) ≤ max bound (greatest_rank (rules_of grammar.old.rules)) }
    ensures index { IsIndexOf grammar.new index.new }
    ensures marks { KeepsMarked grammar.old.rules index.old grammar.new.rules index.new }
{
    reuse_rules(grammar, index)?;
    settle_touched(alloc, grammar, index, bound)
}

/// The same without these calls.
pub fn settle_touched(
    alloc: Global,
    grammar: &mut Grammar,
    index: &mut Index,
    bound: usize,
) -> Result<(), AllocError>
    requires bound { bound ≤ 8 }
    requires index { IsIndexOf grammar.old index.old }
    ensures settled { OnOk result (IsSettled (rules_of grammar.new.rules) bound) }
    ensures kept { IsNoLarger (rules_of grammar.old.rules) (rules_of grammar.new.rules) }
    ensures ranks { greatest_rank (rules_of grammar.new.rules) ≤ max bound (greatest_rank (rules_of grammar.old.rules)) }
    ensures index { IsIndexOf grammar.new index.new }
    ensures marks { KeepsMarked grammar.old.rules index.old grammar.new.rules index.new }
{
    settle_twice(alloc, grammar, index, bound)?;
    index.forget_touched();
    Ok(())
}

// Settles, replaces digrams that stand twice as far as the first settling leaves patience for it, and settles again where it leaves some.
fn settle_twice(
    alloc: Global,
    grammar: &mut Grammar,
    index: &mut Index,
    bound: usize,
) -> Result<(), AllocError>
    requires bound { bound ≤ 8 }
    requires index { IsIndexOf grammar.old index.old }
    ensures settled { OnOk result (IsSettled (rules_of grammar.new.rules) bound) }
    ensures kept { IsNoLarger (rules_of grammar.old.rules) (rules_of grammar.new.rules) }
    ensures ranks { greatest_rank (rules_of grammar.new.rules) ≤ max bound (greatest_rank (rules_of grammar.old.rules)) }
    ensures index { IsIndexOf grammar.new index.new }
    ensures marks { KeepsMarked grammar.old.rules index.old grammar.new.rules index.new }
{
    let begin = weight(grammar);
    alternate(alloc, grammar, index, bound)?;
    let times = patience(grammar, begin);
    if times == 0 {
        return Ok(());
    }
    replace_twice(alloc, grammar, index, bound, times)?;
    alternate(alloc, grammar, index, bound)
}

// The size of a grammar and the number of its rules together, as far as a number goes.
fn weight(grammar: &Grammar) -> u64
    ensures { result ≡ min (size (rules_of grammar.now.rules) + length grammar.now.rules) (2 ^ 64 - 1) }
{
    grammar.size().saturating_add(grammar.rules() as u64)
}

// How often digrams that stand twice may be replaced, so that size and rules together aren't more than at the beginning. Each time the
// rules behind the new one move, so it is less often where there are many rules: in all no more than some rules move for each node that
// there was.
fn patience(grammar: &Grammar, begin: u64) -> u64
    ensures { result ≤ begin - min (size (rules_of grammar.now.rules) + length grammar.now.rules) (2 ^ 64 - 1) }
{
    let rules = (grammar.rules() as u64).max(1);
    let moves = (begin / rules).saturating_mul(16);
    begin.saturating_sub(weight(grammar)).min(moves)
}

// Prunes and replaces in turn, until neither is left.
fn alternate(
    alloc: Global,
    grammar: &mut Grammar,
    index: &mut Index,
    bound: usize,
) -> Result<(), AllocError>
    requires bound { bound ≤ 8 }
    requires index { IsIndexOf grammar.old index.old }
    ensures settled { OnOk result (IsSettled (rules_of grammar.new.rules) bound) }
    ensures kept { IsNoLarger (rules_of grammar.old.rules) (rules_of grammar.new.rules) }
    ensures ranks { greatest_rank (rules_of grammar.new.rules) ≤ max bound (greatest_rank (rules_of grammar.old.rules)) }
    ensures index { IsIndexOf grammar.new index.new }
    ensures marks { KeepsMarked grammar.old.rules index.old grammar.new.rules index.new }
{
    prune(alloc, grammar, index)?;
    while let Some(digram) = index.top(grammar, bound) {
        replace(alloc, grammar, index, digram)?;
        replace_all(alloc, grammar, index, bound)?;
        prune(alloc, grammar, index)?;
    }
    Ok(())
}

// Replaces digrams as long as one within the bound has three occurrences that share no node.
fn replace_all(
    alloc: Global,
    grammar: &mut Grammar,
    index: &mut Index,
    bound: usize,
) -> Result<(), AllocError>
    requires bound { bound ≤ 8 }
    requires index { IsIndexOf grammar.old index.old }
    ensures rare { OnOk result ((d : Digram) → digram_rank (rules_of grammar.new.rules) d ≤ bound → HasThreeDisjoint (rules_of grammar.new.rules) d → ⊥) }
    ensures kept { IsNoLarger (rules_of grammar.old.rules) (rules_of grammar.new.rules) }
    ensures ranks { greatest_rank (rules_of grammar.new.rules) ≤ max bound (greatest_rank (rules_of grammar.old.rules)) }
    ensures index { IsIndexOf grammar.new index.new }
    ensures marks { KeepsMarked grammar.old.rules index.old grammar.new.rules index.new }
{
    while let Some(digram) = index.top(grammar, bound) {
        replace(alloc, grammar, index, digram)?;
    }
    Ok(())
}

// Replaces digrams within the bound of which two occurrences share no node, as long as there is one, but no more than so many times:
// each time there is a rule more, and the size may stay.
fn replace_twice(
    alloc: Global,
    grammar: &mut Grammar,
    index: &mut Index,
    bound: usize,
    times: u64,
) -> Result<(), AllocError>
    requires bound { bound ≤ 8 }
    requires index { IsIndexOf grammar.old index.old }
    ensures kept { IsLargerAtMost times (rules_of grammar.old.rules) (rules_of grammar.new.rules) }
    ensures ranks { greatest_rank (rules_of grammar.new.rules) ≤ max bound (greatest_rank (rules_of grammar.old.rules)) }
    ensures index { IsIndexOf grammar.new index.new }
    ensures marks { KeepsMarked grammar.old.rules index.old grammar.new.rules index.new }
{
    for done in 0..times {
        let _done = done;
        let Some(digram) = index.twice(grammar, bound) else {
            return Ok(());
        };
        replace(alloc, grammar, index, digram)?;
    }
    Ok(())
}
