// Rules that save little are taken apart.
ghost use Rattle.std.specs.Prelude.{◌≡◌, ◌<◌, ◌≤◌, ◌+◌, ℕ, length};
ghost use Rattle.slt_grammar.specs.Grammars.{IsSwept, value};
ghost use Rattle.slt_grammar.specs.Keyed.{rules_of};
ghost use Rattle.slt_grammar.specs.Ranks.{greatest_rank};
ghost use Rattle.digram_index.specs.Linked.{IsIndexOf};
ghost use Rattle.digram_index.specs.Marking.{KeepsMarked};

use crate::pruning::take_away;
use crate::savings::saving;
use digram_index::Index;
use slt_grammar::Grammar;
use std::alloc::AllocError;

// How often the bound on what a rule saves is raised, twofold each time.
const ROUNDS: usize = 20;

/// Takes rules away, about those first that save least, as long as the grammar has no more than `most` nodes, and keeps the index. The
/// value stays. No clause tells which rules go, nor how many nodes there are then: this is for a grammar that is settled anew.
///
/// It fails where memory is refused. Some rules may be gone then; the value is the same, and the index is the grammar's.
pub fn dissolve(grammar: &mut Grammar, index: &mut Index, most: u64) -> Result<(), AllocError>
    requires index { IsIndexOf grammar.old index.old }
    requires swept { IsSwept (rules_of grammar.old.rules) }
    ensures value { value (rules_of grammar.new.rules) ≡ value (rules_of grammar.old.rules) }
    ensures swept { IsSwept (rules_of grammar.new.rules) }
    ensures ranks { greatest_rank (rules_of grammar.new.rules) ≤ greatest_rank (rules_of grammar.old.rules) }
    ensures index { IsIndexOf grammar.new index.new }
    ensures marks { KeepsMarked grammar.old.rules index.old grammar.new.rules index.new }
{
    let mut bound: u64 = 0;
    for _ in 0..ROUNDS {
        dissolve_up_to(grammar, index, bound, most)?;
        bound = bound.saturating_mul(2).saturating_add(1);
    }
    Ok(())
}

// Takes away the rules that save no more than the bound, callees first, as long as there are no more than `most` nodes.
fn dissolve_up_to(
    grammar: &mut Grammar,
    index: &mut Index,
    bound: u64,
    most: u64,
) -> Result<(), AllocError>
    requires index { IsIndexOf grammar.old index.old }
    requires swept { IsSwept (rules_of grammar.old.rules) }
    ensures value { value (rules_of grammar.new.rules) ≡ value (rules_of grammar.old.rules) }
    ensures swept { IsSwept (rules_of grammar.new.rules) }
    ensures ranks { greatest_rank (rules_of grammar.new.rules) ≤ greatest_rank (rules_of grammar.old.rules) }
    ensures index { IsIndexOf grammar.new index.new }
    ensures marks { KeepsMarked grammar.old.rules index.old grammar.new.rules index.new }
{
    // The rule whose turn it is, once those before it that save so little were taken away.
    let mut rule = 0;
    let last = grammar.rules() - 1;
    for _ in 0..last {
        if stays(grammar, rule, bound, most) {
            rule += 1;
        } else {
            take_away(grammar, index, rule)?;
        }
    }
    Ok(())
}

// Whether a rule saves more than the bound, or there were too many nodes without it.
fn stays(grammar: &Grammar, rule: usize, bound: u64, most: u64) -> bool
    requires { rule + 1 < length grammar.now.rules }
{
    let saved = saving(grammar, rule);
    let nodes = (grammar.size() as i128).saturating_add(saved);
    saved > bound as i128 || nodes > most as i128
}
