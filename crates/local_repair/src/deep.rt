// Settling that takes rules apart first.
ghost use Rattle.std.specs.Prelude.{◌≡◌, ◌≤◌, OnOk, max};
ghost use Rattle.slt_grammar.specs.Digrams.{IsSettled};
ghost use Rattle.slt_grammar.specs.Grammars.{IsSwept, value};
ghost use Rattle.slt_grammar.specs.Keyed.{rules_of};
ghost use Rattle.slt_grammar.specs.Ranks.{greatest_rank};

use crate::settling::settle_edited;
use digram_index::build;
use rule_pruning::dissolve;
use slt_grammar::Grammar;
use std::alloc::{AllocError, Global};

// How many times its nodes a grammar may have while its rules are taken apart.
const GROWTH: u64 = 6;

/// Takes rules apart, about those first that save least, as long as the grammar has no more than six times its nodes, and settles what there
/// is then, for digrams of a rank within the bound, which is at most 8. The value stays.
///
/// Rules that edits bring fit what stood beside them. Behind many edits a grammar that is settled so has fewer nodes than before, mostly, which no
/// clause tells: who wants no more does it to a copy. It fails where memory is refused.
pub fn settle_deeply(alloc: Global, grammar: &mut Grammar, bound: usize) -> Result<(), AllocError>
    requires bound { bound ≤ 8 }
    requires swept { IsSwept (rules_of grammar.old.rules) }
    ensures settled { OnOk result (IsSettled (rules_of grammar.new.rules) bound) }
    ensures value { value (rules_of grammar.new.rules) ≡ value (rules_of grammar.old.rules) }
    ensures swept { IsSwept (rules_of grammar.new.rules) }
    ensures ranks { greatest_rank (rules_of grammar.new.rules) ≤ max bound (greatest_rank (rules_of grammar.old.rules)) }
{
    let most = grammar.size().saturating_mul(GROWTH);
    let mut index = build(alloc, grammar)?;
    dissolve(grammar, &mut index, most)?;
    settle_edited(alloc, grammar, &mut index, bound)
}
