// Digrams across the borders of rules, as border_repair promises them.
ghost use Rattle.std.specs.Prelude.{◌≡◌, ◌≢◌, ◌+◌, ◌-◌, ◌*◌, ◌<◌, ◌≤◌, OnOk, OnErr, IfOk, MatchOption};
ghost use Rattle.slt_grammar.specs.Algebras.{ranks_of};
ghost use Rattle.slt_grammar.specs.Bodies.{calls_in};
ghost use Rattle.slt_grammar.specs.Grammars.{body_at, size, value, IsSwept};
ghost use Rattle.slt_grammar.specs.Keyed.{rules_of};
ghost use Rattle.slt_grammar.specs.KeyedEdits.{digram_body};
ghost use Rattle.slt_grammar.specs.declared.digram.Digram.{Digram};
ghost use Rattle.border_repair.specs.Counted.{counted};
ghost use Rattle.border_repair.specs.Digrams.{IsEnd, IsSymbol, occurrences, IsCandidate, IsTop};
ghost use Rattle.border_repair.specs.ValueBut.{pairs_in, value_but};

use border_repair::{Digram, Weights, across};
use slt_grammar::Grammar;
use std::alloc::{AllocError, Global};

/// A digram becomes the first rule, and stands nowhere else in what the grammar stands for.
pub fn across_told(
    alloc: Global,
    grammar: &mut Grammar,
    digram: Digram,
) -> Result<usize, AllocError>
    requires upper { IsSymbol digram.upper }
    requires lower { IsEnd digram.lower }
    requires there { 0 < occurrences digram (rules_of grammar.old.rules) }
    requires apart { digram.upper ≢ digram.lower }
    ensures value { OnOk result (value (rules_of grammar.new.rules) ≡ value (rules_of grammar.old.rules)) }
    ensures rule { IfOk result (λ x. body_at (rules_of grammar.new.rules) x ≡ digram_body (ranks_of (rules_of grammar.new.rules)) digram.upper (digram.place - 1) digram.lower) }
    ensures swept { OnOk result (IsSwept (rules_of grammar.new.rules)) }
    ensures first { IfOk result (λ x. x ≡ 0) }
    ensures left { IfOk result (λ x. pairs_in digram (ranks_of (rules_of grammar.new.rules)) (value_but (rules_of grammar.new.rules)) ≡ 0) }
    ensures calls { IfOk result (λ x. calls_in x (value_but (rules_of grammar.new.rules)) ≡ occurrences digram (rules_of grammar.old.rules)) }
    ensures size { OnOk result (size (rules_of grammar.new.rules) ≤ 32 * size (rules_of grammar.old.rules) + 2) }
    ensures refused { OnErr result (grammar.new ≡ grammar.old) }
{
    let rule = across(alloc, grammar, digram)?;
    Ok(rule)
}

/// A digram of a rank within the bound than which none is heavier.
pub fn top_weight_told(weights: &Weights, bound: usize) -> Option<Digram>
    ensures { MatchOption result ((d : Digram) → IsCandidate bound d → counted weights.now d ≡ 0) (IsTop (counted weights.now) bound) }
{
    weights.top(bound)
}
