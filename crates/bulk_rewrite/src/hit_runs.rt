// What is hit of all that a grammar stands for, by a run downward over what one upward has found.
ghost use Rattle.std.specs.Prelude.{◌≡◌, ◌↔◌, ◌<◌, ◌≤◌, ◌+◌, ◌*◌, ◌^◌, [], None, IfOk, IsTrue, length, sum_by};
ghost use Rattle.slt_grammar.specs.Automata.{hits, nodes_in};
ghost use Rattle.slt_grammar.specs.Grammars.{body_at, value};
ghost use Rattle.slt_grammar.specs.Keyed.{rules_of};
ghost use Rattle.rule_runs.specs.Notes.{IsRisen};
ghost use Rattle.rule_runs.specs.Risen.{keys};
ghost use Rattle.bulk_rewrite.specs.FirstHits.{IsFirstHit};

use read_steps::Steps;
use rule_runs::{Answers, RiseTable, Spent, fall};
use slt_grammar::{Falling, Grammar};
use std::alloc::{AllocError, Global};
use std::sync::ledger::Ledger;

// Whether nothing is hit.
pub(crate) fn hits_nothing<A: Falling, L: Ledger>(
    alloc: Global,
    grammar: &Grammar,
    automaton: &A,
    risen: &RiseTable<A::State>,
    steps: &mut Steps<L>,
) -> Result<bool, AllocError>
    requires run { IsRisen (A.algebra automaton.now) (rules_of grammar.now.rules) risen.now }
    requires small { nodes_in (value (rules_of grammar.now.rules)) < 2 ^ 63 }
    ensures nothing { IfOk result (λ nothing. IsTrue nothing ↔ (hits (A.algebra automaton.now) (A.downward automaton.now) (value (rules_of grammar.now.rules)) ≡ [])) }
    ensures reads { steps.new ≤ steps.old + 2 * sum_by (λ k. length (body_at (rules_of grammar.now.rules) k.0)) (keys risen.now.known) }
    ensures counted { steps.old ≤ steps.new }
{
    let fallen = fall(alloc, grammar, automaton, risen, unspent(), false, steps)?;
    Ok(fallen.count() == 0)
}

// The symbol of the first node that is hit, and whether all that are hit are seen to have it.
#[derive(Clone, Copy, Drop)]
pub(crate) struct FirstHit {
    pub(crate) symbol: usize,
    pub(crate) only: bool,
}

// What is told of the first node that is hit, if there is one.
pub(crate) fn first_hit<A: Falling, L: Ledger>(
    alloc: Global,
    grammar: &Grammar,
    automaton: &A,
    risen: &RiseTable<A::State>,
    steps: &mut Steps<L>,
) -> Result<Option<FirstHit>, AllocError>
    requires run { IsRisen (A.algebra automaton.now) (rules_of grammar.now.rules) risen.now }
    requires small { nodes_in (value (rules_of grammar.now.rules)) < 2 ^ 63 }
    ensures first { IfOk result (IsFirstHit (A.algebra automaton.now) (A.downward automaton.now) (value (rules_of grammar.now.rules))) }
    ensures reads { steps.new ≤ steps.old + 2 * sum_by (λ k. length (body_at (rules_of grammar.now.rules) k.0)) (keys risen.now.known) }
    ensures counted { steps.old ≤ steps.new }
{
    let fallen = fall(alloc, grammar, automaton, risen, unspent(), true, steps)?;
    let mut answers = Answers::new(alloc, &fallen)?;
    match answers.next_alike()? {
        Some(hits) => Ok(Some(FirstHit {
            symbol: hits.symbol,
            only: hits.count == fallen.count(),
        })),
        None => Ok(None),
    }
}

// No down state from which nothing is hit is known.
pub(crate) fn unspent<'a, D>() -> Option<&'a Spent<'a, D>>
    ensures { result ≡ None }
{
    None
}
