// The rules that a rewriting makes.
ghost use Rattle.std.specs.Prelude.{◌≡◌, ◌≤◌, ◌+◌, ◌*◌, [], length, sum_by, IfOk, OnOk};
ghost use Rattle.slt_grammar.specs.Grammars.{IsGrammar, IsSwept, body_at, value};
ghost use Rattle.slt_grammar.specs.Keyed.{rules_of};
ghost use Rattle.rule_runs.specs.Notes.{IsRisen, unread};
ghost use Rattle.rule_runs.specs.Risen.{keys};
ghost use Rattle.bulk_rewrite.specs.Making.{AreMadeOnce};
ghost use Rattle.bulk_rewrite.specs.Rewriting.{rewritten};
ghost use Rattle.bulk_rewrite.specs.UnderWay.{IsUnderWay};

use crate::frame::begin;
use crate::making::{Making, finish, turn};
use crate::places::Places;
use crate::rewriter::Rewriter;
use read_steps::Steps;
use rule_runs::{RiseTable, Spot};
use slt_grammar::{Falling, Grammar, GrammarError, RuleList, check};
use std::alloc::{AllocError, Global};
use std::sync::ledger::Ledger;

/// The grammar of what becomes of the nodes of all that a grammar stands for, from what a run upward over its rules has found.
///
/// There is one rule for each rule, states of its arguments and down state that a run downward meets outside of what is taken out, at
/// most as large as the rule that it comes from. Each pair of a rule and states of its arguments is read at most once, with at most two
/// steps a node, whatever is answered. It fails where memory is refused.
pub fn rewrite<A: Rewriter, L: Ledger>(
    alloc: Global,
    grammar: &Grammar,
    automaton: &A,
    risen: &RiseTable<A::State>,
    steps: &mut Steps<L>,
) -> Result<Grammar, AllocError>
    requires run { IsRisen (A.algebra automaton.now) (rules_of grammar.now.rules) risen.now }
    ensures value { IfOk result (λ new. value (rules_of new.rules) ≡ rewritten (A.algebra automaton.now) (A.downward automaton.now) (A.rewriting automaton.now) (value (rules_of grammar.now.rules)) [] (A.downward automaton.now).start) }
    ensures made { IfOk result (λ new. AreMadeOnce (A.algebra automaton.now) (A.downward automaton.now) (rules_of grammar.now.rules) (A.rewriting automaton.now) (rules_of new.rules)) }
    ensures grammar { IfOk result (λ new. IsGrammar (rules_of new.rules)) }
    ensures swept { IfOk result (λ new. IsSwept (rules_of new.rules)) }
    ensures counted { steps.old ≤ steps.new }
    ensures reads { steps.new ≤ steps.old + 2 * sum_by (λ k. length (body_at (rules_of grammar.now.rules) k.0)) (keys risen.now.known) }
{
    // The call tells that the rules are a grammar.
    let _rules = grammar.rules();
    let rules = make_rules(alloc, grammar, automaton, risen, steps)?;
    match check(alloc, rules) {
        Ok(new) => Ok(new),
        Err(fault) => Err(refused(fault)),
    }
}

// The rules are a swept grammar, so that a check of them fails for want of memory alone.
fn refused(fault: GrammarError) -> AllocError
    requires { fault ≡ GrammarError.Memory }
{
    AllocError
}

// The rules that are made of what a run upward has found.
fn make_rules<A: Rewriter, L: Ledger>(
    alloc: Global,
    grammar: &Grammar,
    automaton: &A,
    risen: &RiseTable<A::State>,
    steps: &mut Steps<L>,
) -> Result<RuleList, AllocError>
    requires { IsRisen (A.algebra automaton.now) (rules_of grammar.now.rules) risen.now }
    ensures made { IfOk result (λ new. AreMadeOnce (A.algebra automaton.now) (A.downward automaton.now) (rules_of grammar.now.rules) (A.rewriting automaton.now) new) }
    ensures swept { IfOk result IsSwept }
    ensures counted { steps.old ≤ steps.new }
    ensures reads { steps.new ≤ steps.old + 2 * sum_by (λ k. length (body_at (rules_of grammar.now.rules) k.0)) (keys risen.now.known) }
{
    let mut making = start(alloc, grammar, automaton, risen, steps)?;
    'turns: while turn(alloc, automaton, grammar, risen, &mut making, steps)? {}
    finish(automaton, grammar, risen, making)
}

// Begins with the body of the start.
fn start<'a, A: Rewriter, L: Ledger>(
    alloc: Global,
    grammar: &Grammar,
    automaton: &A,
    risen: &'a RiseTable<A::State>,
    steps: &mut Steps<L>,
) -> Result<Making<'a, A::State, A::Down>, AllocError>
    requires { IsRisen (A.algebra automaton.now) (rules_of grammar.now.rules) risen.now }
    ensures way { IfOk result (λ making. IsUnderWay (A.algebra automaton.now) (A.downward automaton.now) (rules_of grammar.now.rules) (A.rewriting automaton.now) (keys risen.now.known) making) }
    ensures counted { steps.old ≤ steps.new }
    ensures reads { steps.new ≤ steps.old + 2 * sum_by (λ k. length (body_at (rules_of grammar.now.rules) k.0)) (keys risen.now.known) }
    ensures once { IfOk result (λ making. steps.new + 2 * unread (rules_of grammar.now.rules) (keys risen.now.known) making.bodies ≤ steps.old + 2 * sum_by (λ k. length (body_at (rules_of grammar.now.rules) k.0)) (keys risen.now.known)) }
{
    // The call tells that the rules are a grammar.
    let _rules = grammar.rules();
    let pairs = risen.pairs();
    let mut bodies = risen.reading(alloc)?;
    let spot = Spot {
        pair: pairs - 1,
        down: automaton.start()?,
    };
    let frame = begin(alloc, automaton, grammar, risen, &mut bodies, spot, steps)?;
    Ok(Making {
        bodies,
        known: Places::with_room(alloc, pairs)?,
        rules: RuleList::new(alloc),
        frame,
        frames: Vec::new(alloc),
    })
}
