// Runs upward of automata that tell no nodes apart, such as the selectors of queries without filters.
ghost use Rattle.std.specs.Prelude.{◌≡◌, [], length, replicate, sum_by, IfOk, OnOk};
ghost use Rattle.slt_grammar.specs.Grammars.{IsSwept, body_at, value, whole};
ghost use Rattle.slt_grammar.specs.Keyed.{rules_of};
ghost use Rattle.slt_grammar.specs.OneState.{HasOneState};
ghost use Rattle.slt_grammar.specs.Terms.{up};
ghost use Rattle.rule_runs.specs.Notes.{IsRisen};
ghost use Rattle.rule_runs.specs.Risen.{keys};

use crate::kept::Bodies;
use crate::memo::{Memo, Pair};
use crate::rising::RiseTable;
use slt_grammar::{Grammar, Rising};
use std::alloc::{AllocError, Global};

/// The run upward of an automaton that gives every node the state of bottom, over rules of which each but the start is called. It is
/// what `rise` answers, with the pairs in another order, and it reads no node.
///
/// Each rule is met with one list of argument states, that of bottoms, so the bodies of all pairs have as many nodes as the rules
/// (`nodes`). It fails where memory is refused, as it is for lists of more than 2^32 pairs or states.
pub fn rise_in_one_state<A: Rising>(
    alloc: Global,
    grammar: &Grammar,
    automaton: &A,
) -> Result<RiseTable<A::State>, AllocError>
    requires one { HasOneState (A.algebra automaton.now) }
    requires swept { IsSwept (rules_of grammar.now.rules) }
    ensures top { IfOk result (λ table. table.top ≡ up (A.algebra automaton.now) (value (rules_of grammar.now.rules)) []) }
    ensures run { IfOk result (λ table. IsRisen (A.algebra automaton.now) (rules_of grammar.now.rules) table) }
    ensures nodes { IfOk result (λ table. sum_by (λ k. length (body_at (rules_of grammar.now.rules) k.0)) (keys table.known) ≡ whole (rules_of grammar.now.rules)) }
{
    let rules = grammar.rules();
    let mut known = Memo::with_room(alloc, rules)?;
    let mut pair = Pair {
        rule: 0,
        states: Vec::new(alloc),
    };
    'rules: for rule in 0..rules {
        pair.rule = rule;
        fill(automaton, grammar.rank(rule), &mut pair.states)?;
        known.note(&mut pair, automaton.bottom()?)?;
    }
    Ok(RiseTable {
        known,
        bodies: Bodies::new(alloc),
        top: automaton.bottom()?,
    })
}

// Makes a list one of so many states of bottom.
fn fill<A: Rising>(
    automaton: &A,
    count: usize,
    states: &mut Vec<A::State>,
) -> Result<(), AllocError>
    ensures { OnOk result (states.new.items ≡ replicate count (A.algebra automaton.now).bottom) }
{
    states.clear();
    'states: for _i in 0..count {
        states.push(automaton.bottom()?)?;
    }
    Ok(())
}
