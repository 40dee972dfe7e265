// What automata answer over rules, as rule_runs promises it.
ghost use Rattle.std.specs.Map.{lookup};
ghost use Rattle.std.specs.Prelude.{◌≡◌, ◌↔◌, ◌-◌, ◌+◌, ◌*◌, ◌^◌, ◌<◌, ◌≤◌, ℕ, List, length, sum_by, slice_get, Some, All, IfOk, IfSome, IsSome, IsTrue, true, None, IfNone, ◌++◌, option_to_list};
ghost use Rattle.plain_tree.specs.declared.kind.Kind.{Kind};
ghost use Rattle.slt_grammar.specs.Automata.{IsSpent, hits, nodes_in};
ghost use Rattle.slt_grammar.specs.Grammars.{body_at, value};
ghost use Rattle.slt_grammar.specs.Keyed.{rules_of};
ghost use Rattle.segment_counts.specs.Counting.{AreCounts};
ghost use Rattle.rule_runs.specs.Hits.{numbers, symbols_in};
ghost use Rattle.rule_runs.specs.Notes.{IsRisen};
ghost use Rattle.rule_runs.specs.Reached.{RuleStates, FallsOnce};
ghost use Rattle.rule_runs.specs.Risen.{keys};

use read_steps::Steps;
use rule_runs::{Answers, FallTable, Numbered, RiseTable, Spent, Table, fall};
use slt_grammar::{Falling, Grammar};
use std::alloc::{AllocError, Global};
use std::sync::ledger::Ledger;

/// The hits of a run, counted, and listed where that is asked; each body is read once for each state at most.
pub fn fall_told<A: Falling, L: Ledger>(
    alloc: Global,
    grammar: &Grammar,
    automaton: &A,
    risen: &RiseTable<A::State>,
    spent: Option<&Spent<'_, A::Down>>,
    listed: bool,
    steps: &mut Steps<L>,
) -> Result<FallTable, AllocError>
    requires run { IsRisen (A.algebra automaton.now) (rules_of grammar.now.rules) risen.now }
    requires small { nodes_in (value (rules_of grammar.now.rules)) < 2 ^ 63 }
    requires spent { IfSome spent (λ s. IsSpent (A.downward automaton.now) s.now.down) }
    requires counts { IfSome spent (λ s. (names : List (Kind × List ℕ)) × AreCounts names (rules_of grammar.now.rules) s.now.counts.now) }
    ensures count { IfOk result (λ table. table.count ≡ length (hits (A.algebra automaton.now) (A.downward automaton.now) (value (rules_of grammar.now.rules)))) }
    ensures listed { IfOk result (λ table. IsSome table.hits ↔ IsTrue listed) }
    ensures hits { IfOk result (λ table. IfSome table.hits (λ found. numbers found ≡ hits (A.algebra automaton.now) (A.downward automaton.now) (value (rules_of grammar.now.rules)))) }
    ensures symbols { IfOk result (λ table. IfSome table.hits (λ found. All (λ hit. slice_get (symbols_in (value (rules_of grammar.now.rules))) hit.number ≡ Some hit.symbol) found)) }
    ensures steps { (triples : List (RuleStates A.State × A.Down)) × FallsOnce (A.algebra automaton.now) (A.downward automaton.now) (rules_of grammar.now.rules) triples (steps.new - steps.old) }
    ensures reads { steps.new ≤ steps.old + 2 * sum_by (λ k. length (body_at (rules_of grammar.now.rules) k.0)) (keys risen.now.known) }
    ensures counted { steps.old ≤ steps.new }
{
    fall(alloc, grammar, automaton, risen, spent, listed, steps)
}

/// What is known of a key, and nothing where nothing is known of it, whatever is known of another key with the same number.
pub fn find_told<'a, K: Numbered, X: Drop>(
    table: &'a Table<K, X>,
    key: &K,
    _alike: &K,
) -> Option<(usize, &'a X)>
    ensures found { IfSome result (λ r. (k : K) × (slice_get table.now r.0 ≡ Some (k, r.1.now)) × (K.eq key.now k ≡ true)) }
    ensures absent { IfNone result (lookup (K.eq key.now) table.now ≡ None) }
{
    table.find(key)
}

/// The numbers of the nodes that are hit come in turn, in rising order.
pub fn answers_told(answers: &mut Answers<'_>) -> Result<(Option<u64>, Option<u64>), AllocError>
    ensures { IfOk result (λ two. numbers answers.old ≡ option_to_list two.0 ++ (option_to_list two.1 ++ numbers answers.new)) }
{
    let first = answers.next()?;
    let second = answers.next()?;
    Ok((first, second))
}
