// Texts that equal a literal, as value_tests promises them.
ghost use Rattle.std.specs.Prelude.{◌≡◌, ◌+◌, ◌*◌, ◌≤◌, ℕ, List, Some, slice_get, IfOk};
ghost use Rattle.plain_tree.specs.Tree.{Tree, none, more};
ghost use Rattle.slt_grammar.specs.Automata.{nodes_in};
ghost use Rattle.slt_grammar.specs.Grammars.{value, whole};
ghost use Rattle.slt_grammar.specs.Keyed.{rules_of};
ghost use Rattle.slt_grammar.specs.Standing.{StandsFor};
ghost use Rattle.segment_counts.specs.Counting.{AreCounts};
ghost use Rattle.value_tests.specs.Isolated.{IsIsolated};
ghost use Rattle.value_tests.specs.MarkLists.{mark_at};
ghost use Rattle.value_tests.specs.MarkedCodes.{CodesMarked};
ghost use Rattle.value_tests.specs.MarkedValues.{marked_value};

use plain_tree::Names;
use read_steps::Steps;
use segment_counts::Counts;
use slt_grammar::Grammar;
use std::alloc::{AllocError, Global};
use std::sync::ledger::Ledger;
use value_tests::{Marks, isolate_marked};

/// A grammar of the value in which the marks of texts are told, each rule read at most once.
pub fn isolate_marked_told<L: Ledger>(
    alloc: Global,
    grammar: &Grammar,
    counts: &Counts,
    names: &Names,
    marks: &Marks,
    steps: &mut Steps<L>,
) -> Result<Grammar, AllocError>
    requires { AreCounts names.now (rules_of grammar.now.rules) counts.now }
    ensures value { IfOk result (λ g. value (rules_of g.rules) ≡ marked_value names.now marks.now (rules_of grammar.now.rules)) }
    ensures code { IfOk result (λ g. (values : List (List ℕ)) (t : Tree) (mark : List ℕ → ℕ) → StandsFor (rules_of grammar.now.rules) names.now values t
        → ((i : ℕ) (v : List ℕ) → slice_get values i ≡ Some v → mark_at marks.now i ≡ mark v) → CodesMarked names.now mark (more t none) (value (rules_of g.rules))) }
    ensures isolated { IfOk result (λ g. IsIsolated names.now marks.now (rules_of grammar.now.rules) (rules_of g.rules)) }
    ensures nodes { IfOk result (λ g. nodes_in (value (rules_of g.rules)) ≡ nodes_in (value (rules_of grammar.now.rules))) }
    ensures steps { steps.new ≤ steps.old + 2 * whole (rules_of grammar.now.rules) }
    ensures counted { steps.old ≤ steps.new }
{
    isolate_marked(alloc, grammar, counts, names, marks, steps)
}
