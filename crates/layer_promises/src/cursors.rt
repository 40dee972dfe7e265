// What is told of the nodes of a value in turn, as value_cursor promises it.
ghost use Rattle.std.specs.Prelude.{◌↔◌, ◌<◌, [], sum_by, IsSome, IfSome, IfOk, IsTrue, ◌≤◌, ℕ};
ghost use Rattle.slt_grammar.specs.Grammars.{value};
ghost use Rattle.slt_grammar.specs.Keyed.{rules_of};
ghost use Rattle.slt_grammar.specs.Segments.{listed};
ghost use Rattle.segment_counts.specs.Counting.{AreCounts};
ghost use Rattle.segment_counts.specs.Weights.{node_weight};
ghost use Rattle.preorder_address.specs.Numberings.{AreCountsOf};
ghost use Rattle.value_cursor.specs.Cursors.{BeginsAtNode, IsInside, found, left_of};
ghost use Rattle.value_cursor.specs.Finders.{IsSearch, StandsAtNode};
ghost use Rattle.value_cursor.specs.Rises.{RisesAtMost};
ghost use Rattle.value_cursor.specs.declared.cursor.Cursor.{Cursor};

use plain_tree::Names;
use read_steps::Steps;
use segment_counts::Counts;
use slt_grammar::Grammar;
use std::alloc::{AllocError, Global};
use std::sync::ledger::Ledger;
use value_cursor::{Cursor, Finder, most_open};

/// A cursor that begins at a node.
pub fn cursor_told<L: Ledger>(
    alloc: Global,
    grammar: &Grammar,
    counts: &Counts,
    number: u64,
    steps: &mut Steps<L>,
) -> Result<Option<Cursor>, AllocError>
    requires { AreCountsOf (rules_of grammar.now.rules) counts.now }
    ensures some { IfOk result (λ found. IsSome found ↔ number < sum_by node_weight (listed (value (rules_of grammar.now.rules)) [])) }
    ensures inside { IfOk result (λ found. IfSome found (IsInside grammar.now.rules)) }
    ensures begins { IfOk result (λ found. IfSome found (BeginsAtNode grammar.now.rules number)) }
{
    Cursor::new(alloc, grammar, counts, number, steps)
}

/// A search stands at a node, which is there exactly where the answer is true.
pub fn go_to_told<L: Ledger>(
    finder: &mut Finder,
    grammar: &Grammar,
    counts: &Counts,
    names: &Names,
    number: u64,
    steps: &mut Steps<L>,
) -> bool
    requires counts { AreCounts names.now (rules_of grammar.now.rules) counts.now }
    requires search { IsSearch names.now grammar.now.rules finder.old }
    ensures search { IsSearch names.now grammar.now.rules finder.new }
    ensures some { IsTrue result ↔ number < sum_by node_weight (listed (value (rules_of grammar.now.rules)) []) }
    ensures stands { IsTrue result → StandsAtNode names.now grammar.now.rules number finder.new }
{
    finder.go_to(grammar, counts, names, number, steps)
}

/// The least number of nodes that are never passed by those open at once.
pub fn most_open_told<L: Ledger>(
    alloc: Global,
    grammar: &Grammar,
    counts: &Counts,
    steps: &mut Steps<L>,
) -> Result<usize, AllocError>
    requires { AreCountsOf (rules_of grammar.now.rules) counts.now }
    ensures bound { IfOk result (λ most. RisesAtMost most (listed (value (rules_of grammar.now.rules)) [])) }
    ensures least { IfOk result (λ most. (m : ℕ) → RisesAtMost m (listed (value (rules_of grammar.now.rules)) []) → most ≤ m) }
    ensures cursors { IfOk result (λ most. (number : ℕ) (cursor : Cursor) → BeginsAtNode grammar.now.rules number cursor → RisesAtMost most (left_of grammar.now.rules cursor)) }
{
    let most = most_open(alloc, grammar, counts, steps)?;
    Ok(most)
}
