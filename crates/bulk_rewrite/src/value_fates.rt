// What becomes of the values of the nodes that are kept, taken out, or below such.
ghost use Rattle.std.specs.Prelude.{◌≡◌, ◌<◌, ◌≤◌, ◌-◌, ◌^◌, [], IfOk, IfSome, IsSome};
ghost use Rattle.slt_grammar.specs.Automata.{nodes_in};
ghost use Rattle.slt_grammar.specs.Grammars.{value};
ghost use Rattle.slt_grammar.specs.Keyed.{rules_of};
ghost use Rattle.rule_runs.specs.Notes.{IsRisen};
ghost use Rattle.bulk_rewrite.specs.Fates.{fates};
ghost use Rattle.bulk_rewrite.specs.Joining.{NoText, At, joining_run, texts_in, valued_in};
ghost use Rattle.bulk_rewrite.specs.Reads.{ReadsInRunsAndFall};
ghost use Rattle.bulk_rewrite.specs.Tags.{told_fates};

use crate::hit_runs::unspent;
use crate::joining::Joining;
use crate::rewriting::rewrite;
use crate::tagging::Tagging;
use crate::value_hits::ValueHits;
use plain_tree::Kind;
use read_steps::Steps;
use rule_runs::{FallTable, RiseTable, fall, rise_in_one_state};
use slt_grammar::{Falling, Grammar};
use std::alloc::{AllocError, Global};
use std::sync::ledger::Ledger;

// The nodes that have a value are listed, each with its fate for a symbol.
//
// The rules are rewritten so that each node has its fate for a symbol, and the run over these has one state.
pub(crate) fn value_fates<A: Falling, L: Ledger>(
    alloc: Global,
    grammar: &Grammar,
    automaton: &A,
    kinds: &[Kind],
    risen: &RiseTable<A::State>,
    steps: &mut Steps<L>,
) -> Result<FallTable, AllocError>
    requires run { IsRisen (A.algebra automaton.now) (rules_of grammar.now.rules) risen.now }
    requires small { nodes_in (value (rules_of grammar.now.rules)) < 2 ^ 63 }
    ensures listed { IfOk result (λ table. IsSome table.hits) }
    ensures told { IfOk result (λ table. IfSome table.hits (λ found. told_fates found ≡ fates (A.algebra automaton.now) (A.downward automaton.now) (valued_in kinds.now) (texts_in kinds.now) (value (rules_of grammar.now.rules)) [] (At (A.downward automaton.now).start NoText))) }
    ensures reads { ReadsInRunsAndFall (A.algebra automaton.now) (joining_run (A.downward automaton.now) (texts_in kinds.now)) (rules_of grammar.now.rules) 1 (steps.new - steps.old) }
    ensures counted { steps.old ≤ steps.new }
{
    let joining = Joining { automaton, kinds };
    let tagging = Tagging { joining };
    let tagged = rewrite(alloc, grammar, &tagging, risen, steps)?;
    let values = ValueHits;
    let states = rise_in_one_state(alloc, &tagged, &values)?;
    let fallen = fall(alloc, &tagged, &values, &states, unspent(), true, steps)?;
    Ok(fallen)
}
