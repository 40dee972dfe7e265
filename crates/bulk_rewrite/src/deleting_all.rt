// All nodes that an automaton hits are taken out.
ghost use Rattle.std.specs.Prelude.{◌≡◌, ◌↔◌, ◌<◌, ◌≤◌, ◌+◌, ◌-◌, ◌*◌, ◌^◌, ℕ, List, [], IfOk, IfErr, IsTrue, length, sum_by};
ghost use Rattle.plain_tree.specs.Tree.{Tree, node_count};
ghost use Rattle.slt_grammar.specs.Automata.{hits, nodes_in};
ghost use Rattle.slt_grammar.specs.Grammars.{IsSwept, body_at, value};
ghost use Rattle.slt_grammar.specs.Keyed.{rules_of};
ghost use Rattle.slt_grammar.specs.Ranks.{greatest_rank};
ghost use Rattle.slt_grammar.specs.Standing.{StandsFor};
ghost use Rattle.rule_runs.specs.Notes.{IsRisen};
ghost use Rattle.rule_runs.specs.Risen.{keys};
ghost use Rattle.bulk_rewrite.specs.DeletedAll.{AreDeleted, IsNotDeletedFor, deleting_run};
ghost use Rattle.bulk_rewrite.specs.Fates.{fates, redone};
ghost use Rattle.bulk_rewrite.specs.Joining.{NoText, At, elements_in, joining, joining_run, sparing_run, texts_in, valued_in};
ghost use Rattle.bulk_rewrite.specs.Making.{AreFew, AreMadeOnce};
ghost use Rattle.bulk_rewrite.specs.Reads.{ReadsInRunsAndFall};
ghost use Rattle.bulk_rewrite.specs.Rewriting.{rewritten};

use crate::hit_runs::hits_nothing;
use crate::joining::Joining;
use crate::kinds::kinds_of;
use crate::redoing::{Redoing, redo_all};
use crate::renaming_all::BulkError;
use crate::rewriting::rewrite;
use crate::sparing::Sparing;
use crate::value_fates::value_fates;
use plain_tree::{Kind, Names};
use read_steps::Steps;
use rule_runs::{Answers, RiseTable, rise};
use slt_grammar::{Falling, Grammar};
use std::alloc::{AllocError, Global};
use std::sync::ledger::Ledger;
use text_list::TextList;

/// A grammar, and the texts that stand with it.
#[derive(Drop)]
pub struct Rewritten {
    pub grammar: Grammar,
    pub texts: TextList,
}

/// The grammar and the texts of the document without the nodes that the automaton hits and all below them, where two texts become one that come
/// to stand beside one another. Neither the document nor its root element is hit, or `NotAllowed` says that it isn't so.
///
/// There is one rule for each rule, states of its arguments and down state that a run downward meets outside of what is taken out, no larger
/// than the rule that it comes from, whatever the number of hits. It is refused for want of memory at any time.
///
/// No more is read than four runs upward and one downward may read, whatever is answered: the first one, one that tells whether all may go, and
/// two rewritings; and one that lists what becomes of the texts, over rules that are made of the triples that the run downward meets.
pub fn delete_all<A: Falling, L: Ledger>(
    alloc: Global,
    grammar: &Grammar,
    names: &Names,
    texts: &TextList,
    automaton: &A,
    steps: &mut Steps<L>,
) -> Result<Rewritten, BulkError>
    requires stands { (t : Tree) × StandsFor (rules_of grammar.now.rules) names.now texts.now.texts t × (node_count t < 2 ^ 63) }
    ensures deleted { IfOk result (λ new. (t : Tree) → StandsFor (rules_of grammar.now.rules) names.now texts.now.texts t → AreDeleted (hits (A.algebra automaton.now) (A.downward automaton.now) (value (rules_of grammar.now.rules))) names.now (rules_of new.grammar.rules) new.texts.texts t) }
    ensures few { IfOk result (λ new. AreFew (A.algebra automaton.now) (deleting_run (A.downward automaton.now) names.now) (rules_of grammar.now.rules) (rules_of new.grammar.rules)) }
    ensures ranks { IfOk result (λ new. greatest_rank (rules_of new.grammar.rules) ≤ greatest_rank (rules_of grammar.now.rules)) }
    ensures swept { IfOk result (λ new. IsSwept (rules_of new.grammar.rules)) }
    ensures refused { IfErr result (λ error. (t : Tree) → StandsFor (rules_of grammar.now.rules) names.now texts.now.texts t → IsNotDeletedFor error (hits (A.algebra automaton.now) (A.downward automaton.now) (value (rules_of grammar.now.rules))) t) }
    ensures reads { ReadsInRunsAndFall (A.algebra automaton.now) (deleting_run (A.downward automaton.now) names.now) (rules_of grammar.now.rules) 4 (steps.new - steps.old) }
    ensures counted { steps.old ≤ steps.new }
{
    // The call tells that the rules are a grammar.
    let _rules = grammar.rules();
    let table = kinds_of(alloc, names)?;
    let kinds = table.as_slice();
    let risen = rise(alloc, grammar, automaton, true, steps)?;
    let spared = spares(alloc, grammar, automaton, kinds, &risen, steps)?;
    if !spared {
        return Err(BulkError::NotAllowed);
    }
    match take_out(alloc, grammar, texts, automaton, kinds, &risen, steps) {
        Ok(new) => Ok(new),
        Err(_) => Err(BulkError::Memory),
    }
}

// Whether neither the document nor its root element is hit.
fn spares<A: Falling, L: Ledger>(
    alloc: Global,
    grammar: &Grammar,
    automaton: &A,
    kinds: &[Kind],
    risen: &RiseTable<A::State>,
    steps: &mut Steps<L>,
) -> Result<bool, AllocError>
    requires run { IsRisen (A.algebra automaton.now) (rules_of grammar.now.rules) risen.now }
    requires small { nodes_in (value (rules_of grammar.now.rules)) < 2 ^ 63 }
    ensures spared { IfOk result (λ spared. IsTrue spared ↔ (hits (A.algebra automaton.now) (sparing_run (A.downward automaton.now) (elements_in kinds.now)) (value (rules_of grammar.now.rules)) ≡ [])) }
    ensures reads { steps.new ≤ steps.old + 2 * sum_by (λ k. length (body_at (rules_of grammar.now.rules) k.0)) (keys risen.now.known) }
    ensures counted { steps.old ≤ steps.new }
{
    let sparing = Sparing { automaton, kinds };
    hits_nothing(alloc, grammar, &sparing, risen, steps)
}

// The grammar of what is left, with what becomes of the texts.
fn take_out<A: Falling, L: Ledger>(
    alloc: Global,
    grammar: &Grammar,
    texts: &TextList,
    automaton: &A,
    kinds: &[Kind],
    risen: &RiseTable<A::State>,
    steps: &mut Steps<L>,
) -> Result<Rewritten, AllocError>
    requires run { IsRisen (A.algebra automaton.now) (rules_of grammar.now.rules) risen.now }
    requires small { nodes_in (value (rules_of grammar.now.rules)) < 2 ^ 63 }
    ensures value { IfOk result (λ new. value (rules_of new.grammar.rules) ≡ rewritten (A.algebra automaton.now) (joining_run (A.downward automaton.now) (texts_in kinds.now)) (joining (texts_in kinds.now)) (value (rules_of grammar.now.rules)) [] (At (A.downward automaton.now).start NoText)) }
    ensures made { IfOk result (λ new. AreMadeOnce (A.algebra automaton.now) (joining_run (A.downward automaton.now) (texts_in kinds.now)) (rules_of grammar.now.rules) (joining (texts_in kinds.now)) (rules_of new.grammar.rules)) }
    ensures swept { IfOk result (λ new. IsSwept (rules_of new.grammar.rules)) }
    ensures texts { IfOk result (λ new. new.texts.texts ≡ (redone (fates (A.algebra automaton.now) (A.downward automaton.now) (valued_in kinds.now) (texts_in kinds.now) (value (rules_of grammar.now.rules)) [] (At (A.downward automaton.now).start NoText)) texts.now.texts).values) }
    ensures reads { ReadsInRunsAndFall (A.algebra automaton.now) (joining_run (A.downward automaton.now) (texts_in kinds.now)) (rules_of grammar.now.rules) 2 (steps.new - steps.old) }
    ensures counted { steps.old ≤ steps.new }
{
    let left = left_texts(alloc, grammar, texts, automaton, kinds, risen, steps)?;
    let joining = Joining { automaton, kinds };
    let rules = rewrite(alloc, grammar, &joining, risen, steps)?;
    Ok(Rewritten {
        grammar: rules,
        texts: left,
    })
}

// What becomes of the texts.
fn left_texts<A: Falling, L: Ledger>(
    alloc: Global,
    grammar: &Grammar,
    texts: &TextList,
    automaton: &A,
    kinds: &[Kind],
    risen: &RiseTable<A::State>,
    steps: &mut Steps<L>,
) -> Result<TextList, AllocError>
    requires run { IsRisen (A.algebra automaton.now) (rules_of grammar.now.rules) risen.now }
    requires small { nodes_in (value (rules_of grammar.now.rules)) < 2 ^ 63 }
    ensures texts { IfOk result (λ list. list.texts ≡ (redone (fates (A.algebra automaton.now) (A.downward automaton.now) (valued_in kinds.now) (texts_in kinds.now) (value (rules_of grammar.now.rules)) [] (At (A.downward automaton.now).start NoText)) texts.now.texts).values) }
    ensures reads { ReadsInRunsAndFall (A.algebra automaton.now) (joining_run (A.downward automaton.now) (texts_in kinds.now)) (rules_of grammar.now.rules) 1 (steps.new - steps.old) }
    ensures counted { steps.old ≤ steps.new }
{
    let fallen = value_fates(alloc, grammar, automaton, kinds, risen, steps)?;
    let mut answers = Answers::new(alloc, &fallen)?;
    let mut redoing = Redoing::new(alloc, texts)?;
    redo_all(&mut answers, &mut redoing)?;
    redoing.finish()
}
