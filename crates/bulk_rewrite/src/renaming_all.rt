// All nodes that an automaton hits get another name.
ghost use Rattle.std.specs.Prelude.{◌≡◌, ◌<◌, ◌≤◌, ◌+◌, ◌-◌, ◌*◌, ◌^◌, ℕ, List, IfOk, IfErr, OnOk, length, sum_by};
ghost use Rattle.std.specs.List.{AllZip};
ghost use Rattle.plain_tree.specs.Lawful.{IsName};
ghost use Rattle.plain_tree.specs.Tree.{Tree, node_count};
ghost use Rattle.slt_grammar.specs.Automata.{hits};
ghost use Rattle.fcns_encoding.specs.Interning.{Interns};
ghost use Rattle.slt_grammar.specs.Grammars.{IsSwept, body_at, value};
ghost use Rattle.slt_grammar.specs.Keyed.{rules_of};
ghost use Rattle.slt_grammar.specs.Ranks.{greatest_rank};
ghost use Rattle.slt_grammar.specs.Standing.{StandsFor};
ghost use Rattle.rule_runs.specs.Notes.{IsRisen};
ghost use Rattle.rule_runs.specs.Risen.{keys};
ghost use Rattle.bulk_rewrite.specs.Making.{AreFew};
ghost use Rattle.bulk_rewrite.specs.NewNames.{IsRenamedSymbol};
ghost use Rattle.bulk_rewrite.specs.Reads.{ReadsInRuns};
ghost use Rattle.bulk_rewrite.specs.RenamedAll.{AreRenamed, IsRefusedFor, MayRename, renamed_pairs};

use crate::hit_runs::hits_nothing;
use crate::new_names::grow_names;
use crate::refusing::Refusing;
use crate::renaming::Renaming;
use crate::rewriting::rewrite;
use crate::signs::{new_symbols, refusing_signs};
use plain_tree::Names;
use read_steps::Steps;
use rule_runs::{RiseTable, rise};
use slt_grammar::{Falling, Grammar};
use std::alloc::{AllocError, Global};
use std::sync::ledger::Ledger;

/// Why not all nodes that are hit are edited.
#[derive(Clone, Copy, Debug, PartialEq, Eq)]
pub enum BulkError {
    /// One of them is of a kind that doesn't let the edit, or the outcome would be no document.
    NotAllowed,
    Memory,
}

impl From<AllocError> for BulkError {
    ghost use Rattle.std.specs.Prelude.{◌≡◌};
    ghost use Rattle.bulk_rewrite.specs.declared.renaming_all.BulkError.TheVariants.{Memory};

    ghost from_gives = { λ _ error. error ≡ Memory };

    fn from(_: AllocError) -> BulkError {
        BulkError::Memory
    }
}

/// The grammar of the document with this name, which is a Name of XML, for all nodes that the automaton hits. They are elements, attributes
/// and instructions, and the outcome is a document, or `NotAllowed` says that it isn't so.
///
/// There is one rule for each rule, states of its arguments and down state that a run downward meets, no larger than the rule that it comes
/// from, whatever the number of hits. The names grow by the pairs of the kinds of these nodes with the name, in document order. It is refused
/// for want of memory at any time, and some first ones of the pairs may be in the table then if the nodes may be renamed.
///
/// No more is read than seven runs upward may read, whatever is answered: the first one, one that tells whether all may have the name, four
/// that look for kinds which don't have it in the table yet (three kinds of nodes have names), and the rewriting.
pub fn rename_all<A: Falling, L: Ledger>(
    alloc: Global,
    grammar: &Grammar,
    names: &mut Names,
    automaton: &A,
    name: &[u8],
    steps: &mut Steps<L>,
) -> Result<Grammar, BulkError>
    requires stands { (values : List (List ℕ)) × (t : Tree) × StandsFor (rules_of grammar.now.rules) names.old values t × (node_count t < 2 ^ 63) }
    requires name { IsName name.now }
    ensures renamed { IfOk result (λ new. (values : List (List ℕ)) (t : Tree) → StandsFor (rules_of grammar.now.rules) names.old values t → AreRenamed (hits (A.algebra automaton.now) (A.downward automaton.now) (value (rules_of grammar.now.rules))) name.now names.old names.new (rules_of new.rules) values t) }
    ensures few { IfOk result (λ new. AreFew (A.algebra automaton.now) (A.downward automaton.now) (rules_of grammar.now.rules) (rules_of new.rules)) }
    ensures ranks { IfOk result (λ new. greatest_rank (rules_of new.rules) ≤ greatest_rank (rules_of grammar.now.rules)) }
    ensures swept { IfOk result (λ new. IsSwept (rules_of new.rules)) }
    ensures refused { IfErr result (λ error. (values : List (List ℕ)) (t : Tree) → StandsFor (rules_of grammar.now.rules) names.old values t → IsRefusedFor error (hits (A.algebra automaton.now) (A.downward automaton.now) (value (rules_of grammar.now.rules))) name.now names.old names.new t) }
    ensures reads { ReadsInRuns (A.algebra automaton.now) (rules_of grammar.now.rules) 7 (steps.new - steps.old) }
    ensures counted { steps.old ≤ steps.new }
{
    // The call tells that the rules are a grammar.
    let _rules = grammar.rules();
    let risen = rise(alloc, grammar, automaton, true, steps)?;
    let symbols = prepare(alloc, grammar, names, automaton, &risen, name, steps)?;
    let renaming = Renaming { automaton, symbols };
    match rewrite(alloc, grammar, &renaming, &risen, steps) {
        Ok(new) => Ok(new),
        Err(_) => Err(BulkError::Memory),
    }
}

// The symbols that nodes get where they are hit, if all these nodes may get the name. The names have grown then.
fn prepare<A: Falling, L: Ledger>(
    alloc: Global,
    grammar: &Grammar,
    names: &mut Names,
    automaton: &A,
    risen: &RiseTable<A::State>,
    name: &[u8],
    steps: &mut Steps<L>,
) -> Result<Vec<usize>, BulkError>
    requires run { IsRisen (A.algebra automaton.now) (rules_of grammar.now.rules) risen.now }
    requires stands { (values : List (List ℕ)) × (t : Tree) × StandsFor (rules_of grammar.now.rules) names.old values t × (node_count t < 2 ^ 63) }
    requires name { IsName name.now }
    ensures symbols { IfOk result (λ symbols. AllZip (IsRenamedSymbol names.new name.now) names.new symbols.items) }
    ensures allowed { IfOk result (λ symbols. (values : List (List ℕ)) (t : Tree) → StandsFor (rules_of grammar.now.rules) names.old values t → MayRename (hits (A.algebra automaton.now) (A.downward automaton.now) (value (rules_of grammar.now.rules))) name.now t) }
    ensures names { OnOk result ((values : List (List ℕ)) (t : Tree) → StandsFor (rules_of grammar.now.rules) names.old values t → Interns names.old (renamed_pairs (hits (A.algebra automaton.now) (A.downward automaton.now) (value (rules_of grammar.now.rules))) name.now t) names.new) }
    ensures refused { IfErr result (λ error. (values : List (List ℕ)) (t : Tree) → StandsFor (rules_of grammar.now.rules) names.old values t → IsRefusedFor error (hits (A.algebra automaton.now) (A.downward automaton.now) (value (rules_of grammar.now.rules))) name.now names.old names.new t) }
    ensures reads { steps.new ≤ steps.old + 5 * (2 * sum_by (λ k. length (body_at (rules_of grammar.now.rules) k.0)) (keys risen.now.known)) }
    ensures counted { steps.old ≤ steps.new }
{
    let signs = refusing_signs(alloc, names, name)?;
    let refusing = Refusing { automaton, signs };
    let free = hits_nothing(alloc, grammar, &refusing, risen, steps)?;
    if !free {
        return Err(BulkError::NotAllowed);
    }
    grow_names(alloc, grammar, names, automaton, risen, name, steps)?;
    let symbols = new_symbols(alloc, names, name)?;
    Ok(symbols)
}
