// The names that nodes get which are hit come to the table.
ghost use Rattle.std.specs.Prelude.{◌≡◌, ◌<◌, ◌≤◌, ◌+◌, ◌*◌, ◌^◌, ◌++◌, ◌∷◌, ℕ, [], true, IfOk, IfSome, IfNone, OnOk, OnErr, length, sum_by, take};
ghost use Rattle.plain_tree.specs.Tree.{Tree, none, more};
ghost use Rattle.fcns_encoding.specs.Interning.{Interns};
ghost use Rattle.slt_grammar.specs.Automata.{hits, nodes_in};
ghost use Rattle.slt_grammar.specs.Coding.{Codes};
ghost use Rattle.slt_grammar.specs.Grammars.{body_at, value};
ghost use Rattle.slt_grammar.specs.Keyed.{rules_of};
ghost use Rattle.rule_runs.specs.Notes.{IsRisen};
ghost use Rattle.rule_runs.specs.Risen.{keys};
ghost use Rattle.bulk_rewrite.specs.NewNames.{AreIn, FirstLacks};
ghost use Rattle.bulk_rewrite.specs.RenamedAll.{MayRename, renamed_pairs};

use crate::hit_runs::first_hit;
use crate::refusing::Refusing;
use crate::signs::known_signs;
use plain_tree::{Kind, Names};
use read_steps::Steps;
use rule_runs::RiseTable;
use slt_grammar::{Falling, Grammar};
use std::alloc::{AllocError, Global};
use std::sync::ledger::Ledger;

// A kind that doesn't have the name in the table, and whether it is seen to be the only one among the nodes that are hit.
#[derive(Clone, Copy, Drop)]
struct Lacking {
    kind: Kind,
    only: bool,
}

// The kinds of the nodes that are hit come to the table with the name, in document order. Each run downward finds the next of them, and there
// are few kinds: three of those that may be renamed, so that there are at most four runs.
pub(crate) fn grow_names<A: Falling, L: Ledger>(
    alloc: Global,
    grammar: &Grammar,
    names: &mut Names,
    automaton: &A,
    risen: &RiseTable<A::State>,
    name: &[u8],
    steps: &mut Steps<L>,
) -> Result<(), AllocError>
    requires run { IsRisen (A.algebra automaton.now) (rules_of grammar.now.rules) risen.now }
    requires small { nodes_in (value (rules_of grammar.now.rules)) < 2 ^ 63 }
    requires coded { (t : Tree) × Codes names.old (more t none) (value (rules_of grammar.now.rules)) }
    ensures grown { OnOk result ((t : Tree) → Codes names.old (more t none) (value (rules_of grammar.now.rules)) → Interns names.old (renamed_pairs (hits (A.algebra automaton.now) (A.downward automaton.now) (value (rules_of grammar.now.rules))) name.now t) names.new) }
    ensures some { OnErr result ((t : Tree) → Codes names.old (more t none) (value (rules_of grammar.now.rules)) → (k : ℕ) × Interns names.old (take k (renamed_pairs (hits (A.algebra automaton.now) (A.downward automaton.now) (value (rules_of grammar.now.rules))) name.now t)) names.new) }
    ensures reads { (t : Tree) → Codes names.old (more t none) (value (rules_of grammar.now.rules)) → MayRename (hits (A.algebra automaton.now) (A.downward automaton.now) (value (rules_of grammar.now.rules))) name.now t → steps.new ≤ steps.old + 4 * (2 * sum_by (λ k. length (body_at (rules_of grammar.now.rules) k.0)) (keys risen.now.known)) }
    ensures counted { steps.old ≤ steps.new }
{
    'kinds: while let Some(lacking) = first_lacking(
        alloc, grammar, names, automaton, risen, name, steps,
    )? {
        names.intern(alloc, lacking.kind, name)?;
        if lacking.only {
            return Ok(());
        }
    }
    Ok(())
}

// The kind of the first node that is hit whose kind doesn't have the name in the table.
fn first_lacking<A: Falling, L: Ledger>(
    alloc: Global,
    grammar: &Grammar,
    names: &Names,
    automaton: &A,
    risen: &RiseTable<A::State>,
    name: &[u8],
    steps: &mut Steps<L>,
) -> Result<Option<Lacking>, AllocError>
    requires run { IsRisen (A.algebra automaton.now) (rules_of grammar.now.rules) risen.now }
    requires small { nodes_in (value (rules_of grammar.now.rules)) < 2 ^ 63 }
    requires coded { (t : Tree) × Codes names.now (more t none) (value (rules_of grammar.now.rules)) }
    ensures first { IfOk result (λ found. IfSome found (λ lacking. (t : Tree) → Codes names.now (more t none) (value (rules_of grammar.now.rules)) → FirstLacks names.now (renamed_pairs (hits (A.algebra automaton.now) (A.downward automaton.now) (value (rules_of grammar.now.rules))) name.now t) (lacking.kind, name.now))) }
    ensures only { IfOk result (λ found. IfSome found (λ lacking. lacking.only ≡ true → (t : Tree) → Codes names.now (more t none) (value (rules_of grammar.now.rules)) → AreIn (names.now ++ (lacking.kind, name.now) ∷ []) (renamed_pairs (hits (A.algebra automaton.now) (A.downward automaton.now) (value (rules_of grammar.now.rules))) name.now t))) }
    ensures none { IfOk result (λ found. IfNone found ((t : Tree) → Codes names.now (more t none) (value (rules_of grammar.now.rules)) → AreIn names.now (renamed_pairs (hits (A.algebra automaton.now) (A.downward automaton.now) (value (rules_of grammar.now.rules))) name.now t))) }
    ensures reads { steps.new ≤ steps.old + 2 * sum_by (λ k. length (body_at (rules_of grammar.now.rules) k.0)) (keys risen.now.known) }
    ensures counted { steps.old ≤ steps.new }
{
    let signs = known_signs(alloc, names, name)?;
    let lacking = Refusing { automaton, signs };
    let Some(hit) = first_hit(alloc, grammar, &lacking, risen, steps)? else {
        return Ok(None);
    };
    match names.at(hit.symbol) {
        Some((kind, _)) => Ok(Some(Lacking {
            kind,
            only: hit.only,
        })),
        None => unreachable!(),
    }
}
