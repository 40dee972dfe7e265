// Edits of a store, and of all nodes that an automaton hits, as tree_updates and bulk_rewrite promise them.
ghost use Rattle.std.specs.Prelude.{◌≤◌, ◌+◌, ◌-◌, ◌*◌, ℕ, List, length, ◌≡◌, ◌<◌, ◌^◌, IfOk, IfErr};
ghost use Rattle.plain_tree.specs.Allowed.{AreLawfulParts};
ghost use Rattle.plain_tree.specs.Lawful.{IsName};
ghost use Rattle.plain_tree.specs.Tree.{Tree, node_count};
ghost use Rattle.plain_tree.specs.declared.kind.Kind.{Kind};
ghost use Rattle.slt_grammar.specs.Automata.{hits};
ghost use Rattle.slt_grammar.specs.Grammars.{size, value, IsSwept};
ghost use Rattle.slt_grammar.specs.Keyed.{rules_of};
ghost use Rattle.slt_grammar.specs.RuleValues.{HaveOtherValues};
ghost use Rattle.slt_grammar.specs.Standing.{StandsFor};
ghost use Rattle.digram_index.specs.Linked.{IsIndexOf};
ghost use Rattle.preorder_address.specs.Numberings.{AreCountsOf};
ghost use Rattle.preorder_address.specs.Spots.{IsSpot};
ghost use Rattle.path_isolation.specs.Isolations.{room_along};
ghost use Rattle.tree_updates.specs.Numbered.{GetsSymbol};
ghost use Rattle.tree_updates.specs.Stores.{Applies, HasMarks, IsStoreFor};
ghost use Rattle.bulk_rewrite.specs.DeletedAll.{AreDeleted, IsNotDeletedFor, deleting_run};
ghost use Rattle.bulk_rewrite.specs.Making.{AreFew};
ghost use Rattle.bulk_rewrite.specs.RenamedAll.{AreRenamed, IsRefusedFor};

use bulk_rewrite::{BulkError, Rewritten, delete_all, rename_all};
use digram_index::Index;
use plain_tree::{Edit, Names};
use preorder_address::Spot;
use read_steps::Steps;
use segment_counts::Counts;
use slt_grammar::{Falling, Grammar};
use std::alloc::Global;
use std::sync::ledger::Ledger;
use text_list::TextList;
use tree_updates::{EditError, Store, apply, relabel_node, sweep_uncalled};

/// One node of the value gets another symbol, and no other one.
pub fn relabel_node_told<L: Ledger>(
    grammar: &mut Grammar,
    index: &mut Index,
    spot: &Spot,
    symbol: usize,
    steps: &mut Steps<L>,
)
    requires spot { (names : List (Kind × List ℕ)) × (number : ℕ) × IsSpot names grammar.old.rules number spot.now }
    requires index { IsIndexOf grammar.old index.old }
    requires room { room_along grammar.old.rules spot.now.levels.items ≤ grammar.old.spare_nodes }
    requires links { room_along grammar.old.rules spot.now.levels.items + 3 ≤ index.old.spare_links }
    requires cells { grammar.old.limit ≤ length index.old.cells }
    ensures value { (names : List (Kind × List ℕ)) (number : ℕ) → IsSpot names grammar.old.rules number spot.now
        → GetsSymbol (rules_of grammar.old.rules) (rules_of grammar.new.rules) number symbol }
    ensures values { HaveOtherValues (length (rules_of grammar.old.rules) - 1) (rules_of grammar.old.rules) (rules_of grammar.new.rules) }
    ensures size { size (rules_of grammar.new.rules) ≤ 2 * size (rules_of grammar.old.rules) }
    ensures index { IsIndexOf grammar.new index.new }
{
    relabel_node(grammar, index, spot, symbol, steps)
}

/// A store for a document becomes one for the edited document where the edit is allowed, and else is refused for its cause.
pub fn apply_told<L: Ledger>(
    alloc: Global,
    store: &mut Store,
    edit: &Edit,
    steps: &mut Steps<L>,
) -> Result<(), EditError>
    requires store { (t : Tree) × IsStoreFor store.old t }
    requires marks { HasMarks store.old }
    requires parts { AreLawfulParts edit.now }
    ensures applies { (t : Tree) → IsStoreFor store.old t → Applies t edit.now store.old result store.new }
    ensures marks { HasMarks store.new }
{
    apply(alloc, store, edit, steps)?;
    Ok(())
}

/// Rules that are never called go, from the grammar, the index and the counts.
pub fn sweep_uncalled_told(grammar: &mut Grammar, index: &mut Index, counts: &mut Counts)
    requires index { IsIndexOf grammar.old index.old }
    requires counts { AreCountsOf (rules_of grammar.old.rules) counts.old }
    ensures swept { IsSwept (rules_of grammar.new.rules) }
    ensures value { value (rules_of grammar.new.rules) ≡ value (rules_of grammar.old.rules) }
    ensures size { size (rules_of grammar.new.rules) ≤ size (rules_of grammar.old.rules) }
    ensures index { IsIndexOf grammar.new index.new }
{
    sweep_uncalled(grammar, index, counts)
}

/// All nodes that an automaton hits get this name where they may, and else none does.
pub fn rename_all_told<A: Falling, L: Ledger>(
    alloc: Global,
    grammar: &Grammar,
    names: &mut Names,
    automaton: &A,
    name: &[u8],
    steps: &mut Steps<L>,
) -> Result<Grammar, BulkError>
    requires stands { (values : List (List ℕ)) × (t : Tree) × StandsFor (rules_of grammar.now.rules) names.old values t × (node_count t < 2 ^ 63) }
    requires name { IsName name.now }
    ensures renamed { IfOk result (λ new. (values : List (List ℕ)) (t : Tree) → StandsFor (rules_of grammar.now.rules) names.old values t → AreRenamed (hits (A.algebra automaton.now) (A.downward automaton.now) (value (rules_of grammar.now.rules))) name.now names.old names.new (rules_of new.rules) values t) }
    ensures few { IfOk result (λ new. AreFew (A.algebra automaton.now) (A.downward automaton.now) (rules_of grammar.now.rules) (rules_of new.rules)) }
    ensures swept { IfOk result (λ new. IsSwept (rules_of new.rules)) }
    ensures refused { IfErr result (λ error. (values : List (List ℕ)) (t : Tree) → StandsFor (rules_of grammar.now.rules) names.old values t → IsRefusedFor error (hits (A.algebra automaton.now) (A.downward automaton.now) (value (rules_of grammar.now.rules))) name.now names.old names.new t) }
{
    let renamed = rename_all(alloc, grammar, names, automaton, name, steps)?;
    Ok(renamed)
}

/// All nodes that an automaton hits are deleted where they may be, with all below them, and else none is.
pub fn delete_all_told<A: Falling, L: Ledger>(
    alloc: Global,
    grammar: &Grammar,
    names: &Names,
    texts: &TextList,
    automaton: &A,
    steps: &mut Steps<L>,
) -> Result<Rewritten, BulkError>
    requires stands { (t : Tree) × StandsFor (rules_of grammar.now.rules) names.now texts.now.texts t × (node_count t < 2 ^ 63) }
    ensures deleted { IfOk result (λ new. (t : Tree) → StandsFor (rules_of grammar.now.rules) names.now texts.now.texts t → AreDeleted (hits (A.algebra automaton.now) (A.downward automaton.now) (value (rules_of grammar.now.rules))) names.now (rules_of new.grammar.rules) new.texts.texts t) }
    ensures few { IfOk result (λ new. AreFew (A.algebra automaton.now) (deleting_run (A.downward automaton.now) names.now) (rules_of grammar.now.rules) (rules_of new.grammar.rules)) }
    ensures swept { IfOk result (λ new. IsSwept (rules_of new.grammar.rules)) }
    ensures refused { IfErr result (λ error. (t : Tree) → StandsFor (rules_of grammar.now.rules) names.now texts.now.texts t → IsNotDeletedFor error (hits (A.algebra automaton.now) (A.downward automaton.now) (value (rules_of grammar.now.rules))) t) }
{
    let left = delete_all(alloc, grammar, names, texts, automaton, steps)?;
    Ok(left)
}
