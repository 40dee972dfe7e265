// Grammars that edits have worn.
ghost use Rattle.std.specs.Prelude.{◌≡◌, ◌≤◌, max, IfOk};
ghost use Rattle.plain_tree.specs.Tree.{Tree};
ghost use Rattle.slt_grammar.specs.Digrams.{IsSettled};
ghost use Rattle.slt_grammar.specs.Grammars.{IsGrammar, IsSwept, size};
ghost use Rattle.slt_grammar.specs.Keyed.{rules_of};
ghost use Rattle.slt_grammar.specs.Ranks.{greatest_rank};
ghost use Rattle.digram_index.specs.Linked.{IsIndexOf};
ghost use Rattle.tree_updates.specs.Stores.{HasMarks, IsStoreFor};
ghost use Rattle.store_core.specs.Repairing.{SettlesTo};

use crate::repairing::{Settled, take_over};
use digram_index::build;
use local_repair::settle_deeply;
use slt_grammar::Grammar;
use std::alloc::{AllocError, Global};
use tree_updates::Store;

/// Settles a copy of a store's grammar deeply, once as many rules came and went as a twentieth of its nodes, and at least 50. The copy is
/// held where it has fewer nodes; else only the index is made anew, which keeps what it knew of the rules that went. Where there is no
/// memory for that, all stays.
pub(crate) fn refresh(alloc: Global, store: &mut Store, rank: usize)
    requires rank { rank ≤ 8 }
    requires store { (t : Tree) × IsStoreFor store.old t }
    requires settled { IsSettled (rules_of store.old.grammar.rules) rank }
    requires marks { HasMarks store.old }
    ensures settled { IsSettled (rules_of store.new.grammar.rules) rank }
    ensures store { (t : Tree) → IsStoreFor store.old t → IsStoreFor store.new t }
    ensures grammar { IsGrammar (rules_of store.new.grammar.rules) }
    ensures names { store.new.names ≡ store.old.names }
    ensures size { size (rules_of store.new.grammar.rules) ≤ size (rules_of store.old.grammar.rules) }
    ensures ranks { greatest_rank (rules_of store.new.grammar.rules) ≤ max rank (greatest_rank (rules_of store.old.grammar.rules)) }
    ensures marks { HasMarks store.new }
{
    // The call tells what is true of every grammar.
    let _rules = store.grammar.rules();
    if !store.index.is_worn(rules_worn(&store.grammar)) {
        return;
    }
    let Ok(settled) = settled_anew(alloc, &store.grammar, rank) else {
        return;
    };
    // Where there is no memory for its counts, the old one stays.
    let _ = take_over(store, settled);
}

// How many rules may come and go until a grammar is worn.
fn rules_worn(grammar: &Grammar) -> usize {
    ((grammar.size() / 20) as usize).max(50)
}

// A copy of a settled grammar, settled deeply for this rank or, where that leaves no fewer nodes, as it is, with an index that is made
// anew.
fn settled_anew(alloc: Global, grammar: &Grammar, rank: usize) -> Result<Settled, AllocError>
    requires rank { rank ≤ 8 }
    requires settled { IsSettled (rules_of grammar.now.rules) rank }
    requires swept { IsSwept (rules_of grammar.now.rules) }
    ensures settles { IfOk result (λ s. SettlesTo rank (rules_of grammar.now.rules) (rules_of s.grammar.rules)) }
    ensures swept { IfOk result (λ s. IsSwept (rules_of s.grammar.rules)) }
    ensures ranks { IfOk result (λ s. greatest_rank (rules_of s.grammar.rules) ≤ max rank (greatest_rank (rules_of grammar.now.rules))) }
    ensures index { IfOk result (λ s. IsIndexOf s.grammar s.index) }
{
    let grammar = smaller_copy(alloc, grammar, rank)?;
    let index = build(alloc, &grammar)?;
    Ok(Settled { grammar, index })
}

// A copy of a settled grammar, settled deeply for this rank or, where that leaves no fewer nodes, as it is.
fn smaller_copy(alloc: Global, grammar: &Grammar, rank: usize) -> Result<Grammar, AllocError>
    requires rank { rank ≤ 8 }
    requires settled { IsSettled (rules_of grammar.now.rules) rank }
    requires swept { IsSwept (rules_of grammar.now.rules) }
    ensures settles { IfOk result (λ copy. SettlesTo rank (rules_of grammar.now.rules) (rules_of copy.rules)) }
    ensures swept { IfOk result (λ copy. IsSwept (rules_of copy.rules)) }
    ensures ranks { IfOk result (λ copy. greatest_rank (rules_of copy.rules) ≤ max rank (greatest_rank (rules_of grammar.now.rules))) }
{
    let mut deep = grammar.copy()?;
    settle_deeply(alloc, &mut deep, rank)?;
    if deep.size() < grammar.size() {
        // A copy is compact, which what was settled isn't.
        let compact = deep.copy()?;
        return Ok(compact);
    }
    let same = grammar.copy()?;
    Ok(same)
}
