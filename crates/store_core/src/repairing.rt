// Settling the grammar that is held.
ghost use Rattle.std.specs.Prelude.{◌≡◌, ◌≤◌, ◌<◌, ◌+◌, ◌-◌, ◌^◌, ℕ, length, max, min, Option, Some, IfOk, OnOk, OnErr};
ghost use Rattle.tree_outside.specs.Files.{Told};
ghost use Rattle.plain_tree.specs.Tree.{Tree};
ghost use Rattle.slt_grammar.specs.Digrams.{IsSettled};
ghost use Rattle.slt_grammar.specs.Grammars.{IsGrammar, IsSwept, size, value};
ghost use Rattle.slt_grammar.specs.Keyed.{rules_of};
ghost use Rattle.slt_grammar.specs.Ranks.{greatest_rank};
ghost use Rattle.digram_index.specs.Linked.{IsIndexOf};
ghost use Rattle.tree_updates.specs.Stores.{HasMarks, IsStoreFor};
ghost use Rattle.store_core.specs.Machine.{Repairs};
ghost use Rattle.store_core.specs.Repairing.{SettlesTo};
ghost use Rattle.store_core.specs.StoreOf.{IsCounted, held_of, parts_of};
ghost use Rattle.store_core.specs.Texts.{answer_line};
ghost use Rattle.store_core.specs.Worlds.{AreLawfulParts, unedited, with_rules, world};

use crate::answer::Answer;
use crate::loaded::Loaded;
use crate::refreshing::refresh;
use digram_index::{Index, build};
use local_repair::{settle, settle_edited};
use slt_grammar::Grammar;
use start_marks::{keep_marked, mark_nodes};
use std::alloc::{AllocError, Global};
use tree_updates::Store;

/// Settles the grammar of a document for this rank, at most 8. It is refused only for want of memory, and what is held then stays.
pub(crate) fn repair_document(
    alloc: Global,
    loaded: &mut Loaded,
    rank: usize,
) -> Result<Answer, AllocError>
    requires rank { rank ≤ 8 }
    requires held { AreLawfulParts (parts_of loaded.old.store) }
    requires counted { IsCounted loaded.old.store }
    requires few { loaded.old.edits < 2 ^ 64 }
    ensures held { AreLawfulParts (parts_of loaded.new.store) }
    ensures counted { IsCounted loaded.new.store }
    ensures few { loaded.new.edits < 2 ^ 64 }
    ensures repairs { IfOk result (λ answer. (told : Option Told) (count : ℕ)
        → Repairs rank (world (Some (held_of loaded.old)) told count) (answer_line answer) (world (Some (held_of loaded.new)) told count)) }
    ensures refused { OnErr result (held_of loaded.new ≡ held_of loaded.old) }
{
    // A copy is settled, so that want of memory halfway changes nothing.
    let settled = settled_copy(alloc, &loaded.store.grammar, rank)?;
    let (rules, size) = hold(loaded, settled)?;
    Ok(Answer::Repaired { rules, size })
}

// Puts a grammar in the place of the one that is held, and answers how many rules and nodes it has. It is refused only for want of memory, and
// what is held then stays.
pub(crate) fn hold(loaded: &mut Loaded, settled: Settled) -> Result<(usize, u64), AllocError>
    requires held { AreLawfulParts (parts_of loaded.old.store) }
    requires counted { IsCounted loaded.old.store }
    requires few { loaded.old.edits < 2 ^ 64 }
    requires same { value (rules_of settled.grammar.rules) ≡ value (rules_of loaded.old.store.grammar.rules) }
    requires swept { IsSwept (rules_of settled.grammar.rules) }
    requires index { IsIndexOf settled.grammar settled.index }
    ensures held { AreLawfulParts (parts_of loaded.new.store) }
    ensures counted { IsCounted loaded.new.store }
    ensures few { loaded.new.edits < 2 ^ 64 }
    ensures replaced { OnOk result (held_of loaded.new ≡ unedited (with_rules (parts_of loaded.old.store) (rules_of settled.grammar.rules))) }
    ensures told { IfOk result (λ told. (told.0 ≡ length (rules_of settled.grammar.rules)) × (told.1 ≡ size (rules_of settled.grammar.rules))) }
    ensures refused { OnErr result (held_of loaded.new ≡ held_of loaded.old) }
{
    let rules = settled.grammar.rules();
    let size = settled.grammar.size();
    take_over(&mut loaded.store, settled)?;
    loaded.edits = 0;
    Ok((rules, size))
}

// Puts a grammar that stands for the same in the place of a store's. It is refused only for want of memory, and what the store holds then stays.
pub(crate) fn take_over(store: &mut Store, settled: Settled) -> Result<(), AllocError>
    requires counted { IsCounted store.old }
    requires same { value (rules_of settled.grammar.rules) ≡ value (rules_of store.old.grammar.rules) }
    requires swept { IsSwept (rules_of settled.grammar.rules) }
    requires index { IsIndexOf settled.grammar settled.index }
    ensures counted { IsCounted store.new }
    ensures grammar { IsGrammar (rules_of store.new.grammar.rules) }
    ensures replaced { OnOk result (parts_of store.new ≡ with_rules (parts_of store.old) (rules_of settled.grammar.rules)) }
    ensures refused { OnErr result (parts_of store.new ≡ parts_of store.old) }
{
    let Settled { grammar, index } = settled;
    // The call tells what is true of every grammar.
    let _before = store.grammar.rules();
    store.counts.reserve(grammar.rules())?;
    store.counts.update(&grammar, &store.names);
    store.grammar = grammar;
    store.index = index;
    store.marks.clear();
    Ok(())
}

/// Settles the grammar of a store where it stands, for this rank, at most 8, and a copy of it deeply where it is worn. Where there is no memory for that, the store is one for the same
/// document all the same, under a grammar that isn't larger.
pub(crate) fn settle_store(alloc: Global, store: &mut Store, rank: usize) -> Result<(), AllocError>
    requires rank { rank ≤ 8 }
    requires store { (t : Tree) × IsStoreFor store.old t }
    requires marks { HasMarks store.old }
    ensures settled { OnOk result (IsSettled (rules_of store.new.grammar.rules) rank) }
    ensures store { (t : Tree) → IsStoreFor store.old t → IsStoreFor store.new t }
    ensures grammar { IsGrammar (rules_of store.new.grammar.rules) }
    ensures names { store.new.names ≡ store.old.names }
    ensures size { size (rules_of store.new.grammar.rules) ≤ size (rules_of store.old.grammar.rules) }
    ensures ranks { greatest_rank (rules_of store.new.grammar.rules) ≤ max rank (greatest_rank (rules_of store.old.grammar.rules)) }
    ensures marks { HasMarks store.new }
{
    settle_in_place(alloc, store, rank)?;
    refresh(alloc, store, rank);
    Ok(())
}

// Settles the grammar of a store where it stands, for this rank. Where there is no memory for that, the store is one for the same document all
// the same, under a grammar that isn't larger.
fn settle_in_place(alloc: Global, store: &mut Store, rank: usize) -> Result<(), AllocError>
    requires rank { rank ≤ 8 }
    requires store { (t : Tree) × IsStoreFor store.old t }
    requires marks { HasMarks store.old }
    ensures settled { OnOk result (IsSettled (rules_of store.new.grammar.rules) rank) }
    ensures store { (t : Tree) → IsStoreFor store.old t → IsStoreFor store.new t }
    ensures grammar { IsGrammar (rules_of store.new.grammar.rules) }
    ensures names { store.new.names ≡ store.old.names }
    ensures size { size (rules_of store.new.grammar.rules) ≤ size (rules_of store.old.grammar.rules) }
    ensures ranks { greatest_rank (rules_of store.new.grammar.rules) ≤ max rank (greatest_rank (rules_of store.old.grammar.rules)) }
    ensures marks { HasMarks store.new }
{
    // The calls tell what is true of every grammar.
    let _before = store.grammar.rules();
    let numbers = store.index.numbers().to_vec(alloc)?;
    let most = most_rules(&store.grammar).saturating_add(numbers.len());
    store.counts.reserve(most)?;
    mark_nodes(&store.marks, &mut store.index);
    let settled = settle_edited(alloc, &mut store.grammar, &mut store.index, rank);
    keep_marked(&mut store.marks, &store.index);
    let _behind = store.grammar.rules();
    store.counts.follow(
        &store.grammar,
        &store.names,
        numbers.as_slice(),
        store.index.numbers(),
    );
    settled
}

// How many rules a settled grammar may have at most, as far as a number goes: settling leaves no more rules and nodes together.
fn most_rules(grammar: &Grammar) -> usize
    ensures { result ≡ min (size (rules_of grammar.now.rules) + length grammar.now.rules) (2 ^ 64 - 1) }
{
    (grammar.size() as usize).saturating_add(grammar.rules())
}

// A settled grammar with its index.
#[derive(Drop)]
pub(crate) struct Settled {
    pub(crate) grammar: Grammar,
    pub(crate) index: Index,
}

// A copy of the grammar, settled for this rank.
pub(crate) fn settled_copy(
    alloc: Global,
    grammar: &Grammar,
    rank: usize,
) -> Result<Settled, AllocError>
    requires { rank ≤ 8 }
    ensures settles { IfOk result (λ s. SettlesTo rank (rules_of grammar.now.rules) (rules_of s.grammar.rules)) }
    ensures ranks { IfOk result (λ s. greatest_rank (rules_of s.grammar.rules) ≤ max rank (greatest_rank (rules_of grammar.now.rules))) }
    ensures index { IfOk result (λ s. IsIndexOf s.grammar s.index) }
{
    settle_whole(alloc, grammar.copy()?, rank)
}

// A grammar, settled for this rank.
pub(crate) fn settle_whole(
    alloc: Global,
    mut grammar: Grammar,
    rank: usize,
) -> Result<Settled, AllocError>
    requires { rank ≤ 8 }
    ensures settles { IfOk result (λ s. SettlesTo rank (rules_of grammar.rules) (rules_of s.grammar.rules)) }
    ensures ranks { IfOk result (λ s. greatest_rank (rules_of s.grammar.rules) ≤ max rank (greatest_rank (rules_of grammar.rules))) }
    ensures index { IfOk result (λ s. IsIndexOf s.grammar s.index) }
{
    settle(alloc, &mut grammar, rank)?;
    let index = build(alloc, &grammar)?;
    Ok(Settled { grammar, index })
}
