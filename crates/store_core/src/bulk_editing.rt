// Edits of all nodes that a query selects.
ghost use Rattle.std.specs.Prelude.{◌≡◌, ◌≤◌, ◌<◌, ◌+◌, ◌*◌, ◌^◌, ℕ, List, [], sum_by, Option, Some, IfErr, OnErr, OnOk};
ghost use Rattle.tree_outside.specs.Files.{Told};
ghost use Rattle.plain_tree.specs.Lawful.{IsName};
ghost use Rattle.plain_tree.specs.Tree.{Tree};
ghost use Rattle.slt_grammar.specs.Grammars.{IsSwept, value};
ghost use Rattle.slt_grammar.specs.Keyed.{rules_of};
ghost use Rattle.slt_grammar.specs.Segments.{listed};
ghost use Rattle.digram_index.specs.Linked.{IsIndexOf};
ghost use Rattle.segment_counts.specs.Counting.{AreCounts};
ghost use Rattle.segment_counts.specs.Weights.{node_weight};
ghost use Rattle.selecting_automaton.specs.Bounds.{HasFewStates};
ghost use Rattle.selecting_automaton.specs.Words.{word_algebra, word_downward};
ghost use Rattle.tree_updates.specs.Stores.{HasMarks, IsStoreFor};
ghost use Rattle.store_core.specs.Acts.{DeleteAll, RenameAll, query_edited};
ghost use Rattle.store_core.specs.BulkEditing.{Deletion, IsBulkEdit, Renaming};
ghost use Rattle.store_core.specs.BulkStores.{AppliesToAll};
ghost use Rattle.store_core.specs.CommandOf.{act_of};
ghost use Rattle.store_core.specs.Machine.{Comes};
ghost use Rattle.store_core.specs.Reads.{EditsFew, most_reads};
ghost use Rattle.store_core.specs.StoreOf.{IsCounted, held_of, parts_of};
ghost use Rattle.store_core.specs.Worlds.{AreLawfulParts, world};

use crate::answer::{Answer, Refusal};
use crate::command::Command;
use crate::editing::settle_where_due;
use crate::loaded::{Loaded, Tables};
use crate::loading::tables_of;
use crate::selecting::plain_selector_of;
use bulk_rewrite::{BulkError, Rewritten, delete_all, rename_all};
use read_steps::Steps;
use selecting_automaton::Selector;
use slt_grammar::Grammar;
use std::alloc::{AllocError, Global};
use std::sync::ledger::Ledger;
use store_words::Settings;
use tree_updates::Store;
use xml_nodes::is_name;
use xpath_parser::spells_one;

/// Makes the edit that a command asks for of all nodes that its query selects, and settles the grammar where that is due, for a rank of at
/// most 8.
pub(crate) fn edit_selected<L: Ledger>(
    alloc: Global,
    loaded: &mut Loaded,
    command: Command<'_>,
    settings: Settings,
    steps: &mut Steps<L>,
) -> Result<Answer, Refusal>
    requires rank { settings.rank ≤ 8 }
    requires edit { IsBulkEdit (act_of command) }
    requires held { AreLawfulParts (parts_of loaded.old.store) }
    requires counted { IsCounted loaded.old.store }
    requires few { loaded.old.edits < 2 ^ 64 }
    ensures held { AreLawfulParts (parts_of loaded.new.store) }
    ensures counted { IsCounted loaded.new.store }
    ensures few { loaded.new.edits < 2 ^ 64 }
    ensures comes { (told : Option Told) (count : ℕ)
        → Comes settings (act_of command.entry) (world (Some (held_of loaded.old)) told count) [] result (world (Some (held_of loaded.new)) told count) }
    ensures reads { (query : List ℕ) → query_edited (act_of command.entry) ≡ Some query → EditsFew query (parts_of loaded.old.store) steps.old steps.new }
{
    match command {
        Command::RenameAll { name, query } => {
            rename_selected(alloc, loaded, name, query, settings, steps)
        }
        Command::DeleteAll { query } => delete_selected(alloc, loaded, query, settings, steps),
        _ => unreachable!(),
    }
}

fn rename_selected<L: Ledger>(
    alloc: Global,
    loaded: &mut Loaded,
    name: &[u8],
    query: &[u8],
    settings: Settings,
    steps: &mut Steps<L>,
) -> Result<Answer, Refusal>
    requires rank { settings.rank ≤ 8 }
    requires held { AreLawfulParts (parts_of loaded.old.store) }
    requires counted { IsCounted loaded.old.store }
    requires few { loaded.old.edits < 2 ^ 64 }
    ensures held { AreLawfulParts (parts_of loaded.new.store) }
    ensures counted { IsCounted loaded.new.store }
    ensures few { loaded.new.edits < 2 ^ 64 }
    ensures comes { (told : Option Told) (count : ℕ)
        → Comes settings (RenameAll name.now query.now) (world (Some (held_of loaded.old)) told count) [] result (world (Some (held_of loaded.new)) told count) }
    ensures reads { EditsFew query.now (parts_of loaded.old.store) steps.old steps.new }
{
    // The call tells that the text spells one query alone.
    spells_one();
    let selector = plain_selector_of(alloc, query, &loaded.store.names)?;
    check_name(name)?;
    rename_hits(alloc, &mut loaded.store, &selector, name, steps)?;
    Ok(settle_where_due(alloc, loaded, settings))
}

fn delete_selected<L: Ledger>(
    alloc: Global,
    loaded: &mut Loaded,
    query: &[u8],
    settings: Settings,
    steps: &mut Steps<L>,
) -> Result<Answer, Refusal>
    requires rank { settings.rank ≤ 8 }
    requires held { AreLawfulParts (parts_of loaded.old.store) }
    requires counted { IsCounted loaded.old.store }
    requires few { loaded.old.edits < 2 ^ 64 }
    ensures held { AreLawfulParts (parts_of loaded.new.store) }
    ensures counted { IsCounted loaded.new.store }
    ensures few { loaded.new.edits < 2 ^ 64 }
    ensures comes { (told : Option Told) (count : ℕ)
        → Comes settings (DeleteAll query.now) (world (Some (held_of loaded.old)) told count) [] result (world (Some (held_of loaded.new)) told count) }
    ensures reads { EditsFew query.now (parts_of loaded.old.store) steps.old steps.new }
{
    // The call tells that the text spells one query alone.
    spells_one();
    let selector = plain_selector_of(alloc, query, &loaded.store.names)?;
    delete_hits(alloc, &mut loaded.store, &selector, steps)?;
    Ok(settle_where_due(alloc, loaded, settings))
}

// Refuses what is no Name.
fn check_name(name: &[u8]) -> Result<(), Refusal>
    ensures name { OnOk result (IsName name.now) }
    ensures refused { IfErr result (λ refusal. (refusal ≡ Refusal.BadName) × (IsName name.now → ⊥)) }
{
    if is_name(name) {
        Ok(())
    } else {
        Err(Refusal::BadName)
    }
}

// Gives the name to all nodes that the selector hits. Where it is refused, the document and its rules stay; where memory was wanting, names may
// have come.
fn rename_hits<L: Ledger>(
    alloc: Global,
    store: &mut Store,
    selector: &Selector,
    name: &[u8],
    steps: &mut Steps<L>,
) -> Result<(), BulkError>
    requires store { (t : Tree) × IsStoreFor store.old t }
    requires name { IsName name.now }
    ensures applies { (t : Tree) → IsStoreFor store.old t → AppliesToAll (Renaming name.now) selector.now t store.old result store.new }
    ensures marks { HasMarks store.new }
    ensures reads { (parts steps_outside : ℕ) → HasFewStates (word_algebra selector.now) (word_downward selector.now) parts steps_outside
        → steps.new ≤ steps.old + 2 * most_reads (rules_of store.old.grammar.rules) parts steps_outside }
{
    // The call tells what is true of every grammar.
    let _rules = store.grammar.rules();
    store.marks.clear();
    let grammar = rename_all(
        alloc,
        &store.grammar,
        &mut store.names,
        selector,
        name,
        steps,
    )?;
    put_rules(alloc, store, grammar)?;
    Ok(())
}

// Deletes all nodes that the selector hits, with all below them. Where it is refused, all stays.
fn delete_hits<L: Ledger>(
    alloc: Global,
    store: &mut Store,
    selector: &Selector,
    steps: &mut Steps<L>,
) -> Result<(), BulkError>
    requires store { (t : Tree) × IsStoreFor store.old t }
    ensures applies { (t : Tree) → IsStoreFor store.old t → AppliesToAll Deletion selector.now t store.old result store.new }
    ensures marks { HasMarks store.new }
    ensures reads { (parts steps_outside : ℕ) → HasFewStates (word_algebra selector.now) (word_downward selector.now) parts steps_outside
        → steps.new ≤ steps.old + 2 * most_reads (rules_of store.old.grammar.rules) parts steps_outside }
{
    // The call tells what is true of every grammar.
    let _rules = store.grammar.rules();
    store.marks.clear();
    let Rewritten { grammar, texts } = delete_all(
        alloc,
        &store.grammar,
        &store.names,
        &store.texts,
        selector,
        steps,
    )?;
    put_rules(alloc, store, grammar)?;
    store.texts = texts;
    Ok(())
}

// Puts other rules in the place of the store's, with their counts and their index. All memory is taken before, so that want of it leaves the
// store as it was.
fn put_rules(alloc: Global, store: &mut Store, grammar: Grammar) -> Result<(), AllocError>
    requires swept { IsSwept (rules_of grammar.rules) }
    requires few { sum_by node_weight (listed (value (rules_of grammar.rules)) []) < 2 ^ 63 }
    ensures rules { OnOk result (store.new.grammar ≡ grammar) }
    ensures counts { OnOk result (AreCounts store.new.names (rules_of store.new.grammar.rules) store.new.counts) }
    ensures index { OnOk result (IsIndexOf store.new.grammar store.new.index) }
    ensures names { store.new.names ≡ store.old.names }
    ensures texts { store.new.texts ≡ store.old.texts }
    ensures marks { store.new.marks ≡ store.old.marks }
    ensures refused { OnErr result (store.new ≡ store.old) }
{
    let Tables { counts, index } = tables_of(alloc, &grammar, &store.names)?;
    store.grammar = grammar;
    store.counts = counts;
    store.index = index;
    Ok(())
}
