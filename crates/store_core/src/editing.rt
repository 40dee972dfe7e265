// Edits of the document that is loaded.
ghost use Rattle.std.specs.Prelude.{◌≡◌, ◌≤◌, ◌<◌, ◌^◌, ◌↔◌, ℕ, max, List, [], Option, Some, IfOk, IfErr, IsTrue, OnOk};
ghost use Rattle.tree_outside.specs.Files.{Told};
ghost use Rattle.plain_tree.specs.Edits.{number_of};
ghost use Rattle.plain_tree.specs.Lawful.{IsName};
ghost use Rattle.plain_tree.specs.Tree.{Tree, trees, node_count};
ghost use Rattle.xml_nodes.specs.Spelling.{SpellsList, SpellsValue};
ghost use Rattle.slt_grammar.specs.Grammars.{IsGrammar, size};
ghost use Rattle.slt_grammar.specs.Keyed.{rules_of};
ghost use Rattle.slt_grammar.specs.Ranks.{greatest_rank};
ghost use Rattle.tree_updates.specs.Stores.{HasMarks, IsStoreFor};
ghost use Rattle.store_core.specs.Acts.{node_asked};
ghost use Rattle.store_core.specs.CommandOf.{act_of};
ghost use Rattle.store_core.specs.Editing.{AsksEdit, IsDue, IsEdit, IsSettledWhereDue, one_more};
ghost use Rattle.store_core.specs.Errors.{GivesNoEdit, IsNoEdit, IsNoFragment, IsNoName, IsNoValue};
ghost use Rattle.store_core.specs.Machine.{Comes};
ghost use Rattle.store_core.specs.StoreOf.{IsCounted, held_of, parts_of};
ghost use Rattle.store_core.specs.Worlds.{AreLawfulParts, world};

use crate::answer::{Answer, Refusal};
use crate::command::Command;
use crate::loaded::Loaded;
use crate::repairing::settle_store;
use plain_tree::{Bytes, Edit, Nodes};
use read_steps::Steps;
use std::alloc::{AllocError, Global};
use std::sync::ledger::Ledger;
use store_words::Settings;
use tree_updates::{Store, apply};
use xml_nodes::is_name;
use xml_profile::{XmlError, read_fragment, read_value};

/// Makes the edit that a command asks for, and settles the grammar where that is due, for a rank of at most 8.
pub(crate) fn edit_document<L: Ledger>(
    alloc: Global,
    loaded: &mut Loaded,
    command: Command<'_>,
    settings: Settings,
    steps: &mut Steps<L>,
) -> Result<Answer, Refusal>
    requires rank { settings.rank ≤ 8 }
    requires edit { IsEdit (act_of command) }
    requires held { AreLawfulParts (parts_of loaded.old.store) }
    requires counted { IsCounted loaded.old.store }
    requires few { loaded.old.edits < 2 ^ 64 }
    ensures held { AreLawfulParts (parts_of loaded.new.store) }
    ensures counted { IsCounted loaded.new.store }
    ensures few { loaded.new.edits < 2 ^ 64 }
    ensures comes { (told : Option Told) (count : ℕ)
        → Comes settings (act_of command.entry) (world (Some (held_of loaded.old)) told count) [] result (world (Some (held_of loaded.new)) told count) }
{
    let count = nodes_of(&loaded.store);
    let edit = edit_of(alloc, count, command)?;
    apply(alloc, &mut loaded.store, &edit, steps)?;
    Ok(settle_where_due(alloc, loaded, settings))
}

// How many nodes the store's document has.
fn nodes_of(store: &Store) -> u64
    requires { (t : Tree) × IsStoreFor store.now t }
    ensures { (t : Tree) → IsStoreFor store.now t → result ≡ node_count t }
{
    // The call tells what is true of every grammar.
    let _rules = store.grammar.rules();
    store.counts.total()
}

// The edit that a command asks for, of a document with this many nodes.
fn edit_of(alloc: Global, count: u64, command: Command<'_>) -> Result<Edit, Refusal>
    requires edit { IsEdit (act_of command) }
    ensures asked { IfOk result (AsksEdit (act_of command.entry)) }
    ensures there { IfOk result (λ edit. number_of edit < count) }
    ensures refused { IfErr result (λ refusal. IsNoEdit refusal (act_of command.entry) count) }
{
    check_node(node_of(command), count)?;
    edit_given(alloc, command)
}

// The number of the node at which a command asks for an edit.
fn node_of(command: Command<'_>) -> u64
    requires edit { IsEdit (act_of command) }
    ensures { node_asked (act_of command.entry) ≡ Some result }
{
    match command {
        Command::Rename { number, .. }
        | Command::Insert { number, .. }
        | Command::Append { number, .. }
        | Command::Delete { number }
        | Command::Value { number, .. }
        | Command::Attr { number, .. }
        | Command::Copy { number } => number,
        _ => unreachable!(),
    }
}

// The edit that a command asks for, where what it gives is lawful.
fn edit_given(alloc: Global, command: Command<'_>) -> Result<Edit, Refusal>
    requires edit { IsEdit (act_of command) }
    ensures asked { IfOk result (AsksEdit (act_of command.entry)) }
    ensures refused { IfErr result (λ refusal. GivesNoEdit refusal (act_of command.entry)) }
{
    Ok(match command {
        Command::Rename { number, name } => Edit::Rename {
            number,
            name: name_of(alloc, name)?,
        },
        Command::Insert { number, fragment } => Edit::Insert {
            number,
            fragment: fragment_of(alloc, fragment)?,
        },
        Command::Append { number, fragment } => Edit::Append {
            number,
            fragment: fragment_of(alloc, fragment)?,
        },
        Command::Delete { number } => Edit::Delete { number },
        Command::Value { number, value } => Edit::Value {
            number,
            value: value_of(alloc, value)?,
        },
        Command::Attr {
            number,
            name,
            value,
        } => Edit::Attr {
            number,
            name: name_of(alloc, name)?,
            value: value_of(alloc, value)?,
        },
        Command::Copy { number } => Edit::Copy { number },
        _ => unreachable!(),
    })
}

// Refuses the number of a node where there are only so many.
fn check_node(number: u64, count: u64) -> Result<(), Refusal>
    ensures there { OnOk result (number < count) }
    ensures refused { IfErr result (λ refusal. (refusal ≡ Refusal.NoNode) × (count ≤ number)) }
{
    if number < count {
        Ok(())
    } else {
        Err(Refusal::NoNode)
    }
}

// The name, where it is a Name.
fn name_of(alloc: Global, name: &[u8]) -> Result<Bytes, Refusal>
    ensures name { IfOk result (λ bytes. (bytes ≡ name.now) × IsName name.now) }
    ensures refused { IfErr result (λ refusal. IsNoName refusal name.now) }
{
    if !is_name(name) {
        return Err(Refusal::BadName);
    }
    Ok(Bytes::from_slice(alloc, name)?)
}

// The nodes that the bytes spell.
fn fragment_of(alloc: Global, bytes: &[u8]) -> Result<Nodes, Refusal>
    ensures fragment { IfOk result (λ nodes. SpellsList bytes.now (trees nodes)) }
    ensures refused { IfErr result (λ refusal. IsNoFragment refusal bytes.now) }
{
    match read_fragment(alloc, bytes) {
        Ok(nodes) => Ok(nodes),
        Err(XmlError::Bad { .. }) => Err(Refusal::BadFragment),
        Err(XmlError::Memory) => Err(Refusal::Memory),
    }
}

// The value that the bytes spell.
fn value_of(alloc: Global, bytes: &[u8]) -> Result<Bytes, Refusal>
    ensures value { IfOk result (SpellsValue bytes.now) }
    ensures refused { IfErr result (λ refusal. IsNoValue refusal bytes.now) }
{
    match read_value(alloc, bytes) {
        Ok(value) => Ok(value),
        Err(XmlError::Bad { .. }) => Err(Refusal::BadValue),
        Err(XmlError::Memory) => Err(Refusal::Memory),
    }
}

/// Counts an edit that was made, and settles the grammar where that is due.
pub(crate) fn settle_where_due(alloc: Global, loaded: &mut Loaded, settings: Settings) -> Answer
    requires rank { settings.rank ≤ 8 }
    requires store { (t : Tree) × IsStoreFor loaded.old.store t }
    requires marks { HasMarks loaded.old.store }
    ensures store { (t : Tree) → IsStoreFor loaded.old.store t → IsStoreFor loaded.new.store t }
    ensures grammar { IsGrammar (rules_of loaded.new.store.grammar.rules) }
    ensures names { loaded.new.store.names ≡ loaded.old.store.names }
    ensures size { size (rules_of loaded.new.store.grammar.rules) ≤ size (rules_of loaded.old.store.grammar.rules) }
    ensures kept { (IsDue settings (one_more loaded.old.edits) → ⊥) → rules_of loaded.new.store.grammar.rules ≡ rules_of loaded.old.store.grammar.rules }
    ensures ranks { greatest_rank (rules_of loaded.new.store.grammar.rules) ≤ max settings.rank (greatest_rank (rules_of loaded.old.store.grammar.rules)) }
    ensures few { loaded.new.edits < 2 ^ 64 }
    ensures marks { HasMarks loaded.new.store }
    ensures settled { (t : Tree) → IsStoreFor loaded.old.store t → IsSettledWhereDue settings (one_more loaded.old.edits) (held_of loaded.new) (node_count t) result }
{
    // The call tells what is true of every grammar.
    let _rules = loaded.store.grammar.rules();
    let count = nodes_of(&loaded.store);
    loaded.edits = loaded.edits.saturating_add(1);
    if is_due(settings, loaded.edits) {
        match settle_store(alloc, &mut loaded.store, settings.rank) {
            Ok(()) => {
                loaded.edits = 0;
                Answer::Nodes(count)
            }
            Err(AllocError) => Answer::Unsettled(count),
        }
    } else {
        Answer::Nodes(count)
    }
}

// Whether settling is due after so many edits.
fn is_due(settings: Settings, edits: u64) -> bool
    ensures { IsTrue result ↔ IsDue settings edits }
{
    0 < settings.repair && settings.repair <= edits
}
