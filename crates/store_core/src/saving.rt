// Writing a document, or what is held of it, to the shelf.
ghost use Rattle.std.specs.Prelude.{◌≡◌, ◌≤◌, Some, None, Err, IfOk, IfErr, IfSome, OnOk, OnErr, length};
ghost use Rattle.tree_outside.specs.Outside.{Gets, Rose, Stays};
ghost use Rattle.tree_outside.specs.Shelf.{beside_of, pending_bytes};
ghost use Rattle.slt_grammar.specs.Keyed.{rules_of};
ghost use Rattle.grammar_file.specs.FileBytes.{listed_file_bytes};
ghost use Rattle.store_core.specs.Acts as act;
ghost use Rattle.plain_tree.specs.Tree.{Tree};
ghost use Rattle.xml_nodes.specs.Saved.{saved_bytes};
ghost use Rattle.store_core.specs.Worlds.{State, AreLawfulParts, IsIdle, PartsStandFor, parts_in, told_files, world};
ghost use Rattle.store_core.specs.StoreOf.{IsCounted, parts_of};
ghost use Rattle.store_core.specs.Walking.{IsCountable, IsReady, walk_text};
ghost use Rattle.store_core.specs.Refusals.{Cause};
ghost use Rattle.store_core.specs.Machine.{Saves, SavesGrammar};
ghost use Rattle.store_core.specs.Texts.{answer_line};

use crate::answer::{Answer, Refusal};
use crate::walking::NodeWalk;
use crate::writing::{write_node, written};
use read_steps::Steps;
use std::alloc::{AllocError, Global};
use std::sync::ledger::Ledger;
use text_list::Dictionary;
use tree_outside::{Failed, Pending, Shelf};
use tree_updates::Store;

/// Writes the document to the file with this name, and answers how many bytes that were.
pub(crate) fn save_document<F: Shelf, L: Ledger>(
    alloc: Global,
    name: &str,
    store: &Store,
    shelf: &mut F,
    steps: &mut Steps<L>,
) -> Result<u128, Refusal>
    requires held { AreLawfulParts (parts_of store.now) }
    requires counted { IsCounted store.now }
    ensures later { F.faults shelf.old ≤ F.faults shelf.new }
    ensures saves { IfOk result (λ count. (state : State) → parts_in state ≡ Some (parts_of store.now)
        → Saves name.now (world state (F.told shelf.old) (F.faults shelf.old)) (answer_line (Answer.Bytes count)) (world state (F.told shelf.new) (F.faults shelf.new))) }
    ensures refused { IfErr result (λ refusal. (state : State) → parts_in state ≡ Some (parts_of store.now)
        → Cause refusal (act.Save name.now) (world state (F.told shelf.old) (F.faults shelf.old)) (world state (F.told shelf.new) (F.faults shelf.new))) }
    ensures files { OnErr result (Stays (told_files (F.told shelf.old)) (told_files (F.told shelf.new))) }
    ensures idle { IsIdle (F.told shelf.old) → IsIdle (F.told shelf.new) }
    ensures memory { result ≡ Err Refusal.Memory → F.told shelf.new ≡ F.told shelf.old }
{
    let mut walk = document_walk(alloc, store, steps)?;
    written(shelf.create(name))?;
    let count = write_pending(store, &mut walk, shelf, steps)?;
    written(shelf.seal())?;
    Ok(count)
}

// The walk over the document, with all the memory that its saving takes.
fn document_walk<L: Ledger>(
    alloc: Global,
    store: &Store,
    steps: &mut Steps<L>,
) -> Result<NodeWalk, AllocError>
    requires held { AreLawfulParts (parts_of store.now) }
    requires counted { IsCounted store.now }
    ensures ready { IfOk result (IsReady store.now) }
    ensures text { IfOk result (λ walk. (t : Tree) → PartsStandFor (parts_of store.now) t → walk_text store.now walk ≡ saved_bytes t) }
    ensures countable { IfOk result (IsCountable store.now) }
{
    // The call tells that there are so few texts that the count of what is written fits.
    let _few = store.texts.len();
    let found = NodeWalk::new(alloc, store, 0, 0, steps)?;
    match found {
        Some(walk) => Ok(walk),
        // A document has a node.
        None => unreachable!(),
    }
}

// Adds the document to the pending file, and answers how many bytes that is.
fn write_pending<F: Shelf, L: Ledger>(
    store: &Store,
    walk: &mut NodeWalk,
    shelf: &mut F,
    steps: &mut Steps<L>,
) -> Result<u128, Refusal>
    requires ready { IsReady store.now walk.old }
    requires countable { IsCountable store.now walk.old }
    ensures written { OnOk result (Gets (pending_bytes (F.told shelf.old)) (pending_bytes (F.told shelf.new)) (walk_text store.now walk.old)) }
    ensures count { IfOk result (λ count. count ≡ length (walk_text store.now walk.old)) }
    ensures beside { Stays (beside_of (F.told shelf.old)) (beside_of (F.told shelf.new)) }
    ensures lost { OnErr result (IfSome (pending_bytes (F.told shelf.old)) (λ _. pending_bytes (F.told shelf.new) ≡ None)) }
    ensures later { F.faults shelf.old ≤ F.faults shelf.new }
    ensures refused { IfErr result (λ refusal. (refusal ≡ Refusal.WriteFault) × Rose (F.faults shelf.old) (F.faults shelf.new)) }
{
    let mut pending = Pending::new(shelf);
    match write_node(store, walk, &mut pending, steps) {
        Ok(count) => Ok(count),
        Err(Failed) => Err(Refusal::WriteFault),
    }
}

/// Writes the names, the grammar and the texts to the file with this name, and answers how much that was.
pub(crate) fn save_grammar<F: Shelf>(
    name: &str,
    store: &Store,
    shelf: &mut F,
) -> Result<Answer, Refusal>
    ensures later { F.faults shelf.old ≤ F.faults shelf.new }
    ensures saves { IfOk result (λ answer. (state : State) → parts_in state ≡ Some (parts_of store.now)
        → SavesGrammar name.now (world state (F.told shelf.old) (F.faults shelf.old)) (answer_line answer) (world state (F.told shelf.new) (F.faults shelf.new))) }
    ensures refused { IfErr result (λ refusal. (state : State) → parts_in state ≡ Some (parts_of store.now)
        → Cause refusal (act.SaveGrammar name.now) (world state (F.told shelf.old) (F.faults shelf.old)) (world state (F.told shelf.new) (F.faults shelf.new))) }
    ensures files { OnErr result (Stays (told_files (F.told shelf.old)) (told_files (F.told shelf.new))) }
    ensures idle { IsIdle (F.told shelf.old) → IsIdle (F.told shelf.new) }
    ensures memory { result ≡ Err Refusal.Memory → F.told shelf.new ≡ F.told shelf.old }
{
    let dictionary = store.texts.dictionary()?;
    written(shelf.create(name))?;
    let bytes = write_grammar(store, &dictionary, shelf)?;
    written(shelf.seal())?;
    Ok(Answer::Grammar {
        rules: store.grammar.rules(),
        size: store.grammar.size(),
        bytes,
    })
}

// Adds the grammar file, whose texts the dictionary has, to the pending file, and answers how many bytes it has.
fn write_grammar<F: Shelf>(
    store: &Store,
    dictionary: &Dictionary<'_>,
    shelf: &mut F,
) -> Result<u128, Refusal>
    ensures written { OnOk result (Gets (pending_bytes (F.told shelf.old)) (pending_bytes (F.told shelf.new)) (listed_file_bytes store.now.names (rules_of store.now.grammar.rules) dictionary.now)) }
    ensures count { IfOk result (λ count. count ≡ length (listed_file_bytes store.now.names (rules_of store.now.grammar.rules) dictionary.now)) }
    ensures beside { Stays (beside_of (F.told shelf.old)) (beside_of (F.told shelf.new)) }
    ensures lost { OnErr result (IfSome (pending_bytes (F.told shelf.old)) (λ _. pending_bytes (F.told shelf.new) ≡ None)) }
    ensures later { F.faults shelf.old ≤ F.faults shelf.new }
    ensures refused { IfErr result (λ refusal. (refusal ≡ Refusal.WriteFault) × Rose (F.faults shelf.old) (F.faults shelf.new)) }
{
    let mut pending = Pending::new(shelf);
    match grammar_file::write_with(&store.grammar, &store.names, dictionary, &mut pending) {
        Ok(bytes) => Ok(bytes),
        Err(Failed) => Err(Refusal::WriteFault),
    }
}
