// Reading a grammar file from the shelf.
ghost use Rattle.std.specs.Prelude.{◌≤◌, IfOk, IfErr, Some};
ghost use Rattle.tree_outside.specs.Outside.{Stays};
ghost use Rattle.store_core.specs.Acts as act;
ghost use Rattle.store_core.specs.GrammarStores.{IsStoreOf, IsNoStore};
ghost use Rattle.store_core.specs.Machine.{LoadsGrammar};
ghost use Rattle.store_core.specs.Refusals.{Cause};
ghost use Rattle.store_core.specs.StoreOf.{IsCounted, parts_of};
ghost use Rattle.store_core.specs.Texts.{answer_line};
ghost use Rattle.store_core.specs.Worlds.{State, AreLawfulParts, IsIdle, told_files, unedited, world};

use crate::answer::{Answer, Refusal};
use crate::file_reading::read_file;
use crate::loaded::Tables;
use crate::loading::{ReadDocument, tables_of};
use grammar_file::{Parts, read};
use preorder_address::Marks;
use std::alloc::Global;
use tree_outside::Shelf;
use tree_updates::Store;

/// Reads the document in the grammar file with this name, under the file's own grammar.
pub(crate) fn load_grammar<F: Shelf>(
    alloc: Global,
    name: &str,
    shelf: &mut F,
) -> Result<ReadDocument, Refusal>
    ensures later { F.faults shelf.old ≤ F.faults shelf.new }
    ensures files { Stays (told_files (F.told shelf.old)) (told_files (F.told shelf.new)) }
    ensures idle { IsIdle (F.told shelf.old) → IsIdle (F.told shelf.new) }
    ensures loads { IfOk result (λ l. (state : State)
        → LoadsGrammar name.now (world state (F.told shelf.old) (F.faults shelf.old)) (answer_line (Answer.Nodes l.count)) (world (Some (unedited (parts_of l.store))) (F.told shelf.new) (F.faults shelf.new))) }
    ensures held { IfOk result (λ l. AreLawfulParts (parts_of l.store)) }
    ensures counted { IfOk result (λ l. IsCounted l.store) }
    ensures refused { IfErr result (λ refusal. (state : State)
        → Cause refusal (act.LoadGrammar name.now) (world state (F.told shelf.old) (F.faults shelf.old)) (world state (F.told shelf.new) (F.faults shelf.new))) }
{
    let bytes = read_file(alloc, name, shelf)?;
    let store = store_of_file(alloc, &bytes)?;
    let count = store.counts.total();
    Ok(ReadDocument { store, count })
}

// The store of which the bytes are the file.
fn store_of_file(alloc: Global, bytes: &[u8]) -> Result<Store, Refusal>
    ensures store { IfOk result (IsStoreOf bytes.now) }
    ensures refused { IfErr result (λ refusal. IsNoStore refusal bytes.now) }
{
    let Parts {
        grammar,
        names,
        texts,
    } = read(alloc, bytes)?;
    let Tables { counts, index } = tables_of(alloc, &grammar, &names)?;
    Ok(Store {
        grammar,
        names,
        texts,
        counts,
        index,
        marks: Marks::new(alloc),
    })
}
