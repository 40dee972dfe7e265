// Reading a document from the shelf.
ghost use Rattle.std.specs.Prelude.{◌≡◌, ◌≤◌, ◌<◌, ◌^◌, [], max, sum_by, IfOk, IfErr, Some};
ghost use Rattle.tree_outside.specs.Outside.{Stays};
ghost use Rattle.plain_tree.specs.Tree.{Tree, node_count};
ghost use Rattle.slt_grammar.specs.Grammars.{IsGrammar, IsSwept, value};
ghost use Rattle.slt_grammar.specs.Digrams.{IsSettled};
ghost use Rattle.slt_grammar.specs.Keyed.{rules_of};
ghost use Rattle.slt_grammar.specs.Ranks.{greatest_rank};
ghost use Rattle.slt_grammar.specs.Segments.{listed};
ghost use Rattle.digram_index.specs.Linked.{IsIndexOf};
ghost use Rattle.segment_counts.specs.Counting.{AreCounts};
ghost use Rattle.segment_counts.specs.Weights.{node_weight};
ghost use Rattle.store_core.specs.Acts as act;
ghost use Rattle.store_core.specs.Worlds.{State, AreLawfulParts, IsIdle, told_files, unedited, world};
ghost use Rattle.store_core.specs.Folding.{IsFoldOf, FoldsFile};
ghost use Rattle.store_core.specs.StoreOf.{IsCounted, parts_of};
ghost use Rattle.store_core.specs.Refusals.{Cause};
ghost use Rattle.store_core.specs.Machine.{Encodes, Loads};
ghost use Rattle.store_core.specs.Texts.{answer_line};

use crate::answer::{Answer, Refusal};
use crate::file_reading::open_file;
use crate::loaded::Tables;
use crate::reading::read_document;
use digram_index::build;
use fcns_encoding::Folded;
use local_repair::settle;
use plain_tree::Names;
use preorder_address::Marks;
use segment_counts::{CountError, Counts};
use slt_grammar::Grammar;
use std::alloc::{AllocError, Global};
use tree_outside::Shelf;
use tree_updates::Store;

/// A document that was read, and the count of its nodes.
#[derive(Drop)]
pub(crate) struct ReadDocument {
    pub store: Store,
    pub count: u64,
}

/// Reads the document in the file with this name, under a grammar that is settled for this rank, from 1 to 8.
pub(crate) fn load_document<F: Shelf>(
    alloc: Global,
    name: &str,
    rank: usize,
    shelf: &mut F,
) -> Result<ReadDocument, Refusal>
    requires rank { (1 ≤ rank) × (rank ≤ 8) }
    ensures later { F.faults shelf.old ≤ F.faults shelf.new }
    ensures files { Stays (told_files (F.told shelf.old)) (told_files (F.told shelf.new)) }
    ensures idle { IsIdle (F.told shelf.old) → IsIdle (F.told shelf.new) }
    ensures loads { IfOk result (λ l. (state : State)
        → Loads rank name.now (world state (F.told shelf.old) (F.faults shelf.old)) (answer_line (Answer.Nodes l.count)) (world (Some (unedited (parts_of l.store))) (F.told shelf.new) (F.faults shelf.new))) }
    ensures held { IfOk result (λ l. AreLawfulParts (parts_of l.store)) }
    ensures counted { IfOk result (λ l. IsCounted l.store) }
    ensures refused { IfErr result (λ refusal. (state : State)
        → Cause refusal (act.Load name.now) (world state (F.told shelf.old) (F.faults shelf.old)) (world state (F.told shelf.new) (F.faults shelf.new))) }
{
    let folded = read_file(alloc, name, shelf)?;
    let store = store_of(alloc, folded, rank)?;
    let count = store.counts.total();
    Ok(ReadDocument { store, count })
}

// The document in the file with this name, folded.
fn read_file<F: Shelf>(alloc: Global, name: &str, shelf: &mut F) -> Result<Folded, Refusal>
    ensures later { F.faults shelf.old ≤ F.faults shelf.new }
    ensures files { Stays (told_files (F.told shelf.old)) (told_files (F.told shelf.new)) }
    ensures idle { IsIdle (F.told shelf.old) → IsIdle (F.told shelf.new) }
    ensures document { IfOk result (FoldsFile name.now (F.told shelf.old) (F.faults shelf.old)) }
    ensures refused { IfErr result (λ refusal. (state : State)
        → Cause refusal (act.Load name.now) (world state (F.told shelf.old) (F.faults shelf.old)) (world state (F.told shelf.new) (F.faults shelf.new))) }
{
    open_file(name, shelf)?;
    let read = read_document(alloc, shelf);
    shelf.close();
    read
}

/// A folded document as a grammar that is settled for this rank, with its counts and its index. It is refused only for want of memory.
pub(crate) fn store_of(alloc: Global, folded: Folded, rank: usize) -> Result<Store, AllocError>
    requires fold { (t : Tree) × (IsFoldOf t folded × (node_count t < 2 ^ 30)) }
    requires rank { (1 ≤ rank) × (rank ≤ 8) }
    ensures encoded { IfOk result (λ s. (t : Tree) → IsFoldOf t folded → Encodes rank t (parts_of s)) }
    ensures grammar { IfOk result (λ s. IsGrammar (rules_of s.grammar.rules)) }
    ensures counted { IfOk result IsCounted }
{
    let Folded {
        grammar,
        names,
        texts,
    } = folded;
    let grammar = settled(alloc, grammar, rank)?;
    let Tables { counts, index } = tables_of(alloc, &grammar, &names)?;
    Ok(Store {
        grammar,
        names,
        texts,
        counts,
        index,
        marks: Marks::new(alloc),
    })
}

// The grammar, settled for this rank, with no more room than its rules take: the room that settling needed goes before anything is made
// that stays.
fn settled(alloc: Global, grammar: Grammar, rank: usize) -> Result<Grammar, AllocError>
    requires { rank ≤ 8 }
    ensures settled { IfOk result (λ new. IsSettled (rules_of new.rules) rank) }
    ensures same { IfOk result (λ new. value (rules_of new.rules) ≡ value (rules_of grammar.rules)) }
    ensures ranks { IfOk result (λ new. greatest_rank (rules_of new.rules) ≤ max rank (greatest_rank (rules_of grammar.rules))) }
{
    let mut grammar = grammar;
    settle(alloc, &mut grammar, rank)?;
    grammar.copy()
}

/// The counts of a grammar whose value is small enough, and its index. They are refused only for want of memory.
pub(crate) fn tables_of(
    alloc: Global,
    grammar: &Grammar,
    names: &Names,
) -> Result<Tables, AllocError>
    requires swept { IsSwept (rules_of grammar.now.rules) }
    requires few { sum_by node_weight (listed (value (rules_of grammar.now.rules)) []) < 2 ^ 63 }
    ensures counts { IfOk result (λ tables. AreCounts names.now (rules_of grammar.now.rules) tables.counts) }
    ensures index { IfOk result (λ tables. IsIndexOf grammar.now tables.index) }
{
    let counts = counts_of(alloc, grammar, names)?;
    let index = build(alloc, grammar)?;
    Ok(Tables { counts, index })
}

// The counts alone.
fn counts_of(alloc: Global, grammar: &Grammar, names: &Names) -> Result<Counts, AllocError>
    requires swept { IsSwept (rules_of grammar.now.rules) }
    requires few { sum_by node_weight (listed (value (rules_of grammar.now.rules)) []) < 2 ^ 63 }
    ensures { IfOk result (AreCounts names.now (rules_of grammar.now.rules)) }
{
    match Counts::new(alloc, grammar, names) {
        Ok(counts) => Ok(counts),
        Err(error) => match error {
            CountError::Memory => Err(AllocError),
            CountError::TooMany => unreachable!(),
        },
    }
}
