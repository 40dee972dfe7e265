// Edits of a store's document.
ghost use Rattle.std.specs.Prelude.{◌≡◌, List, length};
ghost use Rattle.plain_tree.specs.Allowed.{AreLawfulParts};
ghost use Rattle.plain_tree.specs.NodePairs.{Pair};
ghost use Rattle.plain_tree.specs.Tree.{Tree};
ghost use Rattle.slt_grammar.specs.Keyed.{KeyedRule};
ghost use Rattle.fcns_encoding.specs.Interning.{Interns};
ghost use Rattle.preorder_address.specs.Marks.{AreMarks};
ghost use Rattle.tree_updates.specs.Stores.{Applies, HasMarks, IsStoreFor};

use crate::appending::append;
use crate::attribute_setting::set_attribute;
use crate::copying::copy;
use crate::deleting::delete;
use crate::inserting::insert;
use crate::renaming::rename;
use crate::store::{EditError, Store};
use crate::valuing::set_value;
use plain_tree::{Edit, Names};
use preorder_address::Marks;
use read_steps::Steps;
use std::alloc::Global;
use std::mem::replace;
use std::sync::ledger::Ledger;

/// Makes an edit of the store's document. What it gives is lawful: a name is a Name, a value consists of characters, a
/// fragment is one. `EditError` says when it is refused; nothing changes then, but that for want of memory names may stay in the table where
/// the edit is allowed. All memory is asked for before the first change of the grammar.
/// Its searches begin at the store's marks and leave others; those before the node at which the document changes stay, and those behind it move
/// with it, but for copies and where texts meet.
pub fn apply<L: Ledger>(
    alloc: Global,
    store: &mut Store,
    edit: &Edit,
    steps: &mut Steps<L>,
) -> Result<(), EditError>
    requires store { (t : Tree) × IsStoreFor store.old t }
    requires marks { HasMarks store.old }
    requires parts { AreLawfulParts edit.now }
    ensures applies { (t : Tree) → IsStoreFor store.old t → Applies t edit.now store.old result store.new }
    ensures marks { HasMarks store.new }
{
    // The marks go beside the store, which the searches only read.
    let mut marks = replace(&mut store.marks, Marks::new(alloc));
    let named = store.names.len();
    let result = make(alloc, store, &mut marks, edit, steps);
    keep_where_named(&mut marks, &store.names, named);
    store.marks = marks;
    result
}

// Takes the marks away where names have come to so many: they are marks by the names that were there.
fn keep_where_named(marks: &mut Marks, names: &Names, named: usize)
    ensures { (old : List Pair) (G : List KeyedRule) → length old ≡ named → (ps : List Pair) × Interns old ps names.now → AreMarks old G marks.old → AreMarks names.now G marks.new }
{
    if named < names.len() {
        marks.clear();
    }
}

// Makes the edit with the marks beside the store.
fn make<L: Ledger>(
    alloc: Global,
    store: &mut Store,
    marks: &mut Marks,
    edit: &Edit,
    steps: &mut Steps<L>,
) -> Result<(), EditError>
    requires store { (t : Tree) × IsStoreFor store.old t }
    requires marks { AreMarks store.old.names store.old.grammar.rules marks.old }
    requires parts { AreLawfulParts edit.now }
    ensures applies { (t : Tree) → IsStoreFor store.old t → Applies t edit.now store.old result store.new }
    ensures marks { AreMarks store.old.names store.new.grammar.rules marks.new }
{
    match edit {
        Edit::Rename { number, name } => {
            rename(alloc, store, marks, *number, name.as_slice(), steps)
        }
        Edit::Insert { number, fragment } => {
            insert(alloc, store, marks, *number, fragment, steps)
        }
        Edit::Append { number, fragment } => {
            append(alloc, store, marks, *number, fragment, steps)
        }
        Edit::Delete { number } => delete(alloc, store, marks, *number, steps),
        Edit::Value { number, value } => {
            set_value(alloc, store, marks, *number, value.as_slice(), steps)
        }
        Edit::Attr {
            number,
            name,
            value,
        } => set_attribute(
            alloc,
            store,
            marks,
            *number,
            name.as_slice(),
            value.as_slice(),
            steps,
        ),
        Edit::Copy { number } => copy(alloc, store, marks, *number, steps),
    }
}
