// A text that comes once more before itself.
ghost use Rattle.std.specs.Prelude.{◌≡◌, [], ◌∷◌, IfOk, Some};
ghost use Rattle.plain_tree.specs.Allowed.{IsAllowed};
ghost use Rattle.plain_tree.specs.Tree.{Tree, node, none};
ghost use Rattle.plain_tree.specs.declared.edit.Edit.TheVariants.{Copy};
ghost use Rattle.plain_tree.specs.declared.kind.Kind.TheVariants.{Text};
ghost use Rattle.preorder_address.specs.Marks.{AreMarks, MarksFirst};
ghost use Rattle.preorder_address.specs.Spots.{IsSpot};
ghost use Rattle.preorder_address.specs.TreeNumbers.{kind_at};
ghost use Rattle.tree_updates.specs.Stores.{Applies, IsStoreFor};

use crate::inserting::insert_beside;
use crate::store::{EditError, Store};
use plain_tree::{Bytes, Kind, Node, Nodes};
use preorder_address::{Marks, Spot};
use read_steps::Steps;
use std::alloc::{AllocError, Global};
use std::sync::ledger::Ledger;

// Puts a text equal to the spot's before it: it becomes one with it, and with a text before them.
pub(crate) fn copy_text<L: Ledger>(
    alloc: Global,
    store: &mut Store,
    marks: &mut Marks,
    number: u64,
    spot: &Spot,
    steps: &mut Steps<L>,
) -> Result<(), EditError>
    requires store { (t : Tree) × IsStoreFor store.old t × IsAllowed t (Copy number) × (kind_at t number ≡ Some Text) }
    requires spot { IsSpot store.old.names store.old.grammar.rules number spot.now }
    requires marks { AreMarks store.old.names store.old.grammar.rules marks.old }
    requires first { MarksFirst store.old.names store.old.grammar.rules spot.now.levels.items spot.now.first }
    ensures applies { (t : Tree) → IsStoreFor store.old t → IsAllowed t (Copy number) → kind_at t number ≡ Some Text
        → Applies t (Copy number) store.old result store.new }
    ensures marks { AreMarks store.old.names store.new.grammar.rules marks.new }
{
    let text = store.texts.get(spot.text_rank()).unwrap();
    let fragment = text_fragment(alloc, text)?;
    insert_beside(alloc, store, marks, number, spot, &fragment, steps)
}

// A fragment of one text.
fn text_fragment(alloc: Global, text: &[u8]) -> Result<Nodes, AllocError>
    ensures { IfOk result (λ nodes. nodes ≡ node Text [] text.now none ∷ []) }
{
    let node = Node {
        kind: Kind::Text,
        name: Bytes::from_slice(alloc, &[])?,
        value: Bytes::from_slice(alloc, text)?,
        kids: Nodes::new(alloc),
    };
    let mut nodes = Nodes::new(alloc);
    nodes.push(node)?;
    Ok(nodes)
}
