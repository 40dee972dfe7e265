// The attributes of an element, which stand before its other kids and have none, found by their numbers from the marks of the start.
ghost use Rattle.std.specs.Prelude.{◌≡◌, ◌<◌, ℕ, Some, IfOk, IfSome, IfNone, List, slice_get};
ghost use Rattle.plain_tree.specs.declared.kind.Kind.TheVariants.{Attribute};
ghost use Rattle.plain_tree.specs.Siblings.{first_kids, from_node};
ghost use Rattle.plain_tree.specs.Tree.{Tree, none, more, node_count};
ghost use Rattle.preorder_address.specs.Marks.{AreMarks};
ghost use Rattle.preorder_address.specs.TreeNumbers.{kind_at, parent_at};
ghost use Rattle.tree_updates.specs.ElementAttributes.{IsAttributeAt, IsAttributePlace};
ghost use Rattle.tree_updates.specs.Stores.{IsStoreFor};

use crate::store::Store;
use plain_tree::{Kind, Names};
use preorder_address::{Marks, find_marked};
use read_steps::Steps;
use std::alloc::{AllocError, Global};
use std::sync::ledger::Ledger;

// Whether an element has an attribute of a name, and how many others stand before it, or are there at all.
#[derive(Clone, Copy, Drop)]
pub(crate) struct AttributePlace {
    pub(crate) before: u64,
    pub(crate) found: bool,
}

// Where the attribute of this name stands among those of the node with this number, which is none itself. It reads the ways to its attributes,
// and to the node behind them.
pub(crate) fn find_attribute<L: Ledger>(
    alloc: Global,
    store: &Store,
    marks: &mut Marks,
    number: u64,
    name: &[u8],
    steps: &mut Steps<L>,
) -> Result<AttributePlace, AllocError>
    requires store { (t : Tree) × IsStoreFor store.now t × (number < node_count t) × (kind_at t number ≡ Some Attribute → ⊥) }
    requires marks { AreMarks store.now.names store.now.grammar.rules marks.old }
    ensures place { IfOk result (λ place. (t : Tree) → IsStoreFor store.now t → (kind_at t number ≡ Some Attribute → ⊥) → IsAttributePlace name.now (first_kids (from_node number (more t none))) place) }
    ensures marks { AreMarks store.now.names store.now.grammar.rules marks.new }
{
    let mut before = 0;
    while let Some(own) = attribute_at(alloc, store, marks, number + 1 + before, steps)? {
        if own == name {
            return Ok(AttributePlace {
                before,
                found: true,
            });
        }
        before += 1;
    }
    Ok(AttributePlace {
        before,
        found: false,
    })
}

// The number of the element of the attribute with this number: the last node before it that is no attribute.
pub(crate) fn element_of<L: Ledger>(
    alloc: Global,
    store: &Store,
    marks: &mut Marks,
    number: u64,
    steps: &mut Steps<L>,
) -> Result<u64, AllocError>
    requires store { (t : Tree) × IsStoreFor store.now t × (Some Attribute ≡ kind_at t number) }
    requires marks { AreMarks store.now.names store.now.grammar.rules marks.old }
    ensures parent { IfOk result (λ element. (t : Tree) → IsStoreFor store.now t → Some Attribute ≡ kind_at t number → Some (Some element) ≡ parent_at (more t none) number) }
    ensures marks { AreMarks store.now.names store.now.grammar.rules marks.new }
{
    let mut element = number - 1;
    while attribute_at(alloc, store, marks, element, steps)?.is_some() {
        element -= 1;
    }
    Ok(element)
}

// The name of the node with this number, where there is one and it is an attribute.
fn attribute_at<'a, L: Ledger>(
    alloc: Global,
    store: &'a Store,
    marks: &mut Marks,
    number: u64,
    steps: &mut Steps<L>,
) -> Result<Option<&'a [u8]>, AllocError>
    requires store { (t : Tree) × IsStoreFor store.now t }
    requires marks { AreMarks store.now.names store.now.grammar.rules marks.old }
    ensures yes { IfOk result (λ found. IfSome found (λ name. (t : Tree) → IsStoreFor store.now t → IsAttributeAt t number name.now)) }
    ensures no { IfOk result (λ found. IfNone found ((t : Tree) (name : List ℕ) → IsStoreFor store.now t → IsAttributeAt t number name → ⊥)) }
    ensures marks { AreMarks store.now.names store.now.grammar.rules marks.new }
{
    // The call tells what is true of every grammar.
    let _limit = store.grammar.limit();
    let found = find_marked(
        alloc,
        &store.grammar,
        &store.counts,
        &store.names,
        number,
        marks,
        steps,
    )?;
    let Some(spot) = found else {
        return Ok(None);
    };
    Ok(attribute_name(&store.names, spot.symbol()))
}

// The name of a symbol that is an attribute's.
fn attribute_name(names: &Names, symbol: usize) -> Option<&[u8]>
    ensures yes { IfSome result (λ name. slice_get names.now symbol ≡ Some (Attribute, name.now)) }
    ensures no { IfNone result ((name : List ℕ) → slice_get names.now symbol ≡ Some (Attribute, name) → ⊥) }
{
    match names.at(symbol) {
        Some((Kind::Attribute, name)) => Some(name),
        _ => None,
    }
}
