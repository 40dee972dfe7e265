// A node of a store gets another value.
ghost use Rattle.std.specs.Prelude.{◌≡◌, ◌↔◌, IfOk, IfErr, IsTrue, ℕ};
ghost use Rattle.plain_tree.specs.Allowed.{IsAllowed, MayHaveValue};
ghost use Rattle.plain_tree.specs.Lawful.{AreChars, IsLawfulName};
ghost use Rattle.plain_tree.specs.Tree.{Tree};
ghost use Rattle.plain_tree.specs.declared.edit.Edit.TheVariants.{Value};
ghost use Rattle.preorder_address.specs.Marks.{AreMarks};
ghost use Rattle.preorder_address.specs.TreeNumbers.{text_rank_at};
ghost use Rattle.tree_updates.specs.Stores.{Applies, IsRefusedFor, IsStoreFor};

use crate::node_spots::spot_at;
use crate::store::{EditError, Store};
use plain_tree::{Bytes, Kind};
use preorder_address::Marks;
use read_steps::Steps;
use std::alloc::Global;
use std::sync::ledger::Ledger;
use xml_nodes::lawful;

/// The node with this number of the store's document gets this value, which consists of characters of XML: an attribute any, a text, comment or
/// instruction one that is lawful for its kind. It reads nothing but the way to the node, and changes one text. `EditError` says when it is
/// refused; nothing changes then. It is refused for want of memory at any time.
pub(crate) fn set_value<L: Ledger>(
    alloc: Global,
    store: &mut Store,
    marks: &mut Marks,
    number: u64,
    value: &[u8],
    steps: &mut Steps<L>,
) -> Result<(), EditError>
    requires store { (t : Tree) × IsStoreFor store.old t }
    requires chars { AreChars value.now }
    requires marks { AreMarks store.old.names store.old.grammar.rules marks.old }
    ensures applies { (t : Tree) → IsStoreFor store.old t → Applies t (Value number value.now) store.old result store.new }
    ensures marks { AreMarks store.old.names store.new.grammar.rules marks.new }
{
    let rank = value_rank(alloc, store, marks, number, value, steps)?;
    put_value(alloc, store, number, rank, value)
}

// Gives the node with this number, whose value is the text at this place, a value that it may have.
pub(crate) fn put_value(
    alloc: Global,
    store: &mut Store,
    number: u64,
    rank: u64,
    value: &[u8],
) -> Result<(), EditError>
    requires store { (t : Tree) × IsStoreFor store.old t × IsAllowed t (Value number value.now) × (Some rank ≡ text_rank_at t number) }
    requires chars { AreChars value.now }
    ensures applies { (t : Tree) → IsStoreFor store.old t → IsAllowed t (Value number value.now) → Some rank ≡ text_rank_at t number
        → Applies t (Value number value.now) store.old result store.new }
    ensures grammar { store.new.grammar ≡ store.old.grammar }
{
    let text = Bytes::from_slice(alloc, value)?;
    store.texts.reserve(1)?;
    store.texts.set(rank, text);
    Ok(())
}

// The place among the texts of the node's value, where the node may get this one.
fn value_rank<L: Ledger>(
    alloc: Global,
    store: &Store,
    marks: &mut Marks,
    number: u64,
    value: &[u8],
    steps: &mut Steps<L>,
) -> Result<u64, EditError>
    requires store { (t : Tree) × IsStoreFor store.now t }
    requires marks { AreMarks store.now.names store.now.grammar.rules marks.old }
    ensures allowed { IfOk result (λ rank. (t : Tree) → IsStoreFor store.now t → IsAllowed t (Value number value.now)) }
    ensures rank { IfOk result (λ rank. (t : Tree) → IsStoreFor store.now t → Some rank ≡ text_rank_at t number) }
    ensures refused { IfErr result (λ error. (t : Tree) → IsStoreFor store.now t → IsRefusedFor error t (Value number value.now)) }
    ensures marks { AreMarks store.now.names store.now.grammar.rules marks.new }
{
    let spot = spot_at(alloc, store, marks, number, steps)?;
    let Some((kind, name)) = store.names.at(spot.symbol()) else {
        unreachable!()
    };
    if may_have_value(kind, name, value) {
        Ok(spot.text_rank())
    } else {
        Err(EditError::NotAllowed { kind })
    }
}

// Whether a node of this kind, which has this name, may get the value.
fn may_have_value(kind: Kind, name: &[u8], value: &[u8]) -> bool
    requires { IsLawfulName kind name.now }
    ensures { IsTrue result ↔ MayHaveValue value.now kind }
{
    match kind {
        Kind::Document | Kind::Element => false,
        Kind::Attribute => true,
        Kind::Text | Kind::Comment | Kind::Instruction => lawful(kind, name, value),
    }
}
