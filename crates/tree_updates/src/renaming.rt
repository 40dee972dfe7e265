// A node of a store gets another name.
ghost use Rattle.std.specs.Prelude.{◌≡◌, ◌↔◌, ◌+◌, ◌≤◌, IfOk, IfErr, OnOk, IsTrue, Some, ℕ, List, length};
ghost use Rattle.plain_tree.specs.declared.kind.Kind.{Kind};
ghost use Rattle.plain_tree.specs.Allowed.{IsAllowed};
ghost use Rattle.plain_tree.specs.Lawful.{IsName};
ghost use Rattle.plain_tree.specs.Tree.{Tree};
ghost use Rattle.plain_tree.specs.declared.edit.Edit.TheVariants.{Rename};
ghost use Rattle.digram_index.specs.Linked.{IsIndexOf};
ghost use Rattle.path_isolation.specs.Isolations.{room_along};
ghost use Rattle.preorder_address.specs.Marks.{AreMarks, MarksFirst};
ghost use Rattle.preorder_address.specs.Spots.{IsSpot};
ghost use Rattle.preorder_address.specs.TreeNumbers.{kind_at};
ghost use Rattle.tree_updates.specs.Stores.{Applies, IsRefusedFor, IsStoreFor};

use crate::isolating::relabel_node;
use crate::kid_attributes::{element_of, find_attribute};
use crate::moving_marks::{move_marks, whole_weights};
use crate::node_spots::spot_at;
use crate::store::{EditError, Store};
use crate::sweeping::sweep_uncalled;
use digram_index::Index;
use path_isolation::nodes_along;
use plain_tree::Kind;
use preorder_address::{Marks, Numbering, Spot};
use read_steps::Steps;
use slt_grammar::Grammar;
use std::alloc::{AllocError, Global};
use std::sync::ledger::Ledger;
use xml_nodes::is_lawful_name;

// A node that may get a name.
#[derive(Drop)]
struct Nameable {
    spot: Spot,
    kind: Kind,
}

/// The node with this number of the store's document gets this name, which is a Name of XML: an element any, an attribute one that no other
/// attribute of its element has, an instruction a target. It reads the way to the node, how often each rule is called and, at an attribute,
/// the ways to those before it, to its element, and to those up to one that has the name. `EditError` says when it is refused; the document and
/// its rules stay then. It is refused for want of memory at any time, and the name may be in the table then.
pub(crate) fn rename<L: Ledger>(
    alloc: Global,
    store: &mut Store,
    marks: &mut Marks,
    number: u64,
    name: &[u8],
    steps: &mut Steps<L>,
) -> Result<(), EditError>
    requires store { (t : Tree) × IsStoreFor store.old t }
    requires name { IsName name.now }
    requires marks { AreMarks store.old.names store.old.grammar.rules marks.old }
    ensures applies { (t : Tree) → IsStoreFor store.old t → Applies t (Rename number name.now) store.old result store.new }
    ensures marks { AreMarks store.old.names store.new.grammar.rules marks.new }
{
    // The call tells what is true of every grammar.
    let _limit = store.grammar.limit();
    let found = find_nameable(alloc, store, marks, number, name, steps)?;
    let named = store.names.len();
    let had = whole_weights(&store.counts);
    let symbol = store.names.intern(alloc, found.kind, name)?;
    make_room(&mut store.grammar, &mut store.index, &found.spot, steps)?;
    relabel_node(
        &mut store.grammar,
        &mut store.index,
        &found.spot,
        symbol,
        steps,
    );
    let levels = found.spot.levels();
    move_marks(marks, store, named, Numbering::Nodes, number, levels, had);
    sweep_uncalled(&mut store.grammar, &mut store.index, &mut store.counts);
    Ok(())
}

// Makes room for isolating a node and giving it another symbol.
fn make_room<L: Ledger>(
    grammar: &mut Grammar,
    index: &mut Index,
    spot: &Spot,
    steps: &mut Steps<L>,
) -> Result<(), AllocError>
    requires spot { (names : List (Kind × List ℕ)) × (number : ℕ) × IsSpot names grammar.old.rules number spot.now }
    requires index { IsIndexOf grammar.old index.old }
    ensures rules { grammar.new.rules ≡ grammar.old.rules }
    ensures index { IsIndexOf grammar.new index.new }
    ensures nodes { OnOk result (room_along grammar.new.rules spot.now.levels.items ≤ grammar.new.spare_nodes) }
    ensures links { OnOk result (room_along grammar.new.rules spot.now.levels.items + 3 ≤ index.new.spare_links) }
    ensures cells { OnOk result (grammar.new.limit ≤ length index.new.cells) }
{
    // The call tells what is true of every grammar.
    let _limit = grammar.limit();
    let way = spot.way();
    let nodes = nodes_along(grammar, way, steps);
    grammar.reserve(nodes, 0)?;
    index.reserve(grammar, nodes + 3, 0)
}

// The node's spot and kind, where it may get the name.
fn find_nameable<L: Ledger>(
    alloc: Global,
    store: &Store,
    marks: &mut Marks,
    number: u64,
    name: &[u8],
    steps: &mut Steps<L>,
) -> Result<Nameable, EditError>
    requires store { (t : Tree) × IsStoreFor store.now t }
    requires name { IsName name.now }
    requires marks { AreMarks store.now.names store.now.grammar.rules marks.old }
    ensures spot { IfOk result (λ found. IsSpot store.now.names store.now.grammar.rules number found.spot) }
    ensures kind { IfOk result (λ found. (t : Tree) → IsStoreFor store.now t → Some found.kind ≡ kind_at t number) }
    ensures allowed { IfOk result (λ found. (t : Tree) → IsStoreFor store.now t → IsAllowed t (Rename number name.now)) }
    ensures refused { IfErr result (λ error. (t : Tree) → IsStoreFor store.now t → IsRefusedFor error t (Rename number name.now)) }
    ensures marks { AreMarks store.now.names store.now.grammar.rules marks.new }
    ensures first { IfOk result (λ found. MarksFirst store.now.names store.now.grammar.rules found.spot.levels.items found.spot.first) }
{
    let spot = spot_at(alloc, store, marks, number, steps)?;
    let Some(kind) = spot.kind(&store.names) else {
        unreachable!()
    };
    if may_be_named(alloc, store, marks, number, &spot, kind, name, steps)? {
        Ok(Nameable { spot, kind })
    } else {
        Err(EditError::NotAllowed { kind })
    }
}

// Whether the node, which has this kind, may get the name.
fn may_be_named<L: Ledger>(
    alloc: Global,
    store: &Store,
    marks: &mut Marks,
    number: u64,
    spot: &Spot,
    kind: Kind,
    name: &[u8],
    steps: &mut Steps<L>,
) -> Result<bool, AllocError>
    requires store { (t : Tree) × IsStoreFor store.now t × (Some kind ≡ kind_at t number) }
    requires spot { IsSpot store.now.names store.now.grammar.rules number spot.now }
    requires name { IsName name.now }
    requires marks { AreMarks store.now.names store.now.grammar.rules marks.old }
    ensures allowed { IfOk result (λ may. (t : Tree) → IsStoreFor store.now t → Some kind ≡ kind_at t number → (IsTrue may ↔ IsAllowed t (Rename number name.now))) }
    ensures marks { AreMarks store.now.names store.now.grammar.rules marks.new }
{
    match kind {
        Kind::Element => Ok(true),
        Kind::Instruction => Ok(is_lawful_name(kind, name)),
        Kind::Attribute => is_alone(alloc, store, marks, number, spot, name, steps),
        _ => Ok(false),
    }
}

// Whether no other attribute of the attribute's element has the name.
fn is_alone<L: Ledger>(
    alloc: Global,
    store: &Store,
    marks: &mut Marks,
    number: u64,
    spot: &Spot,
    name: &[u8],
    steps: &mut Steps<L>,
) -> Result<bool, AllocError>
    requires store { (t : Tree) × IsStoreFor store.now t × (Some Kind.Attribute ≡ kind_at t number) }
    requires spot { IsSpot store.now.names store.now.grammar.rules number spot.now }
    requires marks { AreMarks store.now.names store.now.grammar.rules marks.old }
    ensures allowed { IfOk result (λ alone. (t : Tree) → IsStoreFor store.now t → Some Kind.Attribute ≡ kind_at t number → (IsTrue alone ↔ IsAllowed t (Rename number name.now))) }
    ensures marks { AreMarks store.now.names store.now.grammar.rules marks.new }
{
    let Some(symbol) = store.names.find(Kind::Attribute, name) else {
        return Ok(true);
    };
    if spot.symbol() == symbol {
        return Ok(true);
    }
    let element = element_of(alloc, store, marks, number, steps)?;
    let place = find_attribute(alloc, store, marks, element, name, steps)?;
    Ok(!place.found)
}
