// A node that goes from between two texts, which become one.
ghost use Rattle.std.specs.Prelude.{◌≡◌, ◌<◌, ◌≤◌, ◌+◌, ◌-◌, ◌++◌, ◌∷◌, [], ℕ, List, Some, IfOk, OnOk, length};
ghost use Rattle.plain_tree.specs.Allowed.{IsAllowed};
ghost use Rattle.plain_tree.specs.declared.edit.Edit.TheVariants.{Delete};
ghost use Rattle.plain_tree.specs.declared.kind.Kind.{Kind};
ghost use Rattle.plain_tree.specs.declared.kind.Kind.TheVariants.{Text};
ghost use Rattle.plain_tree.specs.Siblings.{from_node};
ghost use Rattle.plain_tree.specs.Tree.{Tree, Trees, node, none, more};
ghost use Rattle.slt_grammar.specs.Keyed.{Keyed};
ghost use Rattle.path_isolation.specs.Isolations.{room_along};
ghost use Rattle.preorder_address.specs.Marks.{AreMarks, MarksFirst};
ghost use Rattle.preorder_address.specs.Spots.{IsSpot};
ghost use Rattle.preorder_address.specs.TreeNumbers.{text_rank_at};
ghost use Rattle.tree_updates.specs.Extents.{AreBeside, IsExtentOf};
ghost use Rattle.tree_updates.specs.Stores.{Applies, IsStoreFor};
ghost use Rattle.tree_updates.specs.Ways.{HasNode, room_to};

use crate::meeting_text::Neighbours;
use crate::node_extent::{Extent, text_extent};
use crate::room::reserve_room;
use crate::store::{EditError, Store};
use crate::sweeping::sweep;
use crate::taking_out::{take_out, take_out_located};
use path_isolation::{nodes_along, nodes_elsewhere};
use plain_tree::Bytes;
use preorder_address::{Marks, Spot};
use read_steps::Steps;
use std::alloc::{AllocError, Global};
use std::sync::ledger::Ledger;

// The place of a text among the texts, and what it is with the text that it meets.
#[derive(Drop)]
pub(crate) struct JoinedText {
    pub(crate) rank: u64,
    pub(crate) value: Bytes,
}

// Deletes the node with this number and extent, which stands between two texts: the left one gets the value of both, the right one goes, and then
// the node. All memory is taken first; in this order no document on the way has more nodes than the store's. The marks before the node's stay.
pub(crate) fn delete_between<L: Ledger>(
    alloc: Global,
    store: &mut Store,
    marks: &mut Marks,
    number: u64,
    extent: Extent,
    beside: &Neighbours,
    steps: &mut Steps<L>,
) -> Result<(), EditError>
    requires store { (t : Tree) × IsStoreFor store.old t × IsAllowed t (Delete number) × IsExtentOf t number extent × AreBeside store.old t number beside.now }
    requires marks { AreMarks store.old.names store.old.grammar.rules marks.old }
    requires first { MarksFirst store.old.names store.old.grammar.rules beside.now.right.levels.items beside.now.right.first }
    ensures applies { (t : Tree) → IsStoreFor store.old t → IsAllowed t (Delete number) → IsExtentOf t number extent → AreBeside store.old t number beside.now
        → Applies t (Delete number) store.old result store.new }
    ensures marks { AreMarks store.old.names store.new.grammar.rules marks.new }
{
    let joined = join_texts(alloc, store, beside)?;
    let right = text_extent(beside.right.text_rank());
    reserve_twice(store, &beside.right, steps)?;
    marks.cut(beside.right.first());
    store.texts.set(joined.rank, joined.value);
    // The calls tell what is true of every grammar.
    let _before = store.grammar.limit();
    take_out(store, beside.number, &beside.right, right, steps);
    let _between = store.grammar.limit();
    take_out_located(store, marks, number, extent, steps);
    sweep(store);
    Ok(())
}

// What is to be of the texts between which a node stands. Memory is asked for the bytes.
fn join_texts(alloc: Global, store: &Store, beside: &Neighbours) -> Result<JoinedText, AllocError>
    requires store { (t : Tree) × (n : ℕ) × IsStoreFor store.now t × AreBeside store.now t n beside.now }
    ensures rank { IfOk result (λ joined. (t : Tree) (n : ℕ) → IsStoreFor store.now t → AreBeside store.now t n beside.now → Some joined.rank ≡ text_rank_at t (n - 1)) }
    ensures value { IfOk result (λ joined. (t : Tree) (n : ℕ) (b : AreBeside store.now t n beside.now) → IsStoreFor store.now t
        → joined.value ≡ b.between.before ++ b.between.after) }
{
    let first = text_at(store, &beside.left);
    let second = text_at(store, &beside.right);
    let value = joined_bytes(alloc, first, second)?;
    Ok(JoinedText {
        rank: beside.left.text_rank(),
        value,
    })
}

// The first bytes with the second behind them.
pub(crate) fn joined_bytes(alloc: Global, first: &[u8], second: &[u8]) -> Result<Bytes, AllocError>
    ensures { IfOk result (λ joined. joined ≡ first.now ++ second.now) }
{
    let mut both = Vec::new(alloc);
    both.extend_from_slice(first)?;
    both.extend_from_slice(second)?;
    Bytes::from_slice(alloc, both.as_slice())
}

// The text that stands at a spot.
pub(crate) fn text_at<'a>(store: &'a Store, spot: &Spot) -> &'a [u8]
    requires store { (t : Tree) × (n : ℕ) × (v : List ℕ) × (us : Trees) × IsStoreFor store.now t × IsSpot store.now.names store.now.grammar.rules n spot.now
        × (from_node n (more t none) ≡ more (node Text [] v none) us) }
    ensures { (t : Tree) (n : ℕ) (v : List ℕ) (us : Trees) → IsStoreFor store.now t → IsSpot store.now.names store.now.grammar.rules n spot.now
        → from_node n (more t none) ≡ more (node Text [] v none) us → result.now ≡ v }
{
    store.texts.get(spot.text_rank()).unwrap()
}

// Makes room for one more text, and for isolating the spot's node and then another. The second way is known only once the first node is
// isolated, but it never needs more than the bodies of all rules but the start. The store stays.
fn reserve_twice<L: Ledger>(
    store: &mut Store,
    spot: &Spot,
    steps: &mut Steps<L>,
) -> Result<(), AllocError>
    requires spot { (names : List (Kind × List ℕ)) × (number : ℕ) × IsSpot names store.old.grammar.rules number spot.now }
    ensures nodes { OnOk result ((h : Keyed) (n : ℕ) → HasNode store.new.grammar.rules h n
        → room_along store.new.grammar.rules spot.now.levels.items + room_to h.rules n ≤ store.new.grammar.spare_nodes) }
    ensures links { OnOk result ((h : Keyed) (n : ℕ) → HasNode store.new.grammar.rules h n
        → room_along store.new.grammar.rules spot.now.levels.items + room_to h.rules n + 2 ≤ store.new.index.spare_links) }
    ensures cells { OnOk result (store.new.grammar.limit ≤ length store.new.index.cells) }
    ensures rules { store.new.grammar.rules ≡ store.old.grammar.rules }
    ensures room { OnOk result (0 < store.new.texts.room) }
    ensures texts { store.new.texts.texts ≡ store.old.texts.texts }
    ensures names { store.new.names ≡ store.old.names }
    ensures store { (t : Tree) → IsStoreFor store.old t → IsStoreFor store.new t }
{
    // The call tells what is true of every grammar.
    let _limit = store.grammar.limit();
    let first = nodes_along(&store.grammar, spot.way(), steps);
    let second = nodes_elsewhere(&store.grammar, steps);
    reserve_room(store, first + second + 1)?;
    store.texts.reserve(1)
}
