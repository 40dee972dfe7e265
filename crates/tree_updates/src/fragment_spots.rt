// Nodes before which a fragment may come.
ghost use Rattle.std.specs.Prelude.{◌≡◌, ◌↔◌, ◌<◌, ◌^◌, IsTrue, IfOk, MatchResult, Some};
ghost use Rattle.plain_tree.specs.Allowed.{IsAllowed};
ghost use Rattle.plain_tree.specs.Lawful.{IsDocument};
ghost use Rattle.plain_tree.specs.Tree.{Tree, node_count};
ghost use Rattle.plain_tree.specs.declared.edit.Edit.TheVariants.{Insert};
ghost use Rattle.preorder_address.specs.Marks.{AreMarks, MarksFirst};
ghost use Rattle.preorder_address.specs.Spots.{IsSpot, place_at};
ghost use Rattle.preorder_address.specs.TreeNumbers.{kind_at};
ghost use Rattle.tree_updates.specs.Stores.{IsRefusedFor, IsStoreFor};

use crate::fragment_kinds::may_stand_under;
use crate::node_spots::spot_at;
use crate::spare_node::is_attribute;
use crate::spot_places::kind_above;
use crate::store::{EditError, Store};
use plain_tree::{Kind, Nodes};
use preorder_address::{Marks, Spot};
use read_steps::Steps;
use std::alloc::Global;
use std::sync::ledger::Ledger;

// The spot of the node with this number, where the fragment may come before it. It is refused where there is no such node, where the node is
// the document or an attribute, where it stands under the document and the fragment has a text or an element, and for want of memory.
pub(crate) fn spot_beside<L: Ledger>(
    alloc: Global,
    store: &Store,
    marks: &mut Marks,
    number: u64,
    fragment: &Nodes,
    steps: &mut Steps<L>,
) -> Result<Spot, EditError>
    requires store { (t : Tree) × IsStoreFor store.now t }
    requires marks { AreMarks store.now.names store.now.grammar.rules marks.old }
    ensures spot { IfOk result (IsSpot store.now.names store.now.grammar.rules number) }
    ensures answer { (t : Tree) → IsStoreFor store.now t → MatchResult result (λ _. IsAllowed t (Insert number fragment.now)) (λ error. IsRefusedFor error t (Insert number fragment.now)) }
    ensures marks { AreMarks store.now.names store.now.grammar.rules marks.new }
    ensures first { IfOk result (λ spot. MarksFirst store.now.names store.now.grammar.rules spot.levels.items spot.first) }
{
    let spot = spot_at(alloc, store, marks, number, steps)?;
    let Some(kind) = spot.kind(&store.names) else {
        unreachable!()
    };
    if !may_stand_beside(number, kind, spot.place(), fragment) {
        return Err(EditError::NotAllowed { kind });
    }
    Ok(spot)
}

// Whether the fragment may come before a node of this kind at this place.
fn may_stand_beside(number: u64, kind: Kind, place: u64, fragment: &Nodes) -> bool
    requires few { number < 2 ^ 63 }
    ensures may { (t : Tree) → IsDocument t → number < node_count t → kind_at t number ≡ Some kind → Some place ≡ place_at t number
        → (IsTrue result ↔ IsAllowed t (Insert number fragment.now)) }
{
    if number == 0 {
        return false;
    }
    if is_attribute(kind) {
        return false;
    }
    may_stand_under(kind_above(number, place), fragment)
}
