// Nodes that may go.
ghost use Rattle.std.specs.Prelude.{◌≡◌, ◌↔◌, ◌<◌, ◌^◌, IsTrue, IfOk, MatchResult, Some};
ghost use Rattle.plain_tree.specs.Allowed.{IsAllowed};
ghost use Rattle.plain_tree.specs.Lawful.{IsDocument};
ghost use Rattle.plain_tree.specs.Tree.{Tree, node_count};
ghost use Rattle.plain_tree.specs.declared.edit.Edit.TheVariants.{Delete};
ghost use Rattle.plain_tree.specs.declared.kind.Kind.TheVariants.{Attribute, Document, Element};
ghost use Rattle.preorder_address.specs.Marks.{AreMarks, MarksFirst};
ghost use Rattle.preorder_address.specs.Spots.{IsSpot, place_at};
ghost use Rattle.preorder_address.specs.TreeNumbers.{kind_at};
ghost use Rattle.tree_updates.specs.Stores.{IsRefusedFor, IsStoreFor};

use crate::node_spots::spot_at;
use crate::spot_places::kind_above;
use crate::store::{EditError, Store};
use plain_tree::Kind;
use preorder_address::{Marks, Spot};
use read_steps::Steps;
use std::alloc::Global;
use std::sync::ledger::Ledger;

// The spot of the node with this number, where it may go. It is refused where there is no such node, where the node is the document or the
// root element, and for want of memory.
pub(crate) fn spare_spot<L: Ledger>(
    alloc: Global,
    store: &Store,
    marks: &mut Marks,
    number: u64,
    steps: &mut Steps<L>,
) -> Result<Spot, EditError>
    requires store { (t : Tree) × IsStoreFor store.now t }
    requires marks { AreMarks store.now.names store.now.grammar.rules marks.old }
    ensures spot { IfOk result (IsSpot store.now.names store.now.grammar.rules number) }
    ensures answer { (t : Tree) → IsStoreFor store.now t → MatchResult result (λ _. IsAllowed t (Delete number)) (λ error. IsRefusedFor error t (Delete number)) }
    ensures marks { AreMarks store.now.names store.now.grammar.rules marks.new }
    ensures first { IfOk result (λ spot. MarksFirst store.now.names store.now.grammar.rules spot.levels.items spot.first) }
{
    let spot = spot_at(alloc, store, marks, number, steps)?;
    let Some(kind) = spot.kind(&store.names) else {
        unreachable!()
    };
    if !is_spare(number, kind, spot.place()) {
        return Err(EditError::NotAllowed { kind });
    }
    Ok(spot)
}

// Whether a node of this kind at this place is neither the document nor the root element.
fn is_spare(number: u64, kind: Kind, place: u64) -> bool
    requires few { number < 2 ^ 63 }
    ensures spare { (t : Tree) → IsDocument t → number < node_count t → kind_at t number ≡ Some kind → Some place ≡ place_at t number
        → (IsTrue result ↔ IsAllowed t (Delete number)) }
{
    if number == 0 {
        return false;
    }
    if !is_document(kind_above(number, place)) {
        return true;
    }
    !is_element(kind)
}

pub(crate) fn is_element(kind: Kind) -> bool
    ensures { IsTrue result ↔ kind ≡ Element }
{
    matches!(kind, Kind::Element)
}

pub(crate) fn is_attribute(kind: Kind) -> bool
    ensures { IsTrue result ↔ kind ≡ Attribute }
{
    matches!(kind, Kind::Attribute)
}

fn is_document(kind: Kind) -> bool
    ensures { IsTrue result ↔ kind ≡ Document }
{
    matches!(kind, Kind::Document)
}
