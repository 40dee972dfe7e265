// Where texts meet by an edit.
ghost use Rattle.std.specs.Prelude.{◌≡◌, ◌-◌, ◌<◌, IfOk, IfSome, is_some};
ghost use Rattle.plain_tree.specs.Siblings.{from_node, text_before};
ghost use Rattle.plain_tree.specs.Tree.{Tree, none, more};
ghost use Rattle.preorder_address.specs.Marks.{AreMarks};
ghost use Rattle.preorder_address.specs.Spots.{IsSpot};
ghost use Rattle.tree_updates.specs.CallAnswers.{is_text};
ghost use Rattle.tree_updates.specs.Stores.{IsStoreFor};

use crate::node_spots::spot_there;
use crate::store::Store;
use plain_tree::Kind;
use preorder_address::{Marks, Spot};
use read_steps::Steps;
use std::alloc::{AllocError, Global};
use std::sync::ledger::Ledger;

// The spot of the sibling just before the spot's node, where that is a text. A text has no kids, so it has the number before and two labels.
pub(crate) fn text_before<L: Ledger>(
    alloc: Global,
    store: &Store,
    marks: &mut Marks,
    number: u64,
    spot: &Spot,
    steps: &mut Steps<L>,
) -> Result<Option<Spot>, AllocError>
    requires store { (t : Tree) × IsStoreFor store.now t }
    requires behind { 0 < number }
    requires spot { IsSpot store.now.names store.now.grammar.rules number spot.now }
    requires marks { AreMarks store.now.names store.now.grammar.rules marks.old }
    ensures spot { IfOk result (λ left. IfSome left (IsSpot store.now.names store.now.grammar.rules (number - 1))) }
    ensures before { IfOk result (λ left. (t : Tree) → IsStoreFor store.now t → is_some left ≡ text_before (from_node (number - 1) (more t none))) }
    ensures marks { AreMarks store.now.names store.now.grammar.rules marks.new }
{
    let left = spot_there(alloc, store, marks, number - 1, steps)?;
    if !is_text(left.kind(&store.names)) {
        return Ok(None);
    }
    if left.place() + 2 != spot.place() {
        return Ok(None);
    }
    Ok(Some(left))
}

pub(crate) fn is_text(kind: Option<Kind>) -> bool
    ensures { result ≡ is_text kind }
{
    matches!(kind, Some(Kind::Text))
}
