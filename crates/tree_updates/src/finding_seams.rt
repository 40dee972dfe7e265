// Where texts meet by an insertion.
ghost use Rattle.std.specs.Prelude.{◌≡◌, ◌<◌, ◌&&◌, IfOk, is_some, option_map, slice_get};
ghost use Rattle.plain_tree.specs.Numbers.{kind_of};
ghost use Rattle.plain_tree.specs.Tree.{Tree};
ghost use Rattle.preorder_address.specs.Marks.{AreMarks};
ghost use Rattle.preorder_address.specs.Spots.{IsSpot};
ghost use Rattle.tree_updates.specs.Joinings.{AreSeams, front_value};
ghost use Rattle.tree_updates.specs.Stores.{IsStoreFor};

use crate::joining::Seams;
use crate::meeting::{is_text, text_before};
use crate::store::Store;
use plain_tree::{Kind, Nodes};
use preorder_address::{Marks, Spot};
use read_steps::Steps;
use std::alloc::{AllocError, Global};
use std::sync::ledger::Ledger;

// The seams of a fragment before the spot's node.
pub(crate) fn find_seams<L: Ledger>(
    alloc: Global,
    store: &Store,
    marks: &mut Marks,
    number: u64,
    spot: &Spot,
    fragment: &Nodes,
    steps: &mut Steps<L>,
) -> Result<Seams, AllocError>
    requires store { (t : Tree) × IsStoreFor store.now t }
    requires behind { 0 < number }
    requires spot { IsSpot store.now.names store.now.grammar.rules number spot.now }
    requires marks { AreMarks store.now.names store.now.grammar.rules marks.old }
    ensures seams { IfOk result (λ seams. (t : Tree) → IsStoreFor store.now t → AreSeams t number fragment.now seams) }
    ensures marks { AreMarks store.now.names store.now.grammar.rules marks.new }
{
    let front = meets_front(alloc, store, marks, number, spot, fragment, steps)?;
    let last = is_text(kind_in(fragment, fragment.len().saturating_sub(1)));
    let here = is_text(spot.kind(&store.names));
    Ok(Seams {
        front,
        back: both(last, here),
    })
}

// Whether a text stands before the spot's node and the fragment begins with one.
fn meets_front<L: Ledger>(
    alloc: Global,
    store: &Store,
    marks: &mut Marks,
    number: u64,
    spot: &Spot,
    fragment: &Nodes,
    steps: &mut Steps<L>,
) -> Result<bool, AllocError>
    requires store { (t : Tree) × IsStoreFor store.now t }
    requires behind { 0 < number }
    requires spot { IsSpot store.now.names store.now.grammar.rules number spot.now }
    requires marks { AreMarks store.now.names store.now.grammar.rules marks.old }
    ensures meets { IfOk result (λ meets. (t : Tree) → IsStoreFor store.now t → meets ≡ is_some (front_value t number fragment.now)) }
    ensures marks { AreMarks store.now.names store.now.grammar.rules marks.new }
{
    if !is_text(kind_in(fragment, 0)) {
        return Ok(false);
    }
    let before = text_before(alloc, store, marks, number, spot, steps)?;
    Ok(before.is_some())
}

fn both(first: bool, second: bool) -> bool
    ensures { result ≡ first && second }
{
    first && second
}

fn kind_in(fragment: &Nodes, at: usize) -> Option<Kind>
    ensures { result ≡ option_map kind_of (slice_get fragment.now at) }
{
    match fragment.get(at) {
        Some(node) => Some(node.kind),
        None => None,
    }
}
