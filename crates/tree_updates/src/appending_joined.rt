// A fragment that comes behind the last kid of a node, where that kid and the fragment's first node are texts.
ghost use Rattle.std.specs.Prelude.{◌≡◌, ◌++◌, ℕ, List, IfNone, IfOk, IfSome, OnErr, OnOk, Some};
ghost use Rattle.plain_tree.specs.declared.edit.Edit.TheVariants.{Append};
ghost use Rattle.plain_tree.specs.EditLaws.{IsEditOf};
ghost use Rattle.plain_tree.specs.Edits.{edited, placed};
ghost use Rattle.plain_tree.specs.Siblings.{begins_text};
ghost use Rattle.plain_tree.specs.Tree.{Tree, trees};
ghost use Rattle.preorder_address.specs.Marks.{AreMarks};
ghost use Rattle.preorder_address.specs.Spots.{IsSpot};
ghost use Rattle.preorder_address.specs.TreeNumbers.{text_rank_at};
ghost use Rattle.start_fronts.specs.Moved.{MovesBefore};
ghost use Rattle.segment_counts.specs.Weights.{all_weight};
ghost use Rattle.tree_updates.specs.CodePlaces.{IsPlaceSpot};
ghost use Rattle.tree_updates.specs.Extents.{IsCodedBy, IsExtentOf};
ghost use Rattle.tree_updates.specs.Fronts.{first_keys};
ghost use Rattle.tree_updates.specs.FragmentGrowths.{IsEndSite, MeetsAtEnd};
ghost use Rattle.tree_updates.specs.Stores.{Applies, IsStoreFor};

use crate::deleting_between::{JoinedText, joined_bytes, text_at};
use crate::fragment_growing::fragment_growth;
use crate::fragment_nodes::count_nodes;
use crate::growing::{Site, TOO_MANY, grow_joined};
use crate::meeting::is_text;
use crate::node_extent::Extent;
use crate::node_spots::spot_there;
use crate::place_spots::PlaceSpot;
use crate::store::{EditError, Store};
use plain_tree::{Node, Nodes};
use preorder_address::{Marks, Spot};
use read_steps::Steps;
use std::alloc::{AllocError, Global};
use std::sync::ledger::Ledger;

// A text that is the last kid of a node: its number and its spot.
#[derive(Drop)]
pub(crate) struct LastText {
    pub(crate) number: u64,
    pub(crate) spot: Spot,
}

// The last kid of the spot's node, which has this extent, where that kid is a text and the first of the fragment is one too.
pub(crate) fn meeting_kid<L: Ledger>(
    alloc: Global,
    store: &Store,
    marks: &mut Marks,
    number: u64,
    spot: &Spot,
    extent: Extent,
    fragment: &Nodes,
    steps: &mut Steps<L>,
) -> Result<Option<LastText>, AllocError>
    requires store { (t : Tree) × IsStoreFor store.now t × IsEditOf t (Append number fragment.now) }
    requires spot { IsSpot store.now.names store.now.grammar.rules number spot.now }
    requires extent { (t : Tree) → IsCodedBy store.now t → IsExtentOf t number extent }
    requires marks { AreMarks store.now.names store.now.grammar.rules marks.old }
    ensures apart { IfOk result (λ kid. IfNone kid ((t : Tree) → IsStoreFor store.now t → IsEditOf t (Append number fragment.now)
        → edited t (Append number fragment.now) ≡ placed t (Append number fragment.now))) }
    ensures meets { IfOk result (λ kid. IfSome kid (λ last. (t : Tree) → IsStoreFor store.now t → IsEditOf t (Append number fragment.now)
        → MeetsAtEnd t number last.number fragment.now)) }
    ensures spot { IfOk result (λ kid. IfSome kid (λ last. IsSpot store.now.names store.now.grammar.rules last.number last.spot)) }
    ensures marks { AreMarks store.now.names store.now.grammar.rules marks.new }
{
    if !begins_with_text(fragment) {
        return Ok(None);
    }
    let below = extent.nodes - 1;
    if below == 0 {
        return Ok(None);
    }
    let last = number + below;
    let kid = spot_there(alloc, store, marks, last, steps)?;
    if !is_text(kid.kind(&store.names)) {
        return Ok(None);
    }
    // The bottom of a last kid stands just before that of all kids.
    if kid.place() + 1 != spot.place() + 2 * below {
        return Ok(None);
    }
    Ok(Some(LastText {
        number: last,
        spot: kid,
    }))
}

// Whether the first node of a fragment is a text.
fn begins_with_text(fragment: &Nodes) -> bool
    ensures { result ≡ begins_text (trees fragment.now) }
{
    let [first, ..] = fragment.as_slice() else {
        return false;
    };
    is_text(Some(first.kind))
}

// Puts the fragment behind a text, which is the last kid of a node: that text and the first of the fragment become one, and the others come behind
// it, at the site there. All memory is taken first; in this order no document on the way has more nodes than the last.
pub(crate) fn append_joined<L: Ledger>(
    alloc: Global,
    store: &mut Store,
    number: u64,
    last: &LastText,
    site: Site,
    spot: &PlaceSpot,
    fragment: &Nodes,
    steps: &mut Steps<L>,
) -> Result<(), EditError>
    requires store { (t : Tree) × IsStoreFor store.old t × IsEditOf t (Append number fragment.now) × MeetsAtEnd t number last.now.number fragment.now }
    requires site { (t : Tree) → IsCodedBy store.old t → IsEndSite t number site }
    requires last { IsSpot store.old.names store.old.grammar.rules last.now.number last.now.spot }
    requires spot { IsPlaceSpot store.old.grammar.rules site.place spot.now }
    ensures applies { (t : Tree) → IsStoreFor store.old t → IsEditOf t (Append number fragment.now) → MeetsAtEnd t number last.now.number fragment.now
        → Applies t (Append number fragment.now) store.old result store.new }
    ensures moves { OnOk result (MovesBefore all_weight (first_keys spot.now.levels.items) site.place store.old.grammar.rules store.new.grammar.rules) }
    ensures rules { OnErr result (store.new.grammar.rules ≡ store.old.grammar.rules) }
{
    // The call tells what is true of every grammar.
    let _limit = store.grammar.limit();
    let [first, others @ ..] = fragment.as_slice() else {
        unreachable!()
    };
    let count = count_nodes(alloc, others)?;
    if count >= TOO_MANY - store.counts.total() {
        return Err(EditError::TooMany);
    }
    let joined = join_end(alloc, store, last, first)?;
    let growth = fragment_growth(alloc, &mut store.names, site, count, others)?;
    grow_joined(store, joined, growth, spot, steps)?;
    Ok(())
}

// What is to be of a text that is a last kid and another, which is to come behind it. Memory is asked for the bytes.
fn join_end(
    alloc: Global,
    store: &Store,
    last: &LastText,
    other: &Node,
) -> Result<JoinedText, AllocError>
    requires store { (t : Tree) × (n : ℕ) × (F : List Tree) × IsStoreFor store.now t × MeetsAtEnd t n last.now.number F }
    requires last { IsSpot store.now.names store.now.grammar.rules last.now.number last.now.spot }
    ensures rank { IfOk result (λ joined. (t : Tree) (n : ℕ) (F : List Tree) → IsStoreFor store.now t → MeetsAtEnd t n last.now.number F
        → Some joined.rank ≡ text_rank_at t last.now.number) }
    ensures value { IfOk result (λ joined. (t : Tree) (n : ℕ) (F : List Tree) (m : MeetsAtEnd t n last.now.number F) → IsStoreFor store.now t
        → joined.value ≡ m.before ++ other.now.value) }
{
    let before = text_at(store, &last.spot);
    let value = joined_bytes(alloc, before, other.value.as_slice())?;
    Ok(JoinedText {
        rank: last.spot.text_rank(),
        value,
    })
}
