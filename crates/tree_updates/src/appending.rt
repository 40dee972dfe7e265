// A fragment that comes behind the last kid of a node.
ghost use Rattle.std.specs.Prelude.{◌≡◌, IfOk, OnErr, OnOk, MatchResult};
ghost use Rattle.plain_tree.specs.declared.edit.Edit.TheVariants.{Append};
ghost use Rattle.plain_tree.specs.Allowed.{IsAllowed};
ghost use Rattle.plain_tree.specs.EditLaws.{IsEditOf};
ghost use Rattle.plain_tree.specs.Edits.{edited, placed};
ghost use Rattle.plain_tree.specs.Lawful.{IsFragment};
ghost use Rattle.plain_tree.specs.Tree.{Tree, trees};
ghost use Rattle.preorder_address.specs.Marks.{AreMarks, MarksFirst};
ghost use Rattle.preorder_address.specs.Spots.{IsSpot};
ghost use Rattle.start_fronts.specs.Moved.{MovesBefore};
ghost use Rattle.segment_counts.specs.Weights.{all_weight};
ghost use Rattle.tree_updates.specs.CodePlaces.{IsPlaceSpot};
ghost use Rattle.tree_updates.specs.Extents.{IsCodedBy};
ghost use Rattle.tree_updates.specs.FragmentGrowths.{IsEndSite};
ghost use Rattle.tree_updates.specs.Fronts.{first_keys};
ghost use Rattle.tree_updates.specs.Stores.{Applies, IsRefusedFor, IsStoreFor};

use crate::appending_joined::{append_joined, meeting_kid};
use crate::fragment_growing::{end_site, fragment_growth};
use crate::fragment_kinds::may_stand_under;
use crate::fragment_nodes::count_nodes;
use crate::growing::{Site, TOO_MANY, grow};
use crate::moving_marks::{move_marks, whole_weights};
use crate::node_extent::extent_of;
use crate::node_spots::spot_at;
use crate::place_spots::{PlaceSpot, find_place};
use crate::store::{EditError, Store};
use plain_tree::Nodes;
use preorder_address::{Marks, Numbering, Spot};
use read_steps::Steps;
use std::alloc::Global;
use std::sync::ledger::Ledger;

/// Puts the fragment behind the last kid of the node with this number, an element or, for comments and instructions alone, the document. Where
/// that kid and the first of the fragment are texts, they become one. It reads the way to the node, how many nodes and texts are below it, and
/// how often each rule is called. `EditError` says when it is refused; the document and its rules stay then. It is refused for want of memory
/// at any time, and some first ones of the fragment's names may be in the table then.
pub(crate) fn append<L: Ledger>(
    alloc: Global,
    store: &mut Store,
    marks: &mut Marks,
    number: u64,
    fragment: &Nodes,
    steps: &mut Steps<L>,
) -> Result<(), EditError>
    requires store { (t : Tree) × IsStoreFor store.old t }
    requires fragment { IsFragment (trees fragment.now) }
    requires marks { AreMarks store.old.names store.old.grammar.rules marks.old }
    ensures applies { (t : Tree) → IsStoreFor store.old t → Applies t (Append number fragment.now) store.old result store.new }
    ensures marks { AreMarks store.old.names store.new.grammar.rules marks.new }
{
    // The call tells what is true of every grammar.
    let _limit = store.grammar.limit();
    let spot = host_spot(alloc, store, marks, number, fragment, steps)?;
    let extent = extent_of(alloc, store, marks, number, &spot, steps)?;
    let site = end_site(store, number, &spot, extent);
    let meeting = meeting_kid(alloc, store, marks, number, &spot, extent, fragment, steps)?;
    let end = find_place(alloc, store, marks, site.place, steps)?;
    let named = store.names.len();
    let had = whole_weights(&store.counts);
    match meeting {
        None => {
            append_apart(alloc, store, number, site, &end, fragment, steps)?;
            move_marks(
                marks,
                store,
                named,
                Numbering::All,
                site.place,
                end.levels(),
                had,
            );
            Ok(())
        }
        Some(last) => {
            append_joined(alloc, store, number, &last, site, &end, fragment, steps)?;
            move_marks(
                marks,
                store,
                named,
                Numbering::All,
                site.place,
                end.levels(),
                had,
            );
            Ok(())
        }
    }
}

// The spot of the node with this number, under which the fragment may come to stand.
fn host_spot<L: Ledger>(
    alloc: Global,
    store: &Store,
    marks: &mut Marks,
    number: u64,
    fragment: &Nodes,
    steps: &mut Steps<L>,
) -> Result<Spot, EditError>
    requires store { (t : Tree) × IsStoreFor store.now t }
    requires marks { AreMarks store.now.names store.now.grammar.rules marks.old }
    ensures spot { IfOk result (IsSpot store.now.names store.now.grammar.rules number) }
    ensures answer { (t : Tree) → IsStoreFor store.now t → MatchResult result (λ _. IsAllowed t (Append number fragment.now)) (λ error. IsRefusedFor error t (Append number fragment.now)) }
    ensures marks { AreMarks store.now.names store.now.grammar.rules marks.new }
    ensures first { IfOk result (λ spot. MarksFirst store.now.names store.now.grammar.rules spot.levels.items spot.first) }
{
    let spot = spot_at(alloc, store, marks, number, steps)?;
    let Some(kind) = spot.kind(&store.names) else {
        unreachable!()
    };
    if !may_stand_under(kind, fragment) {
        return Err(EditError::NotAllowed { kind });
    }
    Ok(spot)
}

// Puts the fragment at the site behind the last kid of a node, where no texts meet by that. All memory is taken first.
fn append_apart<L: Ledger>(
    alloc: Global,
    store: &mut Store,
    number: u64,
    site: Site,
    spot: &PlaceSpot,
    fragment: &Nodes,
    steps: &mut Steps<L>,
) -> Result<(), EditError>
    requires store { (t : Tree) × IsStoreFor store.old t × IsEditOf t (Append number fragment.now) }
    requires site { (t : Tree) → IsCodedBy store.old t → IsEndSite t number site }
    requires spot { IsPlaceSpot store.old.grammar.rules site.place spot.now }
    ensures applies { (t : Tree) → IsStoreFor store.old t → IsEditOf t (Append number fragment.now) → edited t (Append number fragment.now) ≡ placed t (Append number fragment.now)
        → Applies t (Append number fragment.now) store.old result store.new }
    ensures moves { OnOk result (MovesBefore all_weight (first_keys spot.now.levels.items) site.place store.old.grammar.rules store.new.grammar.rules) }
    ensures rules { OnErr result (store.new.grammar.rules ≡ store.old.grammar.rules) }
{
    // The call tells what is true of every grammar.
    let _limit = store.grammar.limit();
    let nodes = fragment.as_slice();
    let count = count_nodes(alloc, nodes)?;
    if count >= TOO_MANY - store.counts.total() {
        return Err(EditError::TooMany);
    }
    let growth = fragment_growth(alloc, &mut store.names, site, count, nodes)?;
    grow(store, growth, spot, steps)?;
    Ok(())
}
