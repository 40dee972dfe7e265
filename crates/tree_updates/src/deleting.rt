// A node that goes with all below it.
ghost use Rattle.std.specs.Prelude.{◌≡◌, ◌≤◌, ◌+◌, ◌*◌, length};
ghost use Rattle.plain_tree.specs.Allowed.{IsAllowed};
ghost use Rattle.plain_tree.specs.declared.edit.Edit.TheVariants.{Delete};
ghost use Rattle.plain_tree.specs.Edits.{edited, placed};
ghost use Rattle.plain_tree.specs.Tree.{Tree};
ghost use Rattle.slt_grammar.specs.Grammars.{size};
ghost use Rattle.slt_grammar.specs.Keyed.{rules_of};
ghost use Rattle.slt_grammar.specs.Ranks.{greatest_rank};
ghost use Rattle.start_fronts.specs.Moved.{MovesBefore};
ghost use Rattle.segment_counts.specs.Weights.{node_weight};
ghost use Rattle.path_isolation.specs.Isolations.{room_along};
ghost use Rattle.preorder_address.specs.Marks.{AreMarks};
ghost use Rattle.preorder_address.specs.Spots.{IsSpot};
ghost use Rattle.tree_updates.specs.Extents.{IsExtentOf, IsUnsweptFor, LeavesDocument};
ghost use Rattle.tree_updates.specs.Fronts.{first_keys};
ghost use Rattle.tree_updates.specs.Stores.{Applies, IsStoreFor};

use crate::deleting_between::delete_between;
use crate::meeting_text::meeting_texts;
use crate::moving_marks::{move_marks, whole_weights};
use crate::node_extent::{Extent, span_of};
use crate::room::reserve_at;
use crate::spare_node::spare_spot;
use crate::store::{EditError, Store};
use crate::sweeping::sweep;
use crate::taking_out::take_out;
use preorder_address::{Marks, Numbering, Spot};
use read_steps::Steps;
use std::alloc::Global;
use std::sync::ledger::Ledger;

/// Takes the node with this number out of the document, with all below it. Where it stands between two texts, these become one. It is
/// refused where there is no such node, where the node is the document or the root element, and for want of memory: all of that is asked for
/// before the first change.
pub(crate) fn delete<L: Ledger>(
    alloc: Global,
    store: &mut Store,
    marks: &mut Marks,
    number: u64,
    steps: &mut Steps<L>,
) -> Result<(), EditError>
    requires store { (t : Tree) × IsStoreFor store.old t }
    requires marks { AreMarks store.old.names store.old.grammar.rules marks.old }
    ensures applies { (t : Tree) → IsStoreFor store.old t → Applies t (Delete number) store.old result store.new }
    ensures marks { AreMarks store.old.names store.new.grammar.rules marks.new }
{
    let spot = spare_spot(alloc, store, marks, number, steps)?;
    let span = span_of(alloc, store, marks, number, &spot, steps)?;
    let extent = span.extent;
    let found = meeting_texts(alloc, store, marks, number, &spot, span, steps)?;
    match found {
        None => delete_apart(store, marks, number, &spot, extent, steps),
        Some(beside) => delete_between(alloc, store, marks, number, extent, &beside, steps),
    }
}

// Deletes the spot's node, which has this extent, and at which no texts meet. All memory is taken first. The marks behind it move.
fn delete_apart<L: Ledger>(
    store: &mut Store,
    marks: &mut Marks,
    number: u64,
    spot: &Spot,
    extent: Extent,
    steps: &mut Steps<L>,
) -> Result<(), EditError>
    requires store { (t : Tree) × IsStoreFor store.old t × IsAllowed t (Delete number) × IsExtentOf t number extent }
    requires spot { IsSpot store.old.names store.old.grammar.rules number spot.now }
    requires marks { AreMarks store.old.names store.old.grammar.rules marks.old }
    ensures applies { (t : Tree) → IsStoreFor store.old t → IsAllowed t (Delete number) → IsExtentOf t number extent → edited t (Delete number) ≡ placed t (Delete number)
        → Applies t (Delete number) store.old result store.new }
    ensures marks { AreMarks store.old.names store.new.grammar.rules marks.new }
{
    // The call tells what is true of every grammar.
    let _limit = store.grammar.limit();
    reserve_at(store, spot, 0, 0, steps)?;
    let named = store.names.len();
    let had = whole_weights(&store.counts);
    delete_plain(store, number, spot, extent, steps);
    move_marks(
        marks,
        store,
        named,
        Numbering::Nodes,
        number,
        spot.levels(),
        had,
    );
    Ok(())
}

// Takes the spot's node out, which has this extent, with all below it. Texts that meet by it stay two. There is room for the nodes of the bodies
// of the spot's levels behind the first, for as many links and one more, so it takes no memory.
fn delete_plain<L: Ledger>(
    store: &mut Store,
    number: u64,
    spot: &Spot,
    extent: Extent,
    steps: &mut Steps<L>,
)
    requires store { (t : Tree) × IsUnsweptFor store.old t × IsExtentOf t number extent × LeavesDocument t (Delete number) }
    requires spot { IsSpot store.old.names store.old.grammar.rules number spot.now }
    requires room { room_along store.old.grammar.rules spot.now.levels.items ≤ store.old.grammar.spare_nodes }
    requires links { room_along store.old.grammar.rules spot.now.levels.items + 1 ≤ store.old.index.spare_links }
    requires cells { store.old.grammar.limit ≤ length store.old.index.cells }
    ensures store { (t : Tree) → IsUnsweptFor store.old t → IsExtentOf t number extent → LeavesDocument t (Delete number) → IsStoreFor store.new (placed t (Delete number)) }
    ensures names { store.new.names ≡ store.old.names }
    ensures size { size (rules_of store.new.grammar.rules) ≤ 2 * size (rules_of store.old.grammar.rules) }
    ensures ranks { greatest_rank (rules_of store.new.grammar.rules) ≤ greatest_rank (rules_of store.old.grammar.rules) }
    ensures moves { MovesBefore node_weight (first_keys spot.now.levels.items) number store.old.grammar.rules store.new.grammar.rules }
{
    take_out(store, number, spot, extent, steps);
    sweep(store);
}
