// The texts that meet where a node goes.
ghost use Rattle.std.specs.Prelude.{◌≡◌, ◌<◌, IfNone, IfOk, IfSome};
ghost use Rattle.plain_tree.specs.Edits.{edited, placed};
ghost use Rattle.plain_tree.specs.Tree.{Tree};
ghost use Rattle.plain_tree.specs.declared.edit.Edit.TheVariants.{Delete};
ghost use Rattle.preorder_address.specs.Marks.{AreMarks, MarksFirst};
ghost use Rattle.preorder_address.specs.Spots.{IsSpot};
ghost use Rattle.tree_updates.specs.CallAnswers.{is_text};
ghost use Rattle.tree_updates.specs.Extents.{AreBeside, IsSpanOf};
ghost use Rattle.tree_updates.specs.Stores.{IsStoreFor};

use crate::meeting::{is_text, text_before};
use crate::node_extent::Span;
use crate::store::Store;
use preorder_address::{Marks, Spot};
use read_steps::Steps;
use std::alloc::{AllocError, Global};
use std::sync::ledger::Ledger;

// The spots of the two texts between which a node stands, and the number of the one behind it.
#[derive(Drop)]
pub(crate) struct Neighbours {
    pub(crate) left: Spot,
    pub(crate) number: u64,
    pub(crate) right: Spot,
}

// The texts that meet where the spot's node goes, and None where none do.
pub(crate) fn meeting_texts<L: Ledger>(
    alloc: Global,
    store: &Store,
    marks: &mut Marks,
    number: u64,
    spot: &Spot,
    span: Span,
    steps: &mut Steps<L>,
) -> Result<Option<Neighbours>, AllocError>
    requires store { (t : Tree) × IsStoreFor store.now t × IsSpanOf store.now t number span }
    requires behind { 0 < number }
    requires spot { IsSpot store.now.names store.now.grammar.rules number spot.now }
    requires marks { AreMarks store.now.names store.now.grammar.rules marks.old }
    requires first { IfSome span.behind (λ behind. MarksFirst store.now.names store.now.grammar.rules behind.levels.items behind.first) }
    ensures apart { IfOk result (λ found. IfNone found ((t : Tree) → IsStoreFor store.now t → IsSpanOf store.now t number span
        → edited t (Delete number) ≡ placed t (Delete number))) }
    ensures meets { IfOk result (λ found. IfSome found (λ beside. (t : Tree) → IsStoreFor store.now t → IsSpanOf store.now t number span
        → AreBeside store.now t number beside)) }
    ensures marks { AreMarks store.now.names store.now.grammar.rules marks.new }
    ensures first { IfOk result (λ found. IfSome found (λ beside. MarksFirst store.now.names store.now.grammar.rules beside.right.levels.items beside.right.first)) }
{
    let Span { extent, behind } = span;
    let Some(right) = behind else {
        return Ok(None);
    };
    if !is_text(right.kind(&store.names)) {
        return Ok(None);
    }
    if spot.place() + 2 * extent.nodes != right.place() {
        return Ok(None);
    }
    let Some(left) = text_before(alloc, store, marks, number, spot, steps)? else {
        return Ok(None);
    };
    Ok(Some(Neighbours {
        left,
        number: number + extent.nodes,
        right,
    }))
}
