// Which nodes and texts of a document a node has with all below it.
ghost use Rattle.std.specs.Prelude.{◌≡◌, IfOk, IfSome};
ghost use Rattle.plain_tree.specs.Tree.{Tree};
ghost use Rattle.preorder_address.specs.Marks.{AreMarks, MarksFirst};
ghost use Rattle.preorder_address.specs.Spots.{IsSpot};
ghost use Rattle.tree_updates.specs.Extents.{IsCodedBy, IsExtentOf, IsSpanOf, IsUnsweptFor};

use crate::store::Store;
use preorder_address::{Marks, Spot, find_marked};
use read_steps::Steps;
use std::alloc::{AllocError, Global};
use std::sync::ledger::Ledger;

// A node and all below it: how many nodes these are, the rank of their first text among the document's, and how many texts they have.
#[derive(Clone, Copy, Drop)]
pub(crate) struct Extent {
    pub(crate) nodes: u64,
    pub(crate) rank: u64,
    pub(crate) texts: u64,
}

// The extent of a node, and the spot of the node behind them, if there is one.
#[derive(Drop)]
pub(crate) struct Span {
    pub(crate) extent: Extent,
    pub(crate) behind: Option<Spot>,
}

// The extent of the spot's node, by the node behind it. Memory is asked for that node's levels alone.
pub(crate) fn span_of<L: Ledger>(
    alloc: Global,
    store: &Store,
    marks: &mut Marks,
    number: u64,
    spot: &Spot,
    steps: &mut Steps<L>,
) -> Result<Span, AllocError>
    requires store { (t : Tree) × IsUnsweptFor store.now t }
    requires spot { IsSpot store.now.names store.now.grammar.rules number spot.now }
    requires marks { AreMarks store.now.names store.now.grammar.rules marks.old }
    ensures span { IfOk result (λ span. (t : Tree) → IsCodedBy store.now t → IsSpanOf store.now t number span) }
    ensures marks { AreMarks store.now.names store.now.grammar.rules marks.new }
    ensures first { IfOk result (λ span. IfSome span.behind (λ behind. MarksFirst store.now.names store.now.grammar.rules behind.levels.items behind.first)) }
{
    // The call tells what is true of every grammar.
    let _limit = store.grammar.limit();
    let rank = spot.text_rank();
    let nodes = spot.extent(&store.grammar, &store.counts, steps) + 1;
    let found = find_marked(
        alloc,
        &store.grammar,
        &store.counts,
        &store.names,
        number + nodes,
        marks,
        steps,
    )?;
    let Some(behind) = found else {
        let texts = store.counts.total_texts() - rank;
        return Ok(Span {
            extent: Extent { nodes, rank, texts },
            behind: None,
        });
    };
    let texts = behind.text_rank() - rank;
    Ok(Span {
        extent: Extent { nodes, rank, texts },
        behind: Some(behind),
    })
}

// The extent alone.
pub(crate) fn extent_of<L: Ledger>(
    alloc: Global,
    store: &Store,
    marks: &mut Marks,
    number: u64,
    spot: &Spot,
    steps: &mut Steps<L>,
) -> Result<Extent, AllocError>
    requires store { (t : Tree) × IsUnsweptFor store.now t }
    requires spot { IsSpot store.now.names store.now.grammar.rules number spot.now }
    requires marks { AreMarks store.now.names store.now.grammar.rules marks.old }
    ensures extent { IfOk result (λ extent. (t : Tree) → IsCodedBy store.now t → IsExtentOf t number extent) }
    ensures marks { AreMarks store.now.names store.now.grammar.rules marks.new }
{
    let span = span_of(alloc, store, marks, number, spot, steps)?;
    Ok(span.extent)
}

// The extent of a text of this rank.
pub(crate) fn text_extent(rank: u64) -> Extent
    ensures { result ≡ record { nodes = 1; rank = rank; texts = 1 } }
{
    Extent {
        nodes: 1,
        rank,
        texts: 1,
    }
}
