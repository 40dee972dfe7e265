// Where nodes stand by their numbers.
ghost use Rattle.std.specs.Prelude.{◌≡◌, ◌<◌, ℕ, IfOk, IfErr};
ghost use Rattle.plain_tree.specs.Edits.{number_of};
ghost use Rattle.plain_tree.specs.Tree.{Tree, node_count};
ghost use Rattle.plain_tree.specs.declared.edit.Edit.{Edit};
ghost use Rattle.preorder_address.specs.Marks.{AreMarks, MarksFirst};
ghost use Rattle.preorder_address.specs.Spots.{IsSpot};
ghost use Rattle.tree_updates.specs.Stores.{IsRefusedFor, IsStoreFor};

use crate::store::{EditError, Store};
use preorder_address::{Marks, Spot, find_marked};
use read_steps::Steps;
use std::alloc::{AllocError, Global};
use std::sync::ledger::Ledger;

// The spot of the node with this number. Memory is asked for its levels alone.
pub(crate) fn spot_at<L: Ledger>(
    alloc: Global,
    store: &Store,
    marks: &mut Marks,
    number: u64,
    steps: &mut Steps<L>,
) -> Result<Spot, EditError>
    requires store { (t : Tree) × IsStoreFor store.now t }
    requires marks { AreMarks store.now.names store.now.grammar.rules marks.old }
    ensures spot { IfOk result (λ spot. IsSpot store.now.names store.now.grammar.rules number spot) }
    ensures there { IfOk result (λ spot. (t : Tree) → IsStoreFor store.now t → number < node_count t) }
    ensures refused { IfErr result (λ error. (t : Tree) (e : Edit) → IsStoreFor store.now t → number_of e ≡ number → IsRefusedFor error t e) }
    ensures marks { AreMarks store.now.names store.now.grammar.rules marks.new }
    ensures first { IfOk result (λ spot. MarksFirst store.now.names store.now.grammar.rules spot.levels.items spot.first) }
{
    // The call tells what is true of every grammar.
    let _rules = store.grammar.rules();
    let count = store.counts.total();
    let found = find_marked(
        alloc,
        &store.grammar,
        &store.counts,
        &store.names,
        number,
        marks,
        steps,
    )?;
    match found {
        Some(spot) => Ok(spot),
        None => Err(EditError::NoNode { count }),
    }
}

// The spot of a node that is there.
pub(crate) fn spot_there<L: Ledger>(
    alloc: Global,
    store: &Store,
    marks: &mut Marks,
    number: u64,
    steps: &mut Steps<L>,
) -> Result<Spot, AllocError>
    requires store { (t : Tree) × IsStoreFor store.now t × (number < node_count t) }
    requires marks { AreMarks store.now.names store.now.grammar.rules marks.old }
    ensures spot { IfOk result (IsSpot store.now.names store.now.grammar.rules number) }
    ensures marks { AreMarks store.now.names store.now.grammar.rules marks.new }
{
    // The call tells what is true of every grammar.
    let _limit = store.grammar.limit();
    let found = find_marked(
        alloc,
        &store.grammar,
        &store.counts,
        &store.names,
        number,
        marks,
        steps,
    )?;
    let Some(spot) = found else { unreachable!() };
    Ok(spot)
}
