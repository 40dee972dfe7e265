// A text that comes between two texts.
ghost use Rattle.std.specs.Prelude.{◌≡◌, ◌≤◌, ◌*◌, ◌++◌, ℕ, List, IfOk, OnErr, OnOk};
ghost use Rattle.plain_tree.specs.Edits.{edited};
ghost use Rattle.plain_tree.specs.Tree.{Tree};
ghost use Rattle.plain_tree.specs.declared.edit.Edit.TheVariants.{Insert};
ghost use Rattle.plain_tree.specs.declared.kind.Kind.{Kind};
ghost use Rattle.slt_grammar.specs.Grammars.{size};
ghost use Rattle.slt_grammar.specs.Keyed.{rules_of};
ghost use Rattle.slt_grammar.specs.Ranks.{greatest_rank};
ghost use Rattle.start_fronts.specs.Moved.{MovesBefore};
ghost use Rattle.segment_counts.specs.Weights.{node_weight};
ghost use Rattle.preorder_address.specs.Spots.{IsSpot};
ghost use Rattle.tree_updates.specs.Fronts.{first_keys};
ghost use Rattle.tree_updates.specs.Joinings.{MayInsertBetween};
ghost use Rattle.tree_updates.specs.Stores.{IsStoreFor};

use crate::joining::value_at;
use crate::node_extent::text_extent;
use crate::room::reserve_at;
use crate::store::Store;
use crate::sweeping::sweep;
use crate::taking_out::take_out;
use plain_tree::{Bytes, Texts};
use preorder_address::Spot;
use read_steps::Steps;
use std::alloc::{AllocError, Global};
use std::sync::ledger::Ledger;

// Inserts a text, which is the only one of these, between two texts: the one before gets the value of all three, and the spot's
// node goes. All memory is taken before the first change.
pub(crate) fn join_three<L: Ledger>(
    alloc: Global,
    store: &mut Store,
    number: u64,
    spot: &Spot,
    rank: u64,
    added: &Texts,
    steps: &mut Steps<L>,
) -> Result<(), AllocError>
    requires between { (t : Tree) × (F : List Tree) × IsStoreFor store.old t × MayInsertBetween t number rank F added.now }
    requires spot { (names : List (Kind × List ℕ)) × IsSpot names store.old.grammar.rules number spot.now }
    ensures store { OnOk result ((t : Tree) (F : List Tree) → IsStoreFor store.old t → MayInsertBetween t number rank F added.now → IsStoreFor store.new (edited t (Insert number F))) }
    ensures kept { OnErr result ((t : Tree) → IsStoreFor store.old t → IsStoreFor store.new t) }
    ensures rules { OnErr result (store.new.grammar.rules ≡ store.old.grammar.rules) }
    ensures texts { OnErr result (store.new.texts.texts ≡ store.old.texts.texts) }
    ensures names { store.new.names ≡ store.old.names }
    ensures size { OnOk result (size (rules_of store.new.grammar.rules) ≤ 2 * size (rules_of store.old.grammar.rules)) }
    ensures ranks { OnOk result (greatest_rank (rules_of store.new.grammar.rules) ≤ greatest_rank (rules_of store.old.grammar.rules)) }
    ensures moves { OnOk result (MovesBefore node_weight (first_keys spot.now.levels.items) number store.old.grammar.rules store.new.grammar.rules) }
{
    // The call tells what is true of every grammar.
    let _limit = store.grammar.limit();
    let before = store.texts.get(rank - 1).unwrap();
    let text = value_at(added, 0).unwrap();
    let here = store.texts.get(rank).unwrap();
    let value = three_bytes(alloc, before, text, here)?;
    reserve_at(store, spot, 0, 1, steps)?;
    store.texts.set(rank - 1, value);
    take_out(store, number, spot, text_extent(rank), steps);
    sweep(store);
    Ok(())
}

// The first bytes with the second behind them, and then the third.
fn three_bytes(
    alloc: Global,
    first: &[u8],
    second: &[u8],
    third: &[u8],
) -> Result<Bytes, AllocError>
    ensures { IfOk result (λ joined. joined ≡ first.now ++ (second.now ++ third.now)) }
{
    let mut all = Vec::new(alloc);
    all.extend_from_slice(first)?;
    all.extend_from_slice(second)?;
    all.extend_from_slice(third)?;
    Bytes::from_slice(alloc, all.as_slice())
}
