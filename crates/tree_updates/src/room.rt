// Room that is made before the first change.
ghost use Rattle.std.specs.Prelude.{◌≡◌, ◌<◌, ◌≤◌, ◌+◌, ◌^◌, ℕ, List, OnOk, length};
ghost use Rattle.plain_tree.specs.declared.kind.Kind.{Kind};
ghost use Rattle.plain_tree.specs.Tree.{Tree};
ghost use Rattle.path_isolation.specs.Isolations.{room_along};
ghost use Rattle.preorder_address.specs.Spots.{IsSpot};
ghost use Rattle.tree_updates.specs.Stores.{IsStoreFor};

use crate::store::Store;
use path_isolation::nodes_along;
use preorder_address::Spot;
use read_steps::Steps;
use std::alloc::AllocError;
use std::sync::ledger::Ledger;

// Makes room for isolating the spot's node and for so many more nodes, for as many links and one more, and for so many texts. The store stays.
pub(crate) fn reserve_at<L: Ledger>(
    store: &mut Store,
    spot: &Spot,
    more: usize,
    texts: u64,
    steps: &mut Steps<L>,
) -> Result<(), AllocError>
    requires spot { (names : List (Kind × List ℕ)) × (number : ℕ) × IsSpot names store.old.grammar.rules number spot.now }
    requires few { more < 2 ^ 63 }
    ensures nodes { OnOk result (room_along store.new.grammar.rules spot.now.levels.items + more ≤ store.new.grammar.spare_nodes) }
    ensures links { OnOk result (room_along store.new.grammar.rules spot.now.levels.items + more + 1 ≤ store.new.index.spare_links) }
    ensures cells { OnOk result (store.new.grammar.limit ≤ length store.new.index.cells) }
    ensures room { OnOk result (texts ≤ store.new.texts.room) }
    ensures rules { store.new.grammar.rules ≡ store.old.grammar.rules }
    ensures texts { store.new.texts.texts ≡ store.old.texts.texts }
    ensures names { store.new.names ≡ store.old.names }
    ensures store { (t : Tree) → IsStoreFor store.old t → IsStoreFor store.new t }
{
    // The call tells what is true of every grammar.
    let _limit = store.grammar.limit();
    let nodes = nodes_along(&store.grammar, spot.way(), steps);
    reserve_room(store, nodes + more)?;
    store.texts.reserve(texts)
}

// Makes room for so many more nodes, and for as many links and one more. The store stays.
pub(crate) fn reserve_room(store: &mut Store, nodes: usize) -> Result<(), AllocError>
    requires few { nodes + 1 < 2 ^ 64 }
    ensures nodes { OnOk result (nodes ≤ store.new.grammar.spare_nodes) }
    ensures links { OnOk result (nodes + 1 ≤ store.new.index.spare_links) }
    ensures cells { OnOk result (store.new.grammar.limit ≤ length store.new.index.cells) }
    ensures rules { store.new.grammar.rules ≡ store.old.grammar.rules }
    ensures texts { store.new.texts.texts ≡ store.old.texts.texts }
    ensures names { store.new.names ≡ store.old.names }
    ensures store { (t : Tree) → IsStoreFor store.old t → IsStoreFor store.new t }
{
    store.grammar.reserve(nodes, 0)?;
    store.index.reserve(&store.grammar, nodes + 1, 0)
}
