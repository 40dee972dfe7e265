// The code of a fragment, by the names of a store.
ghost use Rattle.std.specs.Prelude.{◌≡◌, ℕ, IfOk, OnOk, OnErr, take};
ghost use Rattle.plain_tree.specs.Lawful.{IsFragment};
ghost use Rattle.plain_tree.specs.NodePairs.{pairs_of_trees};
ghost use Rattle.plain_tree.specs.Numbers.{texts_all};
ghost use Rattle.plain_tree.specs.Tree.{Tree, trees};
ghost use Rattle.fcns_encoding.specs.Interning.{Interns};
ghost use Rattle.tree_updates.specs.Fragments.{IsCodeOf};
ghost use Rattle.tree_updates.specs.Stores.{IsStoreFor};

use crate::store::Store;
use fcns_encoding::{Coded, encode_list};
use plain_tree::Nodes;
use std::alloc::{AllocError, Global};

// The code of the fragment and its texts. The store's names grow by those of its nodes, or by some first ones of them where memory is wanting.
pub(crate) fn encode_in(
    alloc: Global,
    store: &mut Store,
    fragment: &Nodes,
) -> Result<Coded, AllocError>
    requires fragment { IsFragment (trees fragment.now) }
    ensures code { IfOk result (λ c. IsCodeOf store.new.names fragment.now c.body) }
    ensures values { IfOk result (λ c. c.texts ≡ texts_all (trees fragment.now)) }
    ensures names { OnOk result (Interns store.old.names (pairs_of_trees (trees fragment.now)) store.new.names) }
    ensures refused { OnErr result ((k : ℕ) × Interns store.old.names (take k (pairs_of_trees (trees fragment.now))) store.new.names) }
    ensures store { (t : Tree) → IsStoreFor store.old t → IsStoreFor store.new t }
    ensures grammar { store.new.grammar ≡ store.old.grammar }
    ensures texts { store.new.texts ≡ store.old.texts }
    ensures counts { store.new.counts ≡ store.old.counts }
{
    // The call tells what is true of every grammar.
    let _limit = store.grammar.limit();
    encode_list(alloc, fragment, &mut store.names)
}
