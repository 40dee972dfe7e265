// Printing one node.
ghost use Rattle.std.specs.Prelude.{◌≡◌, ◌<◌, Some, IfOk, IfErr};
ghost use Rattle.plain_tree.specs.Tree.{Tree, node_count};
ghost use Rattle.store_core.specs.Acts as act;
ghost use Rattle.store_core.specs.Refusals.{Cause};
ghost use Rattle.store_core.specs.StoreOf.{IsCounted, parts_of};
ghost use Rattle.store_core.specs.Texts.{shown_bytes};
ghost use Rattle.store_core.specs.Walking.{IsReady, walk_text};
ghost use Rattle.store_core.specs.Worlds.{AreLawfulParts, PartsStandFor, World, parts_in};

use crate::answer::Refusal;
use crate::walking::NodeWalk;
use preorder_address::text_rank;
use read_steps::Steps;
use std::alloc::Global;
use std::sync::ledger::Ledger;
use tree_updates::Store;

/// The walk over the node with this number, with all the memory that its printing takes. It is refused with `NoNode` where the
/// number isn't below the count of nodes, and with `Memory` for want of that.
pub(crate) fn walk_to<L: Ledger>(
    alloc: Global,
    store: &Store,
    number: u64,
    steps: &mut Steps<L>,
) -> Result<NodeWalk, Refusal>
    requires held { AreLawfulParts (parts_of store.now) }
    requires counted { IsCounted store.now }
    ensures ready { IfOk result (IsReady store.now) }
    ensures shows { IfOk result (λ walk. (t : Tree) → PartsStandFor (parts_of store.now) t → (number < node_count t) × (walk_text store.now walk ≡ shown_bytes t number)) }
    ensures refused { IfErr result (λ refusal. (old new : World) → parts_in old.state ≡ Some (parts_of store.now) → Cause refusal (act.Show number) old new) }
{
    let Some(first_text) = text_rank(&store.grammar, &store.counts, &store.names, number, steps)
    else {
        return Err(Refusal::NoNode);
    };
    match NodeWalk::new(alloc, store, number, first_text, steps)? {
        Some(walk) => Ok(walk),
        None => Err(Refusal::NoNode),
    }
}
