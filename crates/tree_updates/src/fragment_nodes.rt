// How many nodes a fragment has.
ghost use Rattle.std.specs.Prelude.{◌≡◌, ◌+◌, ◌-◌, ◌^◌, [], ◌∷◌, IfOk, length, min};
ghost use Rattle.plain_tree.specs.NodeTree.{tree_of, trees_of};
ghost use Rattle.plain_tree.specs.Seen.{visit_of};
ghost use Rattle.plain_tree.specs.Tree.{list_count, node_count};
ghost use Rattle.plain_tree.specs.Visits.{opened};

use plain_tree::{Node, Visit, Walk};
use std::alloc::{AllocError, Global};

// How many nodes these are with all below them, and 2^64 - 1 where there are more.
pub(crate) fn count_nodes(alloc: Global, nodes: &[Node]) -> Result<u64, AllocError>
    ensures { IfOk result (λ count. count ≡ min (list_count (trees_of nodes.now)) (2 ^ 64 - 1)) }
{
    let mut count = 0;
    let mut rest = nodes;
    while let [first, tail @ ..] = rest {
        count = counted_with(alloc, first, count)?;
        rest = tail;
    }
    Ok(count)
}

// A count with a node and all below it, and 2^64 - 1 where that is more.
fn counted_with(alloc: Global, node: &Node, before: u64) -> Result<u64, AllocError>
    ensures { IfOk result (λ count. count ≡ min (before + node_count (tree_of node.now)) (2 ^ 64 - 1)) }
{
    let mut count = before;
    let mut walk = Walk::new(alloc, node);
    while let Some(visit) = walk.next()? {
        count = count.saturating_add(opened_nodes(visit));
    }
    Ok(count)
}

// How many nodes a visit opens.
fn opened_nodes(visit: Visit<'_>) -> u64
    ensures { result ≡ length (opened (visit_of visit.entry ∷ [])) }
{
    match visit {
        Visit::Open(_) => 1,
        Visit::Close(_) => 0,
    }
}
