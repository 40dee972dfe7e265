// What comes with the nodes of a fragment, and where it comes behind the last kid of a node.
ghost use Rattle.std.specs.Prelude.{◌≡◌, ℕ, IfOk, OnErr, OnOk, take};
ghost use Rattle.plain_tree.specs.NodePairs.{pairs_of_trees};
ghost use Rattle.plain_tree.specs.NodeTree.{trees_of};
ghost use Rattle.plain_tree.specs.Tree.{Tree, trees};
ghost use Rattle.fcns_encoding.specs.Interning.{Interns};
ghost use Rattle.preorder_address.specs.Spots.{IsSpot};
ghost use Rattle.tree_updates.specs.Extents.{IsCodedBy, IsExtentOf, IsUnsweptFor};
ghost use Rattle.tree_updates.specs.FragmentGrowths.{IsEndSite, IsFragmentGrowth};

use crate::growing::{Growth, Site};
use crate::node_extent::Extent;
use crate::store::Store;
use fcns_encoding::{Coded, encode_slice};
use plain_tree::{Names, Node};
use preorder_address::Spot;
use std::alloc::{AllocError, Global};

// Where a fragment comes behind the last kid of the spot's node, which has this extent.
pub(crate) fn end_site(store: &Store, number: u64, spot: &Spot, extent: Extent) -> Site
    requires store { (t : Tree) × IsUnsweptFor store.now t }
    requires spot { IsSpot store.now.names store.now.grammar.rules number spot.now }
    requires extent { (t : Tree) → IsCodedBy store.now t → IsExtentOf t number extent }
    ensures { (t : Tree) → IsCodedBy store.now t → IsEndSite t number result }
{
    Site {
        place: spot.place() + 2 * extent.nodes - 1,
        rank: extent.rank + extent.texts,
    }
}

// What comes with nodes, which are so many with all below them. Where memory is refused, some of their names may have come into the table.
pub(crate) fn fragment_growth(
    alloc: Global,
    names: &mut Names,
    site: Site,
    count: u64,
    nodes: &[Node],
) -> Result<Growth, AllocError>
    ensures growth { IfOk result (IsFragmentGrowth names.new (trees_of nodes.now) count site) }
    ensures grown { OnOk result (Interns names.old (pairs_of_trees (trees (trees_of nodes.now))) names.new) }
    ensures refused { OnErr result ((k : ℕ) × Interns names.old (take k (pairs_of_trees (trees (trees_of nodes.now)))) names.new) }
{
    let Coded { body, texts } = encode_slice(alloc, nodes, names)?;
    Ok(Growth {
        site,
        nodes: count,
        body,
        texts,
    })
}
