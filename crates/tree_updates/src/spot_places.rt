// What the places of nodes tell, which are counted with the bottoms.
ghost use Rattle.std.specs.Prelude.{◌≡◌, ◌<◌, ◌^◌, Some};
ghost use Rattle.plain_tree.specs.Lawful.{IsDocument};
ghost use Rattle.plain_tree.specs.Tree.{Tree, node_count};
ghost use Rattle.preorder_address.specs.Spots.{place_at};
ghost use Rattle.tree_updates.specs.CallAnswers.{above_at};

use plain_tree::Kind;

// The kind of the node under which a node stands that is not the document. Each node before it stands there with a bottom behind its kids, but
// those under which the node stands: where this is the document alone, one bottom is missing.
pub(crate) fn kind_above(number: u64, place: u64) -> Kind
    requires behind { 0 < number }
    requires few { number < 2 ^ 63 }
    ensures above { (t : Tree) → IsDocument t → number < node_count t → Some place ≡ place_at t number → above_at t number ≡ Some (Some result) }
{
    if place == 2 * number - 1 {
        Kind::Document
    } else {
        Kind::Element
    }
}
