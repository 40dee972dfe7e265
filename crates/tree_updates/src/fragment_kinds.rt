// Where fragments may come to stand.
ghost use Rattle.std.specs.Prelude.{◌↔◌, [], IsTrue};
ghost use Rattle.plain_tree.specs.Allowed.{AreAside, MayStandUnder};
ghost use Rattle.plain_tree.specs.NodeTree.{trees_of};
ghost use Rattle.plain_tree.specs.Tree.{node, none, more, trees};

use plain_tree::{Kind, Node, Nodes};

// Whether the nodes may come to stand under a node of this kind, behind its attributes.
pub(crate) fn may_stand_under(kind: Kind, fragment: &Nodes) -> bool
    ensures { IsTrue result ↔ MayStandUnder kind (trees fragment.now) }
{
    match kind {
        Kind::Document => are_aside(fragment.as_slice()),
        Kind::Element => true,
        _ => false,
    }
}

// Whether they are comments and instructions alone.
fn are_aside(nodes: &[Node]) -> bool
    ensures { IsTrue result ↔ AreAside (trees (trees_of nodes.now)) }
{
    let mut rest = nodes;
    while let [first, tail @ ..] = rest {
        if !is_aside(first.kind) {
            return false;
        }
        rest = tail;
    }
    true
}

fn is_aside(kind: Kind) -> bool
    ensures { IsTrue result ↔ AreAside (more (node kind [] [] none) none) }
{
    matches!(kind, Kind::Comment | Kind::Instruction)
}
