// Nodes and lists of nodes.
ghost use Rattle.std.specs.Prelude.{◌≡◌, ◌<◌, ◌++◌, [], ◌∷◌, length, OnOk, OnErr, IsTrue, ◌↔◌, slice_get, vec_len, vec_capacity};
ghost use Rattle.plain_tree.specs.NodeTree.{tree_of, trees_of, SeesTree};
ghost use Rattle.plain_tree.specs.Freeing.{work};

use crate::{Bytes, Kind};
use std::alloc::{AllocError, Global};
use std::marker::Model;

/// A node. Its attributes are its first kids, in the order of their tag.
#[cycle(tree)]
#[derive(Drop)]
pub struct Node {
    pub kind: Kind,
    pub name: Bytes,
    pub value: Bytes,
    pub kids: Nodes,
}

/// A list of nodes; contracts see the list of their trees.
#[cycle(tree)]
pub struct Nodes {
    nodes: Vec<Node>,
}

impl Model for Nodes {
    ghost use Rattle.std.specs.Prelude.{List};
    ghost use Rattle.plain_tree.specs.Tree.{Tree, tree_code, list_count};
    ghost use Rattle.std.specs.Coded.{coded_list};

    ghost Value = { List Tree };

    ghost coded = { coded_list tree_code };

    ghost use Rattle.plain_tree.specs.NodeTree.{trees_of};

    ghost view = { λ a. trees_of a.nodes.items };

    ghost size = { list_count };

    ghost use Rattle.plain_tree.specs.Falls.{kids_are_fewer};

    ghost size_decreases = { λ a h. kids_are_fewer a.nodes.items };
}

impl Nodes {
    /// No nodes. It takes no memory.
    pub fn new(alloc: Global) -> Nodes
        ensures { result ≡ [] }
    {
        Nodes {
            nodes: Vec::new(alloc),
        }
    }

    /// Adds a node at the end. It is refused only for want of memory, and then the node is freed.
    pub fn push(&mut self, node: Node) -> Result<(), AllocError>
        ensures ok { OnOk result (self.new ≡ self.old ++ tree_of node ∷ []) }
        ensures err { OnErr result (self.new ≡ self.old) }
    {
        self.nodes.push(node)?;
        Ok(())
    }

    /// The node at a place, and None exactly where the place isn't below the length.
    pub fn get(&self, at: usize) -> Option<&Node>
        ensures { SeesTree result (slice_get self.now at) }
    {
        self.nodes.get(at)
    }

    /// How many nodes there are in the list itself, without those below them.
    pub fn len(&self) -> usize
        ensures { result ≡ length self.now }
    {
        self.nodes.len()
    }

    pub fn is_empty(&self) -> bool
        ensures { IsTrue result ↔ (self.now ≡ []) }
    {
        self.nodes.is_empty()
    }

    pub fn as_slice(&self) -> &[Node]
        ensures { trees_of result.now ≡ self.now }
    {
        self.nodes.as_slice()
    }

    fn into_vec(self) -> Vec<Node>
        ensures { trees_of result.items ≡ self }
    {
        let Nodes { nodes } = self;
        nodes
    }
}

// A derived drop would call itself once for each level, and a deep document would end the process.
impl Drop for Nodes {
    fn drop(self) {
        let mut waiting = self.into_vec();
        while let Some(node) = waiting.pop() {
            waiting = freed(node, waiting);
        }
        waiting.destroy_empty();
    }
}

// Frees a node that was just taken from the end of those that wait, and answers what waits now.
//
// This takes no memory. Where both the node has kids and others wait, the last kid goes to the node's old place, and
// the node itself, with all that wait in place of its kids, to the first place of its kids: so it comes up once more,
// when its kids are done, and is then the last that waits.
fn freed(node: Node, mut waiting: Vec<Node>) -> Vec<Node>
    requires { vec_len waiting < vec_capacity waiting }
    ensures { work (trees_of result.items) < work (trees_of waiting.items ++ tree_of node ∷ []) }
{
    let Node {
        kind,
        name,
        value,
        kids,
    } = node;
    let mut inner = kids.into_vec();
    if waiting.is_empty() {
        waiting.destroy_empty();
        return inner;
    }
    match inner.pop() {
        None => {
            inner.destroy_empty();
            waiting
        }
        Some(kid) => {
            waiting.push_reserved(kid);
            let kids = Nodes { nodes: waiting };
            let last = inner.len();
            inner.push_reserved(Node {
                kind,
                name,
                value,
                kids,
            });
            inner.swap(0, last);
            inner
        }
    }
}
