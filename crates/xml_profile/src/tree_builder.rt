// A builder of plain trees.
ghost use Rattle.std.specs.Prelude.{◌≡◌, ◌∷◌, [], ℕ, List, IfOk, true};
ghost use Rattle.plain_tree.specs.NodeTree.{tree_of};
ghost use Rattle.plain_tree.specs.Tree.{Tree, Trees, node, none, trees};
ghost use Rattle.plain_tree.specs.Numbers.{has_value};
ghost use Rattle.plain_tree.specs.declared.kind.Kind.TheVariants.{Document, Element};
ghost use Rattle.xml_nodes.specs.Machine.{Opened, events, events_all, AreShaped};
ghost use Rattle.xml_nodes.specs.Spelling.{Spells};

use plain_tree::{Bytes, Kind, Node, Nodes};
use std::alloc::{AllocError, Global};
use std::marker::Model;
use std::mem;
use xml_nodes::Builder;

// An element that is open, and the nodes in front of it.
#[derive(Drop)]
struct OpenElement {
    name: Bytes,
    kids: Nodes,
}

/// Builds the nodes of a document; contracts see the calls that it got, whether one was refused, and how many elements are open.
#[derive(Drop)]
pub struct TreeBuilder {
    alloc: Global,
    outer: Vec<OpenElement>,
    // the nodes so far of the innermost element that is open
    kids: Nodes,
    sound: bool,
}

impl Model for TreeBuilder {
    ghost use Rattle.xml_nodes.specs.Taking.{Built};
    ghost use Rattle.xml_profile.specs.Building.{built_code, built_of, AreBuilt};

    ghost Value = { Built };

    ghost coded = { built_code };

    ghost view = { λ b. built_of b.outer.items b.kids b.sound };

    ghost invariant = { λ b. AreBuilt b.outer.items b.kids };
}

impl TreeBuilder {
    /// A builder that got no calls.
    pub fn new(alloc: Global) -> TreeBuilder
        ensures log { result.log ≡ [] }
        ensures sound { result.sound ≡ true }
        ensures depth { result.depth ≡ 0 }
    {
        TreeBuilder {
            alloc,
            outer: Vec::new(alloc),
            kids: Nodes::new(alloc),
            sound: true,
        }
    }

    /// The document with these calls, where bytes spell it. It is refused only for want of memory.
    pub fn document(self) -> Result<Node, AllocError>
        requires { self.depth ≡ 0 }
        ensures { IfOk result (λ n. (bytes : List ℕ) (t : Tree) → Spells bytes t → self.log ≡ events t [] → tree_of n ≡ t) }
    {
        let TreeBuilder { alloc, kids, .. } = self;
        document_node(alloc, kids)
    }

    /// The nodes in the element without a name that was opened first and not closed, where nothing else is open.
    pub(crate) fn content(self) -> Nodes
        ensures { (ks : Trees) → AreShaped ks → self.log ≡ Opened [] ∷ events_all ks [] → trees result ≡ ks }
    {
        self.kids
    }
}

impl Builder for TreeBuilder {
    ghost log = { λ b. b.log };

    ghost sound = { λ b. b.sound };

    ghost depth = { λ b. b.depth };

    fn open(&mut self, _kind: Kind, name: &[u8]) -> Result<(), AllocError> {
        self.sound = false;
        let name = Bytes::from_slice(self.alloc, name)?;
        let kids = mem::replace(&mut self.kids, Nodes::new(self.alloc));
        self.outer.push(OpenElement { name, kids })?;
        self.sound = true;
        Ok(())
    }

    fn leaf(&mut self, kind: Kind, name: &[u8], value: &[u8]) -> Result<(), AllocError> {
        self.sound = false;
        let node = leaf_node(self.alloc, kind, name, value)?;
        self.kids.push(node)?;
        self.sound = true;
        Ok(())
    }

    fn close(&mut self) -> Result<(), AllocError> {
        self.sound = false;
        let Some(OpenElement { name, kids }) = self.outer.pop() else {
            return Err(AllocError);
        };
        let own = mem::replace(&mut self.kids, kids);
        let node = element_node(self.alloc, name, own)?;
        self.kids.push(node)?;
        self.sound = true;
        Ok(())
    }
}

fn leaf_node(alloc: Global, kind: Kind, name: &[u8], value: &[u8]) -> Result<Node, AllocError>
    ensures { IfOk result (λ n. tree_of n ≡ node kind name.now value.now none) }
{
    Ok(Node {
        kind,
        name: Bytes::from_slice(alloc, name)?,
        value: Bytes::from_slice(alloc, value)?,
        kids: Nodes::new(alloc),
    })
}

fn element_node(alloc: Global, name: Bytes, kids: Nodes) -> Result<Node, AllocError>
    ensures { IfOk result (λ n. tree_of n ≡ node Element name [] (trees kids)) }
{
    Ok(Node {
        kind: Kind::Element,
        name,
        value: Bytes::from_slice(alloc, &[])?,
        kids,
    })
}

fn document_node(alloc: Global, kids: Nodes) -> Result<Node, AllocError>
    ensures { IfOk result (λ n. tree_of n ≡ node Document [] [] (trees kids)) }
{
    Ok(Node {
        kind: Kind::Document,
        name: Bytes::from_slice(alloc, &[])?,
        value: Bytes::from_slice(alloc, &[])?,
        kids,
    })
}
