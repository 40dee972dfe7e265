// The code of nodes.
ghost use Rattle.std.specs.Prelude.{◌≡◌, ◌++◌, [], ◌∷◌, ℕ, IfOk, OnOk, OnErr, take, slice_get, Some};
ghost use Rattle.rule_arena.specs.declared.label.Label.{Label as NodeLabel};
ghost use Rattle.rule_arena.specs.declared.label.Label.TheVariants.{Symbol};
ghost use Rattle.plain_tree.specs.Tree.{none, more, trees};
ghost use Rattle.plain_tree.specs.NodeTree.{tree_of, trees_of};
ghost use Rattle.plain_tree.specs.Numbers.{texts, texts_all};
ghost use Rattle.plain_tree.specs.Seen.{visit_of};
ghost use Rattle.plain_tree.specs.Visits.{visits};
ghost use Rattle.slt_grammar.specs.Terms.{Term, Hole};
ghost use Rattle.slt_grammar.specs.Coding.{Codes, CodesTo};
ghost use Rattle.fcns_encoding.specs.Labels.{term_labels};
ghost use Rattle.fcns_encoding.specs.Interning.{Interns, tree_pair, pairs_of_tree, pairs_of_trees};
ghost use Rattle.fcns_encoding.specs.Visiting.{IsLabelOf, Grows, Spelled, list_visits, pairs_at, texts_at, own_texts};

use plain_tree::{Bytes, Names, Node, Nodes, Texts, Visit, Walk};
use slt_grammar::{Body, Label};
use std::alloc::{AllocError, Global};
use std::slice;

/// The code of nodes as the labels of its term in preorder, and the values, in document order, of all nodes that have one.
#[derive(Drop)]
pub struct Coded {
    pub body: Body,
    pub texts: Texts,
}

/// The code of the list of this one node, and its texts.
///
/// The names grow by the pairs of the tree's nodes in document order, without repeats and without what was there. It is
/// refused only for want of memory, and then the names have grown by the pairs of some of the first nodes.
pub fn encode(alloc: Global, node: &Node, names: &mut Names) -> Result<Coded, AllocError>
    ensures code { IfOk result (λ c. (term : Term) × Codes names.new (more (tree_of node.now) none) term × (c.body ≡ term_labels term)) }
    ensures texts { IfOk result (λ c. c.texts ≡ texts (tree_of node.now)) }
    ensures names { OnOk result (Interns names.old (pairs_of_tree (tree_of node.now)) names.new) }
    ensures refused { OnErr result ((k : ℕ) × Interns names.old (take k (pairs_of_tree (tree_of node.now))) names.new) }
{
    let mut coded = encode_nodes(alloc, slice::from_ref(node), names)?;
    coded.body.push(Label::Bottom)?;
    Ok(coded)
}

/// The code of a list of nodes with a parameter in the place of its last bottom, for the code of the nodes that are to follow,
/// and the list's texts.
///
/// The names grow by the pairs of the trees' nodes in document order, without repeats and without what was there. It is
/// refused only for want of memory, and then the names have grown by the pairs of some of the first nodes.
pub fn encode_list(alloc: Global, nodes: &Nodes, names: &mut Names) -> Result<Coded, AllocError>
    ensures code { IfOk result (λ c. (term : Term) × CodesTo names.new (Hole 0) (trees nodes.now) term × (c.body ≡ term_labels term)) }
    ensures texts { IfOk result (λ c. c.texts ≡ texts_all (trees nodes.now)) }
    ensures names { OnOk result (Interns names.old (pairs_of_trees (trees nodes.now)) names.new) }
    ensures refused { OnErr result ((k : ℕ) × Interns names.old (take k (pairs_of_trees (trees nodes.now))) names.new) }
{
    encode_slice(alloc, nodes.as_slice(), names)
}

/// The same of some nodes of a list.
pub fn encode_slice(alloc: Global, nodes: &[Node], names: &mut Names) -> Result<Coded, AllocError>
    ensures code { IfOk result (λ c. (term : Term) × CodesTo names.new (Hole 0) (trees (trees_of nodes.now)) term × (c.body ≡ term_labels term)) }
    ensures texts { IfOk result (λ c. c.texts ≡ texts_all (trees (trees_of nodes.now))) }
    ensures names { OnOk result (Interns names.old (pairs_of_trees (trees (trees_of nodes.now))) names.new) }
    ensures refused { OnErr result ((k : ℕ) × Interns names.old (take k (pairs_of_trees (trees (trees_of nodes.now)))) names.new) }
{
    let mut coded = encode_nodes(alloc, nodes, names)?;
    coded.body.push(Label::Param)?;
    Ok(coded)
}

// The code of nodes without its last label, and their texts.
fn encode_nodes(alloc: Global, nodes: &[Node], names: &mut Names) -> Result<Coded, AllocError>
    ensures labels { IfOk result (λ c. Spelled names.new (list_visits (trees (trees_of nodes.now))) c.body) }
    ensures texts { IfOk result (λ c. c.texts ≡ texts_all (trees (trees_of nodes.now))) }
    ensures names { OnOk result (Interns names.old (pairs_of_trees (trees (trees_of nodes.now))) names.new) }
    ensures refused { OnErr result ((k : ℕ) × Interns names.old (take k (pairs_of_trees (trees (trees_of nodes.now)))) names.new) }
{
    let mut coded = Coded {
        body: Body::new(alloc),
        texts: Texts::new(alloc),
    };
    for node in nodes {
        coded.add_tree(alloc, node, names)?;
    }
    Ok(coded)
}

impl Coded {
    // Adds the labels of a node and of all below it, and their texts.
    fn add_tree(&mut self, alloc: Global, node: &Node, names: &mut Names) -> Result<(), AllocError>
        ensures labels { OnOk result (Grows names.new (visits (tree_of node.now)) self.old.body self.new.body) }
        ensures texts { OnOk result (self.new.texts ≡ self.old.texts ++ texts (tree_of node.now)) }
        ensures names { OnOk result (Interns names.old (pairs_of_tree (tree_of node.now)) names.new) }
        ensures refused { OnErr result ((k : ℕ) × Interns names.old (take k (pairs_of_tree (tree_of node.now))) names.new) }
    {
        let mut walk = Walk::new(alloc, node);
        while let Some(visit) = walk.next()? {
            self.add(alloc, visit, names)?;
        }
        Ok(())
    }

    // Adds the label of a visit: a node's symbol where it is opened, and where it is closed the bottom at the end of its
    // kids.
    fn add(&mut self, alloc: Global, visit: Visit<'_>, names: &mut Names) -> Result<(), AllocError>
        ensures label { OnOk result ((label : NodeLabel) × IsLabelOf names.new (visit_of visit.entry) label × (self.new.body ≡ self.old.body ++ label ∷ [])) }
        ensures texts { OnOk result (self.new.texts ≡ self.old.texts ++ texts_at (visit_of visit.entry)) }
        ensures names { OnOk result (Interns names.old (pairs_at (visit_of visit.entry)) names.new) }
        ensures refused { OnErr result ((k : ℕ) × Interns names.old (take k (pairs_at (visit_of visit.entry))) names.new) }
    {
        match visit {
            Visit::Open(node) => self.open(alloc, node, names),
            Visit::Close(_) => self.body.push(Label::Bottom),
        }
    }

    // Adds the symbol of a node, and its value where its kind has one.
    fn open(&mut self, alloc: Global, node: &Node, names: &mut Names) -> Result<(), AllocError>
        ensures label { OnOk result ((symbol : ℕ) × (slice_get names.new symbol ≡ Some (tree_pair (tree_of node.now))) × (self.new.body ≡ self.old.body ++ Symbol symbol ∷ [])) }
        ensures texts { OnOk result (self.new.texts ≡ self.old.texts ++ own_texts (tree_of node.now)) }
        ensures names { OnOk result (Interns names.old (tree_pair (tree_of node.now) ∷ []) names.new) }
        ensures refused { OnErr result ((k : ℕ) × Interns names.old (take k (tree_pair (tree_of node.now) ∷ [])) names.new) }
    {
        let symbol = names.intern(alloc, node.kind, node.name.as_slice())?;
        self.body.push(Label::Symbol(symbol))?;
        if node.kind.has_value() {
            let value = Bytes::from_slice(alloc, node.value.as_slice())?;
            self.texts.push(value)?;
        }
        Ok(())
    }
}
