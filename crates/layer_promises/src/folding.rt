// The code of nodes, as fcns_encoding promises it.
ghost use Rattle.std.specs.Prelude.{◌≡◌, ℕ, IfOk, OnOk, OnErr, take, ◌≤◌, ◌*◌, [], List, length, true};
ghost use Rattle.plain_tree.specs.Lawful.{IsDocument};
ghost use Rattle.plain_tree.specs.NodeTree.{trees_of};
ghost use Rattle.plain_tree.specs.Numbers.{texts, texts_all};
ghost use Rattle.plain_tree.specs.Tree.{trees, Tree, none, more};
ghost use Rattle.xml_nodes.specs.Machine.{events};
ghost use Rattle.slt_grammar.specs.Coding.{CodesTo, Codes};
ghost use Rattle.slt_grammar.specs.Grammars.{IsGrammar, IsSwept, size};
ghost use Rattle.slt_grammar.specs.Keyed.{rules_of};
ghost use Rattle.slt_grammar.specs.Standing.{StandsFor};
ghost use Rattle.slt_grammar.specs.Terms.{Term, Hole};
ghost use Rattle.fcns_encoding.specs.Interning.{Interns, pairs_of_trees, pairs_of_tree};
ghost use Rattle.fcns_encoding.specs.Labels.{term_labels};
ghost use Rattle.fcns_encoding.specs.Subterms.{AreSubterms};

use fcns_encoding::{Coded, Folded, Folder, encode_slice};
use plain_tree::{Names, Node};
use std::alloc::{AllocError, Global};

/// The code of these nodes, and their texts; their names have come to the table.
pub fn encode_slice_told(
    alloc: Global,
    nodes: &[Node],
    names: &mut Names,
) -> Result<Coded, AllocError>
    ensures code { IfOk result (λ c. (term : Term) × CodesTo names.new (Hole 0) (trees (trees_of nodes.now)) term × (c.body ≡ term_labels term)) }
    ensures texts { IfOk result (λ c. c.texts ≡ texts_all (trees (trees_of nodes.now))) }
    ensures names { OnOk result (Interns names.old (pairs_of_trees (trees (trees_of nodes.now))) names.new) }
    ensures refused { OnErr result ((k : ℕ) × Interns names.old (take k (pairs_of_trees (trees (trees_of nodes.now)))) names.new) }
{
    encode_slice(alloc, nodes, names)
}

/// Rules, names and texts that stand for the document of the calls, the rules of at most three nodes for each different subterm of its code.
pub fn folder_finish_told(folder: Folder) -> Result<Folded, AllocError>
    requires sound { folder.sound ≡ true }
    requires depth { folder.depth ≡ 0 }
    ensures stand { IfOk result (λ f. (t : Tree) → IsDocument t → folder.log ≡ events t [] → StandsFor (rules_of f.grammar.rules) f.names f.texts.texts t) }
    ensures names { IfOk result (λ f. (t : Tree) → IsDocument t → folder.log ≡ events t [] → Interns [] (pairs_of_tree t) f.names) }
    ensures grammar { IfOk result (λ f. IsGrammar (rules_of f.grammar.rules)) }
    ensures swept { IfOk result (λ f. IsSwept (rules_of f.grammar.rules)) }
    ensures size { IfOk result (λ f. (t : Tree) (term : Term) (terms : List Term) → IsDocument t → folder.log ≡ events t []
        → Codes f.names (more t none) term → AreSubterms terms term → size (rules_of f.grammar.rules) ≤ 3 * length terms) }
{
    folder.finish()
}
