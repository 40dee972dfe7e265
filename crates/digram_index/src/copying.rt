// The nodes that came in the place of a call, linked one after another.
ghost use Rattle.std.specs.Prelude.{◌≡◌, ◌≢◌, ◌+◌, ◌<◌, ◌≤◌, ℕ, Some, true, length};
ghost use Rattle.rule_arena.specs.declared.key.Key.{Key};
ghost use Rattle.slt_grammar.specs.Names.{Param};
ghost use Rattle.slt_grammar.specs.Keyed.{key_at, nodes_at};
ghost use Rattle.digram_index.specs.Copies.{IsCopyLinked, end_of};
ghost use Rattle.digram_index.specs.Linked.{IsIndexOf};
ghost use Rattle.digram_index.specs.Marking.{MarksFewer};

use crate::index::Index;
use crate::nodes::{following, link_node};
use crate::reading::behind;
use read_steps::Steps;
use slt_grammar::{Grammar, Key, Label};
use std::sync::ledger::{Blank, Ledger};

// Links the nodes that came in the place of a call, from the first one on, where a copy of this rule's body stands: they are met
// beside the nodes of the body. A parameter has an argument in its place, of which the root alone is linked.
pub(crate) fn link_copy<L: Ledger>(
    index: &mut Index,
    grammar: &Grammar,
    rule: usize,
    first: Key,
    blank: Blank,
)
    requires rule { rule < length grammar.now.rules }
    requires copy { (root : Key) → key_at grammar.now.rules rule 0 ≡ Some root → IsCopyLinked grammar.now index.old rule (Some root) (Some first) }
    requires room { length (nodes_at grammar.now.rules rule) ≤ index.old.spare_links }
    requires cells { grammar.now.limit ≤ length index.old.cells }
    requires name { blank.name ≡ L.name }
    requires parts { blank.parts ≡ L.parts }
    requires some { 0 < blank.parts }
    ensures index { IsIndexOf grammar.now index.new }
    ensures cells { length index.old.cells ≤ length index.new.cells }
    ensures spare { index.old.spare_links ≤ index.new.spare_links + length (nodes_at grammar.now.rules rule) }
    ensures spare_rules { index.new.spare_rules ≡ index.old.spare_rules }
    ensures marks { MarksFewer index.old index.new }
{
    let _limit = grammar.limit();
    let mut steps: Steps<L> = Steps::new(blank);
    let mut model = Some(grammar.root(rule));
    let mut copy = Some(first);
    while let Some(node) = model {
        let here = copy.unwrap();
        link_node(index, grammar, here);
        let label = grammar.label(node, &mut steps);
        model = grammar.next_in_preorder(node, &mut steps);
        copy = next_of_copy(grammar, here, label, model.is_some());
    }
}

// The next node that came, behind the one in the place of a node with this label, where there is more of the body. Where there is not,
// a look for it would climb as far as the rule is high.
pub(crate) fn next_of_copy(grammar: &Grammar, here: Key, label: Label, more: bool) -> Option<Key>
    requires { (r : ℕ) × (p : ℕ) × (key_at grammar.now.rules r p ≡ Some here) }
    ensures argument { more ≡ true → label ≡ Param → (r p : ℕ) → key_at grammar.now.rules r p ≡ Some here → key_at grammar.now.rules r (end_of (nodes_at grammar.now.rules r) p) ≡ result }
    ensures node { more ≡ true → label ≢ Param → (r p : ℕ) → key_at grammar.now.rules r p ≡ Some here → key_at grammar.now.rules r (p + 1) ≡ result }
{
    if !more {
        return None;
    }
    match label {
        Label::Param => behind(grammar, here),
        _ => following(grammar, here),
    }
}
