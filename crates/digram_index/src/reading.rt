// Nodes that are read.
ghost use Rattle.std.specs.Prelude.{◌≡◌, ℕ, Some, slice_get};
ghost use Rattle.rule_arena.specs.Terms.{Node, kids_in, parent_in};
ghost use Rattle.slt_grammar.specs.Keyed.{key_at, nodes_at};
ghost use Rattle.slt_grammar.specs.KeyedEdits.{StandsAsCall};
ghost use Rattle.digram_index.specs.Copies.{end_of};

use crate::nodes::{item, site};
use slt_grammar::{Grammar, Key, Kids, Label};

// The next node of the same body that does not stand below a node.
pub(crate) fn behind(grammar: &Grammar, key: Key) -> Option<Key>
    requires { (r : ℕ) × (p : ℕ) × (key_at grammar.now.rules r p ≡ Some key) }
    ensures { (r p : ℕ) → key_at grammar.now.rules r p ≡ Some key → key_at grammar.now.rules r (end_of (nodes_at grammar.now.rules r) p) ≡ result }
{
    // The call tells that the bodies are terms.
    let _limit = grammar.limit();
    let mut above = parent_of(grammar, key);
    while let Some(link) = above {
        let (up, place) = link;
        let next = child_of(grammar, up, place);
        if next.is_some() {
            return next;
        }
        above = parent_of(grammar, up);
    }
    None
}

// The rule that a node calls.
pub(crate) fn called_rule(grammar: &Grammar, key: Key) -> usize
    requires { StandsAsCall grammar.now.rules key }
    ensures { (C : StandsAsCall grammar.now.rules key) → C.called ≡ result }
{
    match label_of(grammar, key) {
        Label::Call(rule) => rule,
        _ => 0,
    }
}

// The label of a node.
fn label_of(grammar: &Grammar, key: Key) -> Label
    requires { (r : ℕ) × (p : ℕ) × (key_at grammar.now.rules r p ≡ Some key) }
    ensures { (r p : ℕ) (n : Node) → slice_get (nodes_at grammar.now.rules r) p ≡ Some n → n.key ≡ key → n.label ≡ result }
{
    site(grammar, key).label
}

// The children of a node.
pub(crate) fn kids_of(grammar: &Grammar, key: Key) -> Kids
    requires { (r : ℕ) × (p : ℕ) × (key_at grammar.now.rules r p ≡ Some key) }
    ensures { (r p : ℕ) → key_at grammar.now.rules r p ≡ Some key → kids_in (nodes_at grammar.now.rules r) p ≡ result }
{
    item(grammar, key).kids
}

// The parent of a node, with the place under it from 1 on.
fn parent_of(grammar: &Grammar, key: Key) -> Option<(Key, usize)>
    requires { (r : ℕ) × (p : ℕ) × (key_at grammar.now.rules r p ≡ Some key) }
    ensures { (r p : ℕ) → key_at grammar.now.rules r p ≡ Some key → parent_in (nodes_at grammar.now.rules r) p ≡ result }
{
    site(grammar, key).parent
}

// The child of a node at a place from 0 on.
fn child_of(grammar: &Grammar, key: Key, place: usize) -> Option<Key>
    requires { (r : ℕ) × (p : ℕ) × (key_at grammar.now.rules r p ≡ Some key) }
    ensures { (r p : ℕ) → key_at grammar.now.rules r p ≡ Some key → slice_get (kids_in (nodes_at grammar.now.rules r) p) place ≡ result }
{
    item(grammar, key).kids.get(place)
}
