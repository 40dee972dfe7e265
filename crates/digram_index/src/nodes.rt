// Nodes of a grammar that are read, unlinked and linked one by one.
ghost use Rattle.std.specs.Prelude.{◌≡◌, ◌≢◌, ◌+◌, ◌<◌, ◌≤◌, ◌⊎◌, ℕ, Some, None, IsSome, MatchBool, length, slice_get};
ghost use Rattle.rule_arena.specs.Terms.{Apart, kids_in, parent_in};
ghost use Rattle.rule_arena.specs.declared.key.Key.{Key};
ghost use Rattle.slt_grammar.specs.Algebras.{ranks_of};
ghost use Rattle.slt_grammar.specs.Bodies.{arity};
ghost use Rattle.slt_grammar.specs.Names.{Param};
ghost use Rattle.slt_grammar.specs.Keyed.{key_at, nodes_at, rules_of};
ghost use Rattle.slt_grammar.specs.KeyedEdits.{Stands};
ghost use Rattle.digram_index.specs.Digrams.{Cell, OccursAt, occurrence_at};
ghost use Rattle.digram_index.specs.Linked.{cell};
ghost use Rattle.digram_index.specs.Marking.{MarksFewer};
ghost use Rattle.digram_index.specs.Partly.{IsPartOf, IsRight};

use crate::index::Index;
use read_steps::Steps;
use slt_grammar::{Grammar, Item, Key, Kids, Label, Site};
use std::marker::Brand;
use std::sync::ledger::{Blank, Ledger};

/// What stands at a node.
pub fn item(grammar: &Grammar, key: Key) -> Item
    requires { (r : ℕ) × (p : ℕ) × (key_at grammar.now.rules r p ≡ Some key) }
    ensures node { (r p : ℕ) → key_at grammar.now.rules r p ≡ Some key → slice_get (nodes_at grammar.now.rules r) p
        ≡ Some (record { key = key; label = result.label; kids = length result.kids }) }
    ensures parent { (r p : ℕ) → key_at grammar.now.rules r p ≡ Some key → parent_in (nodes_at grammar.now.rules r) p ≡ result.parent }
    ensures kids { (r p : ℕ) → key_at grammar.now.rules r p ≡ Some key → kids_in (nodes_at grammar.now.rules r) p ≡ result.kids }
{
    item_of::<Brand>(grammar, key, Blank::new(1))
}

fn item_of<L: Ledger>(grammar: &Grammar, key: Key, blank: Blank) -> Item
    requires there { (r : ℕ) × (p : ℕ) × (key_at grammar.now.rules r p ≡ Some key) }
    requires name { blank.name ≡ L.name }
    requires parts { blank.parts ≡ L.parts }
    requires some { 0 < blank.parts }
    ensures node { (r p : ℕ) → key_at grammar.now.rules r p ≡ Some key → slice_get (nodes_at grammar.now.rules r) p
        ≡ Some (record { key = key; label = result.label; kids = length result.kids }) }
    ensures parent { (r p : ℕ) → key_at grammar.now.rules r p ≡ Some key → parent_in (nodes_at grammar.now.rules r) p ≡ result.parent }
    ensures kids { (r p : ℕ) → key_at grammar.now.rules r p ≡ Some key → kids_in (nodes_at grammar.now.rules r) p ≡ result.kids }
{
    let mut steps: Steps<L> = Steps::new(blank);
    grammar.item(key, &mut steps)
}

/// What stands at a node, without the keys of its children.
pub fn site(grammar: &Grammar, key: Key) -> Site
    requires { (r : ℕ) × (p : ℕ) × (key_at grammar.now.rules r p ≡ Some key) }
    ensures node { (r p : ℕ) → key_at grammar.now.rules r p ≡ Some key → slice_get (nodes_at grammar.now.rules r) p
        ≡ Some (record { key = key; label = result.label; kids = result.arity }) }
    ensures parent { (r p : ℕ) → key_at grammar.now.rules r p ≡ Some key → parent_in (nodes_at grammar.now.rules r) p ≡ result.parent }
{
    site_of::<Brand>(grammar, key, Blank::new(1))
}

fn site_of<L: Ledger>(grammar: &Grammar, key: Key, blank: Blank) -> Site
    requires there { (r : ℕ) × (p : ℕ) × (key_at grammar.now.rules r p ≡ Some key) }
    requires name { blank.name ≡ L.name }
    requires parts { blank.parts ≡ L.parts }
    requires some { 0 < blank.parts }
    ensures node { (r p : ℕ) → key_at grammar.now.rules r p ≡ Some key → slice_get (nodes_at grammar.now.rules r) p
        ≡ Some (record { key = key; label = result.label; kids = result.arity }) }
    ensures parent { (r p : ℕ) → key_at grammar.now.rules r p ≡ Some key → parent_in (nodes_at grammar.now.rules r) p ≡ result.parent }
{
    let mut steps: Steps<L> = Steps::new(blank);
    grammar.site(key, &mut steps)
}

/// The next node of the same body.
pub fn following(grammar: &Grammar, key: Key) -> Option<Key>
    requires { (r : ℕ) × (p : ℕ) × (key_at grammar.now.rules r p ≡ Some key) }
    ensures { (r p : ℕ) → key_at grammar.now.rules r p ≡ Some key → key_at grammar.now.rules r (p + 1) ≡ result }
{
    following_of::<Brand>(grammar, key, Blank::new(1))
}

fn following_of<L: Ledger>(grammar: &Grammar, key: Key, blank: Blank) -> Option<Key>
    requires there { (r : ℕ) × (p : ℕ) × (key_at grammar.now.rules r p ≡ Some key) }
    requires name { blank.name ≡ L.name }
    requires parts { blank.parts ≡ L.parts }
    requires some { 0 < blank.parts }
    ensures { (r p : ℕ) → key_at grammar.now.rules r p ≡ Some key → key_at grammar.now.rules r (p + 1) ≡ result }
{
    let mut steps: Steps<L> = Steps::new(blank);
    grammar.next_in_preorder(key, &mut steps)
}

/// Takes away the occurrence of a node, where it is linked. It takes no memory.
pub fn unlink_node(index: &mut Index, key: Key)
    ensures free { cell index.new key.number ≡ None }
    ensures others { (k : ℕ) → k ≢ key.number → cell index.new k ≡ cell index.old k }
    ensures rules { index.new.rules ≡ index.old.rules }
    ensures room { length index.new.cells ≡ length index.old.cells }
    ensures spares { (index.new.spare_links ≡ index.old.spare_links) × (index.new.spare_rules ≡ index.old.spare_rules) }
    ensures marks { MarksFewer index.old index.new }
{
    if index.is_linked(key) {
        index.unlink(key);
    }
}

/// Takes away the occurrences of these nodes. It takes no memory.
pub fn unlink_kids(index: &mut Index, kids: &Kids)
    ensures free { (i : ℕ) (k : Key) → slice_get kids.now i ≡ Some k → cell index.new k.number ≡ None }
    ensures others { (n : ℕ) → Apart kids.now n → cell index.new n ≡ cell index.old n }
    ensures stays { (n : ℕ) → cell index.old n ≡ None → cell index.new n ≡ None }
    ensures rules { index.new.rules ≡ index.old.rules }
    ensures room { length index.new.cells ≡ length index.old.cells }
    ensures spares { (index.new.spare_links ≡ index.old.spare_links) × (index.new.spare_rules ≡ index.old.spare_rules) }
    ensures marks { MarksFewer index.old index.new }
{
    for i in 0..kids.len() {
        let key = kids.get(i).unwrap();
        unlink_node(index, key);
    }
}

/// Links a node of the grammar where it is the lower node of an occurrence that is not linked. There is room for it, so it takes no memory.
pub fn link_node(index: &mut Index, grammar: &Grammar, key: Key)
    requires part { IsPartOf grammar.now index.old }
    requires there { Stands grammar.now.rules key }
    requires room { 0 < index.old.spare_links }
    requires cells { grammar.now.limit ≤ length index.old.cells }
    ensures part { IsPartOf grammar.now index.new }
    ensures right { IsRight grammar.now.rules index.new key }
    ensures others { (k : ℕ) → k ≢ key.number → cell index.new k ≡ cell index.old k }
    ensures cells { length index.old.cells ≤ length index.new.cells }
    ensures spare { index.old.spare_links ≤ index.new.spare_links + 1 }
    ensures spare_rules { index.new.spare_rules ≡ index.old.spare_rules }
    ensures marks { MarksFewer index.old index.new }
{
    let _limit = grammar.limit();
    if index.is_linked(key) {
        return;
    }
    if is_lower(grammar, key) {
        index.link_reserved(grammar, key);
    }
}

// Whether a node is the lower node of an occurrence.
pub(crate) fn is_lower(grammar: &Grammar, key: Key) -> bool
    requires { (r : ℕ) × (p : ℕ) × (key_at grammar.now.rules r p ≡ Some key) }
    ensures { MatchBool result ((o : Cell) × OccursAt grammar.now.rules key o) ((r p : ℕ) → key_at grammar.now.rules r p ≡ Some key → occurrence_at grammar.now.rules r p ≡ None) }
{
    let site = site(grammar, key);
    is_real(site.parent, site.label)
}

// Whether a node with this parent and this label is the lower node of an occurrence.
fn is_real(parent: Option<(Key, usize)>, label: Label) -> bool
    ensures { MatchBool result (IsSome parent × (label ≢ Param)) ((parent ≡ None) ⊎ (label ≡ Param)) }
{
    if parent.is_none() {
        return false;
    }
    match label {
        Label::Param => false,
        _ => true,
    }
}

/// How many children a node with a label has.
pub fn arity_of(grammar: &Grammar, label: Label) -> usize
    ensures value { result ≡ arity (ranks_of (rules_of grammar.now.rules)) label }
    ensures small { result ≤ 8 }
{
    match label {
        Label::Symbol(_) => 2,
        Label::Call(rule) => {
            if rule < grammar.rules() {
                grammar.rank(rule)
            } else {
                0
            }
        }
        _ => 0,
    }
}
