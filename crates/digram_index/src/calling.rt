// A term that begins with a rule's body and becomes a call of the rule, while an index is kept.
ghost use Rattle.std.specs.Prelude.{◌≡◌, ◌+◌, ◌<◌, ◌≤◌, ℕ, List, Some, None, length, slice_get};
ghost use Rattle.rule_arena.specs.Terms.{kids_in};
ghost use Rattle.rule_arena.specs.declared.key.Key.{Key};
ghost use Rattle.slt_grammar.specs.Bodies.{real_nodes};
ghost use Rattle.slt_grammar.specs.Calling.{BeginsWith, called_nodes};
ghost use Rattle.slt_grammar.specs.Grammars.{body_at, size, value_at};
ghost use Rattle.slt_grammar.specs.Keyed.{nodes_at, rules_of};
ghost use Rattle.slt_grammar.specs.KeyedEdits.{Stands, with_nodes};
ghost use Rattle.slt_grammar.specs.Names.{Call};
ghost use Rattle.digram_index.specs.Calls.{IsOfBody};
ghost use Rattle.digram_index.specs.Linked.{IsIndexOf, cell};
ghost use Rattle.digram_index.specs.Marking.{KeepsMarked, MarksFewer};
ghost use Rattle.digram_index.specs.Partly.{IsAmong, IsPartOf, IsRight};

use crate::copying::next_of_copy;
use crate::index::Index;
use crate::nodes::{link_node, unlink_node};
use crate::reading::kids_of;
use read_steps::Steps;
use slt_grammar::{Grammar, Key, Kids};
use std::marker::Brand;
use std::sync::ledger::{Blank, Ledger};

/// Makes a call of an earlier rule of a term that begins with the rule's body, over these nodes, which stand for its parameters in order,
/// and links anew what is near: the call and its arguments. `Grammar::match_at` finds them. It is the inverse of `inline_linked`, and answers
/// the call. There is room for the call with a node for each argument, and for nine occurrences, so it takes no memory.
pub fn call_linked(
    grammar: &mut Grammar,
    index: &mut Index,
    at: Key,
    rule: usize,
    arguments: &Kids,
) -> Key
    requires begins { BeginsWith grammar.old.rules at rule arguments.now }
    requires index { IsIndexOf grammar.old index.old }
    requires nodes { length arguments.now < grammar.old.spare_nodes }
    requires links { 9 ≤ index.old.spare_links }
    requires cells { grammar.old.limit ≤ length index.old.cells }
    ensures rules { (B : BeginsWith grammar.old.rules at rule arguments.now) → grammar.new.rules
        ≡ with_nodes grammar.old.rules B.here.rule (called_nodes (nodes_at grammar.old.rules B.here.rule) B.here.place result (Call rule) B.args) }
    ensures values { (r : ℕ) → value_at (rules_of grammar.new.rules) r ≡ value_at (rules_of grammar.old.rules) r }
    ensures size { size (rules_of grammar.new.rules) + real_nodes (body_at (rules_of grammar.old.rules) rule) ≡ size (rules_of grammar.old.rules) + 1 }
    ensures index { IsIndexOf grammar.new index.new }
    ensures spare_nodes { grammar.old.spare_nodes ≤ grammar.new.spare_nodes }
    ensures links { index.old.spare_links ≤ index.new.spare_links + 9 }
    ensures numbers { index.new.spare_rules ≡ index.old.spare_rules }
    ensures spare_rules { grammar.new.spare_rules ≡ grammar.old.spare_rules }
    ensures limit { grammar.new.limit ≡ grammar.old.limit }
    ensures cells { length index.old.cells ≤ length index.new.cells }
    ensures marks { KeepsMarked grammar.old.rules index.old grammar.new.rules index.new }
{
    // The calls tell that a key stands once, before and after.
    let _before = grammar.limit();
    unlink_body::<Brand>(index, grammar, at, rule, Blank::new(1));
    // The call tells that no node of the body is marked any more.
    let _marked = index.is_marked(at);
    let call = grammar.call_at(at, rule, arguments.as_slice());
    let _after = grammar.limit();
    link_call(index, grammar, call);
    call
}

// Takes away the occurrences of the nodes of a term that begins with a rule's body, as far as they are of the body, and of what stands in
// the places of parameters. The nodes of the body are met beside them. It takes no memory.
fn unlink_body<L: Ledger>(index: &mut Index, grammar: &Grammar, at: Key, rule: usize, blank: Blank)
    requires begins { (arguments : List Key) × BeginsWith grammar.now.rules at rule arguments }
    requires index { IsIndexOf grammar.now index.old }
    requires name { blank.name ≡ L.name }
    requires parts { blank.parts ≡ L.parts }
    requires some { 0 < blank.parts }
    ensures free { (arguments : List Key) (B : BeginsWith grammar.now.rules at rule arguments) (n : ℕ) → IsOfBody grammar.now.rules at rule arguments B n → cell index.new n ≡ None }
    ensures others { (arguments : List Key) (B : BeginsWith grammar.now.rules at rule arguments) (n : ℕ) → (IsOfBody grammar.now.rules at rule arguments B n → ⊥) → cell index.new n ≡ cell index.old n }
    ensures stays { (n : ℕ) → cell index.old n ≡ None → cell index.new n ≡ None }
    ensures rules { index.new.rules ≡ index.old.rules }
    ensures room { length index.new.cells ≡ length index.old.cells }
    ensures spares { (index.new.spare_links ≡ index.old.spare_links) × (index.new.spare_rules ≡ index.old.spare_rules) }
    ensures marks { MarksFewer index.old index.new }
{
    let _limit = grammar.limit();
    let mut steps: Steps<L> = Steps::new(blank);
    let mut model = Some(grammar.root(rule));
    let mut copy = Some(at);
    while let Some(node) = model {
        let here = copy.unwrap();
        unlink_node(index, here);
        let label = grammar.label(node, &mut steps);
        model = grammar.next_in_preorder(node, &mut steps);
        copy = next_of_copy(grammar, here, label, model.is_some());
    }
}

// Links a call and its arguments. It takes no memory where there is room for nine occurrences.
fn link_call(index: &mut Index, grammar: &Grammar, call: Key)
    requires part { IsPartOf grammar.now index.old }
    requires there { Stands grammar.now.rules call }
    requires room { 9 ≤ index.old.spare_links }
    requires cells { grammar.now.limit ≤ length index.old.cells }
    ensures part { IsPartOf grammar.now index.new }
    ensures call { IsRight grammar.now.rules index.new call }
    ensures arguments { (S : Stands grammar.now.rules call) (k : Key) → IsAmong (kids_in (nodes_at grammar.now.rules S.rule) S.place) k.number → IsRight grammar.now.rules index.new k }
    ensures kept { (k : Key) → IsRight grammar.now.rules index.old k → IsRight grammar.now.rules index.new k }
    ensures cells { length index.old.cells ≤ length index.new.cells }
    ensures spare { index.old.spare_links ≤ index.new.spare_links + 9 }
    ensures spare_rules { index.new.spare_rules ≡ index.old.spare_rules }
    ensures marks { MarksFewer index.old index.new }
{
    // The call tells that bodies are terms.
    let _limit = grammar.limit();
    let arguments = kids_of(grammar, call);
    let _few = arguments.len();
    link_node(index, grammar, call);
    link_kids(index, grammar, &arguments);
}

// Links these nodes of the grammar. It takes no memory where there is room for them.
fn link_kids(index: &mut Index, grammar: &Grammar, kids: &Kids)
    requires part { IsPartOf grammar.now index.old }
    requires there { (i : ℕ) (k : Key) → slice_get kids.now i ≡ Some k → Stands grammar.now.rules k }
    requires room { length kids.now ≤ index.old.spare_links }
    requires cells { grammar.now.limit ≤ length index.old.cells }
    ensures part { IsPartOf grammar.now index.new }
    ensures linked { (i : ℕ) (k : Key) → slice_get kids.now i ≡ Some k → IsRight grammar.now.rules index.new k }
    ensures kept { (k : Key) → IsRight grammar.now.rules index.old k → IsRight grammar.now.rules index.new k }
    ensures cells { length index.old.cells ≤ length index.new.cells }
    ensures spare { index.old.spare_links ≤ index.new.spare_links + length kids.now }
    ensures spare_rules { index.new.spare_rules ≡ index.old.spare_rules }
    ensures marks { MarksFewer index.old index.new }
{
    for i in 0..kids.len() {
        let key = kids.get(i).unwrap();
        link_node(index, grammar, key);
    }
}
