// A call that gives way to its rule's body, while an index is kept.
ghost use Rattle.std.specs.Prelude.{◌≡◌, ◌≢◌, ◌+◌, ◌≤◌, ◌⊎◌, ℕ, Some, None, length};
ghost use Rattle.rule_arena.specs.Terms.{Apart};
ghost use Rattle.slt_grammar.specs.Bodies.{real_nodes};
ghost use Rattle.slt_grammar.specs.Grammars.{body_at, size, value_at};
ghost use Rattle.slt_grammar.specs.Keyed.{key_at, nodes_at, rules_of};
ghost use Rattle.slt_grammar.specs.KeyedEdits.{IsInlined, StandsAsCall};
ghost use Rattle.digram_index.specs.Linked.{IsIndexOf, cell};
ghost use Rattle.digram_index.specs.Marking.{KeepsMarked, MarksFewer};
ghost use Rattle.digram_index.specs.Partly.{IsAmong};

use crate::copying::link_copy;
use crate::index::Index;
use crate::nodes::{unlink_kids, unlink_node};
use crate::reading::{called_rule, kids_of};
use slt_grammar::{Grammar, Inlined, Key, Kids};
use std::marker::Brand;
use std::sync::ledger::Blank;

/// Replaces a call by its rule's body, and links anew what is near: the call's arguments and the copied nodes. It answers what stands in
/// the call's place now, and the copy of the node `follow` of that body; where that is a parameter, the argument in its place. There is
/// room for the body's nodes and their occurrences, so it takes no memory.
pub fn inline_linked(grammar: &mut Grammar, index: &mut Index, call: Key, follow: Key) -> Inlined
    requires call { StandsAsCall grammar.old.rules call }
    requires index { IsIndexOf grammar.old index.old }
    requires nodes { (C : StandsAsCall grammar.old.rules call) → length (nodes_at grammar.old.rules C.called) ≤ grammar.old.spare_nodes }
    requires links { (C : StandsAsCall grammar.old.rules call) → length (nodes_at grammar.old.rules C.called) ≤ index.old.spare_links }
    requires cells { grammar.old.limit ≤ length index.old.cells }
    ensures rules { (C : StandsAsCall grammar.old.rules call)
        → IsInlined grammar.old.rules grammar.new.rules C.here.rule C.here.place C.called follow result.followed }
    ensures root { (C : StandsAsCall grammar.old.rules call) → key_at grammar.new.rules C.here.rule C.here.place ≡ Some result.root }
    ensures values { (r : ℕ) → value_at (rules_of grammar.new.rules) r ≡ value_at (rules_of grammar.old.rules) r }
    ensures size { (C : StandsAsCall grammar.old.rules call)
        → size (rules_of grammar.new.rules) + 1 ≡ size (rules_of grammar.old.rules) + real_nodes (body_at (rules_of grammar.old.rules) C.called) }
    ensures index { IsIndexOf grammar.new index.new }
    ensures spare_nodes { (C : StandsAsCall grammar.old.rules call)
        → grammar.old.spare_nodes ≤ grammar.new.spare_nodes + length (nodes_at grammar.old.rules C.called) }
    ensures links { (C : StandsAsCall grammar.old.rules call)
        → index.old.spare_links ≤ index.new.spare_links + length (nodes_at grammar.old.rules C.called) }
    ensures numbers { index.new.spare_rules ≡ index.old.spare_rules }
    ensures spare_rules { grammar.new.spare_rules ≡ grammar.old.spare_rules }
    ensures limit { grammar.new.limit ≡ grammar.old.limit }
    ensures cells { length index.old.cells ≤ length index.new.cells }
    ensures marks { KeepsMarked grammar.old.rules index.old grammar.new.rules index.new }
{
    // The calls tell that a key stands once, before and after.
    let _before = grammar.limit();
    let rule = called_rule(grammar, call);
    let arguments = kids_of(grammar, call);
    unlink_call(index, call, &arguments);
    // The call tells that the call isn't marked any more.
    let _marked = index.is_marked(call);
    let inlined = grammar.inline(call, follow).unwrap();
    let _after = grammar.limit();
    link_copy::<Brand>(index, grammar, rule, inlined.root, Blank::new(1));
    inlined
}

// Takes away the occurrences of a call and of its arguments. It takes no memory.
fn unlink_call(index: &mut Index, call: Key, arguments: &Kids)
    ensures free { (n : ℕ) → (n ≡ call.number) ⊎ IsAmong arguments.now n → cell index.new n ≡ None }
    ensures others { (n : ℕ) → n ≢ call.number → Apart arguments.now n → cell index.new n ≡ cell index.old n }
    ensures stays { (n : ℕ) → cell index.old n ≡ None → cell index.new n ≡ None }
    ensures rules { index.new.rules ≡ index.old.rules }
    ensures room { length index.new.cells ≡ length index.old.cells }
    ensures spares { (index.new.spare_links ≡ index.old.spare_links) × (index.new.spare_rules ≡ index.old.spare_rules) }
    ensures marks { MarksFewer index.old index.new }
{
    unlink_node(index, call);
    unlink_kids(index, arguments);
}
