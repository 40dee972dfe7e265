// A body that is put around a node of the start while an index is kept.
ghost use Rattle.std.specs.Prelude.{◌≡◌, ◌≤◌, ◌+◌, ◌-◌, ℕ, Some, length, take};
ghost use Rattle.slt_grammar.specs.Bodies.{real_nodes};
ghost use Rattle.slt_grammar.specs.ChangedValues.{StandsWithin};
ghost use Rattle.slt_grammar.specs.Grammars.{size};
ghost use Rattle.slt_grammar.specs.Keyed.{key_at, nodes_at, rules_of};
ghost use Rattle.slt_grammar.specs.RuleValues.{HaveOtherValues};
ghost use Rattle.slt_grammar.specs.Wrapping.{IsInStart, IsWrapped, IsWrapper};
ghost use Rattle.digram_index.specs.Linked.{IsIndexOf};
ghost use Rattle.linked_edits.specs.Endings.{EndsInParam, IsBelow};
ghost use Rattle.linked_edits.specs.Runs.{start_of};

use crate::runs::link_run;
use digram_index::{Index, item, site, unlink_node};
use slt_grammar::{Body, Grammar, Key};
use std::marker::Brand;
use std::sync::ledger::Blank;

/// Puts a body around a node of the start, whose term takes the place of the body's parameter: that is the last label, as in the code of
/// siblings that others follow. The body's nodes and the node itself are linked. There is room for as many nodes and links as the body has
/// labels, so it takes no memory.
pub fn wrap_linked(grammar: &mut Grammar, index: &mut Index, at: Key, body: &Body)
    requires there { IsInStart grammar.old.rules at }
    requires body { IsWrapper (rules_of grammar.old.rules) body.now }
    requires last { EndsInParam body.now }
    requires index { IsIndexOf grammar.old index.old }
    requires nodes { length body.now ≤ grammar.old.spare_nodes }
    requires links { length body.now ≤ index.old.spare_links }
    requires cells { grammar.old.limit ≤ length index.old.cells }
    ensures rules { (S : IsInStart grammar.old.rules at)
        → IsWrapped grammar.old.rules grammar.new.rules S.here.rule S.here.place at body.now }
    ensures value { (S : IsInStart grammar.old.rules at)
        → StandsWithin (rules_of grammar.old.rules) (rules_of grammar.new.rules) S.here.place body.now }
    ensures values { HaveOtherValues (length (rules_of grammar.old.rules) - 1) (rules_of grammar.old.rules) (rules_of grammar.new.rules) }
    ensures front { (S : IsInStart grammar.old.rules at)
        → take S.here.place (nodes_at grammar.new.rules (start_of grammar.new.rules)) ≡ take S.here.place (nodes_at grammar.old.rules (start_of grammar.old.rules)) }
    ensures size { size (rules_of grammar.new.rules) ≡ size (rules_of grammar.old.rules) + real_nodes body.now }
    ensures index { IsIndexOf grammar.new index.new }
    ensures spare_nodes { grammar.old.spare_nodes ≤ grammar.new.spare_nodes + length body.now }
    ensures spare_rules { grammar.new.spare_rules ≡ grammar.old.spare_rules }
    ensures limit { grammar.new.limit ≡ grammar.old.limit }
    ensures links { index.old.spare_links ≤ index.new.spare_links + length body.now }
    ensures numbers { index.new.spare_rules ≡ index.old.spare_rules }
    ensures cells { length index.old.cells ≤ length index.new.cells }
{
    // The calls tell that a key stands once, before and after.
    let _before = grammar.limit();
    let above = site(grammar, at).parent;
    unlink_node(index, at);
    grammar.wrap(at, body).unwrap();
    let _after = grammar.limit();
    let first = node_below(grammar, above);
    link_run::<Brand>(index, grammar, first, at, Blank::new(1));
}

// The node of the start that has this parent, under this place from 1 on, and the start's root where there is none.
fn node_below(grammar: &Grammar, above: Option<(Key, usize)>) -> Key
    requires { (place : ℕ) × IsBelow grammar.now.rules place above }
    ensures { (place : ℕ) → IsBelow grammar.now.rules place above → key_at grammar.now.rules (start_of grammar.now.rules) place ≡ Some result }
{
    // The call tells that the bodies are terms.
    let _limit = grammar.limit();
    let Some(link) = above else {
        return grammar.root(grammar.rules() - 1);
    };
    let kids = item(grammar, link.0).kids;
    kids.get(link.1 - 1).unwrap()
}
