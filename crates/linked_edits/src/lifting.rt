// A node that gives way to its second child while an index is kept.
ghost use Rattle.std.specs.Prelude.{◌≡◌, ◌≤◌, ◌+◌, ◌-◌, ◌<◌, length};
ghost use Rattle.slt_grammar.specs.Bodies.{real_nodes};
ghost use Rattle.slt_grammar.specs.ChangedValues.{GivesWay};
ghost use Rattle.slt_grammar.specs.Grammars.{size};
ghost use Rattle.slt_grammar.specs.Keyed.{labels_of, nodes_at, rules_of};
ghost use Rattle.slt_grammar.specs.KeyedEdits.{Stands, StandsInStart, first_child_nodes, lifted_nodes, with_nodes};
ghost use Rattle.slt_grammar.specs.RuleValues.{HaveOtherValues};
ghost use Rattle.digram_index.specs.Linked.{IsIndexOf};

use crate::runs::unlink_run;
use digram_index::{Index, item, link_node};
use slt_grammar::{Grammar, Key};
use std::marker::Brand;
use std::sync::ledger::Blank;

/// Puts the second child of a symbol of the start in its place, and frees the rest. Of what is left the second child alone is linked
/// anew. There is room for that link, so it takes no memory.
pub fn lift_linked(grammar: &mut Grammar, index: &mut Index, at: Key)
    requires node { StandsInStart grammar.old.rules at }
    requires index { IsIndexOf grammar.old index.old }
    requires links { 0 < index.old.spare_links }
    requires cells { grammar.old.limit ≤ length index.old.cells }
    ensures rules { (S : Stands grammar.old.rules at) → grammar.new.rules
        ≡ with_nodes grammar.old.rules S.rule (lifted_nodes (nodes_at grammar.old.rules S.rule) S.place) }
    ensures size { (S : Stands grammar.old.rules at) → size (rules_of grammar.new.rules)
        + (1 + real_nodes (labels_of (first_child_nodes (nodes_at grammar.old.rules S.rule) S.place))) ≡ size (rules_of grammar.old.rules) }
    ensures value { (S : StandsInStart grammar.old.rules at) → GivesWay (rules_of grammar.old.rules) (rules_of grammar.new.rules) S.node.here.place }
    ensures values { HaveOtherValues (length (rules_of grammar.old.rules) - 1) (rules_of grammar.old.rules) (rules_of grammar.new.rules) }
    ensures index { IsIndexOf grammar.new index.new }
    ensures spare_nodes { grammar.old.spare_nodes ≤ grammar.new.spare_nodes }
    ensures spare_rules { grammar.new.spare_rules ≡ grammar.old.spare_rules }
    ensures limit { grammar.new.limit ≡ grammar.old.limit }
    ensures links { index.old.spare_links ≤ index.new.spare_links + 1 }
    ensures numbers { index.new.spare_rules ≡ index.old.spare_rules }
    ensures cells { length index.old.cells ≤ length index.new.cells }
{
    // The call tells that a key stands once.
    let _limit = grammar.limit();
    let second = item(grammar, at).kids.get(1).unwrap();
    unlink_run::<Brand>(index, grammar, at, second, Blank::new(1));
    grammar.lift(at);
    link_node(index, grammar, second);
}
