// A node that gets another symbol while an index is kept.
ghost use Rattle.std.specs.Prelude.{◌≡◌, ◌≤◌, ◌+◌, ◌-◌, length};
ghost use Rattle.rule_arena.specs.Terms.{labelled};
ghost use Rattle.slt_grammar.specs.ChangedValues.{ChangesSymbol};
ghost use Rattle.slt_grammar.specs.Grammars.{size};
ghost use Rattle.slt_grammar.specs.Keyed.{nodes_at, rules_of};
ghost use Rattle.slt_grammar.specs.KeyedEdits.{Stands, StandsAsSymbol, StandsInStart, with_nodes};
ghost use Rattle.slt_grammar.specs.Names.{Symbol};
ghost use Rattle.slt_grammar.specs.RuleValues.{HaveOtherValues};
ghost use Rattle.digram_index.specs.Linked.{IsIndexOf};

use digram_index::{Index, item, link_node, unlink_node};
use slt_grammar::{Grammar, Key};

/// Gives a node another symbol in the place of its own, and links it and its two children anew. There is room for these three links, so it
/// takes no memory.
pub fn relabel_linked(grammar: &mut Grammar, index: &mut Index, at: Key, symbol: usize)
    requires node { StandsAsSymbol grammar.old.rules at }
    requires index { IsIndexOf grammar.old index.old }
    requires links { 3 ≤ index.old.spare_links }
    requires cells { grammar.old.limit ≤ length index.old.cells }
    ensures rules { (S : Stands grammar.old.rules at) → grammar.new.rules
        ≡ with_nodes grammar.old.rules S.rule (labelled (nodes_at grammar.old.rules S.rule) S.place (Symbol symbol)) }
    ensures size { size (rules_of grammar.new.rules) ≡ size (rules_of grammar.old.rules) }
    ensures value { (S : StandsInStart grammar.old.rules at) → ChangesSymbol (rules_of grammar.old.rules) (rules_of grammar.new.rules) S.node.here.place symbol }
    ensures values { StandsInStart grammar.old.rules at
        → HaveOtherValues (length (rules_of grammar.old.rules) - 1) (rules_of grammar.old.rules) (rules_of grammar.new.rules) }
    ensures index { IsIndexOf grammar.new index.new }
    ensures spare_nodes { grammar.new.spare_nodes ≡ grammar.old.spare_nodes }
    ensures spare_rules { grammar.new.spare_rules ≡ grammar.old.spare_rules }
    ensures limit { grammar.new.limit ≡ grammar.old.limit }
    ensures links { index.old.spare_links ≤ index.new.spare_links + 3 }
    ensures numbers { index.new.spare_rules ≡ index.old.spare_rules }
    ensures cells { length index.old.cells ≤ length index.new.cells }
{
    // The calls tell that a key stands once, before and after.
    let _before = grammar.limit();
    let kids = item(grammar, at).kids;
    let first = kids.get(0).unwrap();
    let second = kids.get(1).unwrap();
    unlink_node(index, at);
    unlink_node(index, first);
    unlink_node(index, second);
    grammar.relabel(at, symbol);
    let _after = grammar.limit();
    link_node(index, grammar, at);
    link_node(index, grammar, first);
    link_node(index, grammar, second);
}
