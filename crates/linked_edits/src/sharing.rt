// A term of the start that becomes a rule of its own while an index is kept.
ghost use Rattle.std.specs.Prelude.{◌≡◌, ◌≤◌, ◌+◌, ◌-◌, ◌<◌, length};
ghost use Rattle.slt_grammar.specs.Grammars.{size, value};
ghost use Rattle.slt_grammar.specs.Keyed.{rules_of};
ghost use Rattle.slt_grammar.specs.KeyedEdits.{Stands, rule_shared};
ghost use Rattle.slt_grammar.specs.RuleValues.{HasRuleMore};
ghost use Rattle.slt_grammar.specs.Wrapping.{IsInStart};
ghost use Rattle.digram_index.specs.Linked.{IsIndexOf};

use digram_index::{Index, link_node, unlink_node};
use slt_grammar::{Grammar, Key};

/// Moves the term of a node of the start into a new rule just before the start, and answers the call that stands in its place. That
/// call alone is linked. There is room for a node, a rule and a link, so it takes no memory.
pub fn share_linked(grammar: &mut Grammar, index: &mut Index, at: Key) -> Key
    requires there { IsInStart grammar.old.rules at }
    requires index { IsIndexOf grammar.old index.old }
    requires node { 0 < grammar.old.spare_nodes }
    requires rule { 0 < grammar.old.spare_rules }
    requires links { 0 < index.old.spare_links }
    requires number { 0 < index.old.spare_rules }
    requires cells { grammar.old.limit ≤ length index.old.cells }
    ensures rules { (S : Stands grammar.old.rules at) → grammar.new.rules ≡ rule_shared grammar.old.rules S.rule S.place result }
    ensures value { value (rules_of grammar.new.rules) ≡ value (rules_of grammar.old.rules) }
    ensures values { HasRuleMore (length grammar.old.rules - 1) (rules_of grammar.old.rules) (rules_of grammar.new.rules) }
    ensures size { size (rules_of grammar.new.rules) ≡ size (rules_of grammar.old.rules) + 1 }
    ensures index { IsIndexOf grammar.new index.new }
    ensures spare_nodes { grammar.old.spare_nodes ≤ grammar.new.spare_nodes + 1 }
    ensures spare_rules { grammar.old.spare_rules ≤ grammar.new.spare_rules + 1 }
    ensures limit { grammar.new.limit ≡ grammar.old.limit }
    ensures links { index.old.spare_links ≤ index.new.spare_links + 1 }
    ensures numbers { index.old.spare_rules ≤ index.new.spare_rules + 1 }
    ensures cells { length index.old.cells ≤ length index.new.cells }
{
    // The calls tell that a key stands once, before and after.
    let _before = grammar.limit();
    let start = grammar.rules() - 1;
    index.insert_rule(start).unwrap();
    unlink_node(index, at);
    let call = grammar.share(at).unwrap();
    let _after = grammar.limit();
    link_node(index, grammar, call);
    call
}
