// A rule that goes, while an index is kept.
ghost use Rattle.std.specs.Prelude.{◌≡◌, ◌+◌, ◌<◌, ◌≤◌, length};
ghost use Rattle.slt_grammar.specs.Bodies.{real_nodes};
ghost use Rattle.slt_grammar.specs.Grammars.{body_at, calls_of, size, value};
ghost use Rattle.slt_grammar.specs.Keyed.{rules_of};
ghost use Rattle.slt_grammar.specs.KeyedEdits.{rule_dropped};
ghost use Rattle.slt_grammar.specs.RuleValues.{HasRuleMore};
ghost use Rattle.digram_index.specs.Linked.{IsIndexOf};
ghost use Rattle.digram_index.specs.Marking.{KeepsMarked};

use crate::building::unlink_nodes;
use crate::index::Index;
use slt_grammar::Grammar;
use std::marker::Brand;
use std::sync::ledger::Blank;

/// Drops a rule that is not called, and not the start, with the occurrences in its body. Later rules have the place before, and all
/// nodes of other rules keep their keys. It takes no memory.
pub fn drop_linked(grammar: &mut Grammar, index: &mut Index, rule: usize)
    requires there { rule + 1 < length grammar.old.rules }
    requires uncalled { calls_of (rules_of grammar.old.rules) rule ≡ 0 }
    requires index { IsIndexOf grammar.old index.old }
    ensures rules { grammar.new.rules ≡ rule_dropped grammar.old.rules rule }
    ensures size { size (rules_of grammar.new.rules) + real_nodes (body_at (rules_of grammar.old.rules) rule) ≡ size (rules_of grammar.old.rules) }
    ensures value { value (rules_of grammar.new.rules) ≡ value (rules_of grammar.old.rules) }
    ensures values { HasRuleMore rule (rules_of grammar.new.rules) (rules_of grammar.old.rules) }
    ensures index { IsIndexOf grammar.new index.new }
    ensures spare_nodes { grammar.old.spare_nodes ≤ grammar.new.spare_nodes }
    ensures spare_rules { grammar.new.spare_rules ≡ grammar.old.spare_rules + 1 }
    ensures limit { grammar.new.limit ≡ grammar.old.limit }
    ensures links { index.new.spare_links ≡ index.old.spare_links }
    ensures numbers { index.old.spare_rules ≤ index.new.spare_rules }
    ensures cells { length index.new.cells ≡ length index.old.cells }
    ensures marks { KeepsMarked grammar.old.rules index.old grammar.new.rules index.new }
{
    // The call tells that a key stands once.
    let _limit = grammar.limit();
    unlink_nodes::<Brand>(index, grammar, rule, Blank::new(1));
    index.remove_rule(rule);
    grammar.drop_rule(rule);
}
