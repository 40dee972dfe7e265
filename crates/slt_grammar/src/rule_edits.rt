// Changes of the list of rules.
ghost use Rattle.std.specs.Prelude.{◌≡◌, ◌+◌, ◌<◌, ◌≤◌, IsOk, OnOk, length};
ghost use Rattle.slt_grammar.specs.Bodies.{real_nodes};
ghost use Rattle.slt_grammar.specs.Grammars.{body_at, calls_of, size, value, IsSwept};
ghost use Rattle.slt_grammar.specs.Keyed.{rules_of};
ghost use Rattle.slt_grammar.specs.KeyedEdits.{rule_dropped, DropsTo};
ghost use Rattle.slt_grammar.specs.RuleValues.{HasRuleMore};

use crate::collecting::widen;
use crate::counting::drop_term;
use crate::grammar::Grammar;
use std::alloc::AllocError;

impl Grammar {
    /// Makes room for so many more nodes and rules. Where there is room already, no memory is taken. It fails where memory is
    /// refused, and where there would be more than 2^32 nodes; the rules stay in any case.
    pub fn reserve(&mut self, nodes: usize, rules: usize) -> Result<(), AllocError>
        ensures nodes { OnOk result (nodes ≤ self.new.spare_nodes) }
        ensures places { OnOk result (rules ≤ self.new.spare_rules) }
        ensures succeeds { nodes ≤ self.old.spare_nodes → rules ≤ self.old.spare_rules → IsOk result }
        ensures rules { self.new.rules ≡ self.old.rules }
        ensures grown { OnOk result (self.old.spare_nodes ≤ self.new.spare_nodes) }
        ensures grown_rules { self.old.spare_rules ≤ self.new.spare_rules }
        ensures limit { self.old.limit ≤ self.new.limit }
        ensures stays { nodes ≤ self.old.spare_nodes → self.new.limit ≡ self.old.limit }
    {
        self.order.reserve(rules)?;
        self.roots.reserve(rules)?;
        self.ranks.reserve(rules)?;
        self.calls.reserve(rules)?;
        self.shapes.clear();
        self.shapes.reserve(nodes)?;
        widen(&mut self.stack, nodes)?;
        self.arena.reserve(nodes)
    }

    /// Drops a rule that is not called, and not the start. Later rules have the place before, and all nodes of other rules keep their
    /// keys: none is written. It takes no memory.
    pub fn drop_rule(&mut self, rule: usize)
        requires there { rule + 1 < length self.old.rules }
        requires uncalled { calls_of (rules_of self.old.rules) rule ≡ 0 }
        ensures rules { self.new.rules ≡ rule_dropped self.old.rules rule }
        ensures size { size (rules_of self.new.rules) + real_nodes (body_at (rules_of self.old.rules) rule) ≡ size (rules_of self.old.rules) }
        ensures value { value (rules_of self.new.rules) ≡ value (rules_of self.old.rules) }
        ensures values { HasRuleMore rule (rules_of self.new.rules) (rules_of self.old.rules) }
        ensures spare_nodes { self.old.spare_nodes ≤ self.new.spare_nodes }
        ensures spare_rules { self.new.spare_rules ≡ self.old.spare_rules + 1 }
        ensures limit { self.new.limit ≡ self.old.limit }
    {
        let root = self.roots.remove(rule);
        let gone = drop_term(&self.arena, &self.order, root, self.calls.as_mut_slice());
        self.size -= gone as u64;
        self.arena.cut(root);
        self.ranks.remove(rule);
        self.calls.remove(rule);
        self.order.remove(rule);
    }

    /// Drops all rules that the start doesn't reach. The others keep their order, and their nodes their keys. It takes no memory.
    pub fn sweep(&mut self)
        ensures rules { DropsTo self.old.rules self.new.rules }
        ensures size { size (rules_of self.new.rules) ≤ size (rules_of self.old.rules) }
        ensures swept { IsSwept (rules_of self.new.rules) }
        ensures value { value (rules_of self.new.rules) ≡ value (rules_of self.old.rules) }
        ensures spare_nodes { self.old.spare_nodes ≤ self.new.spare_nodes }
        ensures spare_rules { self.old.spare_rules ≤ self.new.spare_rules }
        ensures limit { self.new.limit ≡ self.old.limit }
    {
        // A rule calls earlier ones alone: once it is looked at, no later rule loses a call any more.
        let last = self.rules() - 1;
        for rule in (0..last).rev() {
            let _rules = self.rules();
            if self.calls(rule) == 0 {
                self.drop_rule(rule);
            }
        }
    }
}
