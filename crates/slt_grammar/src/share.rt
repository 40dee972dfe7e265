// A term of the start that becomes a rule of its own.
ghost use Rattle.std.specs.Prelude.{◌≡◌, ◌+◌, ◌-◌, ◌<◌, ◌≤◌, IfOk, IsOk, OnErr, OnOk, length};
ghost use Rattle.slt_grammar.specs.Grammars.{size, value};
ghost use Rattle.slt_grammar.specs.Keyed.{rules_of};
ghost use Rattle.slt_grammar.specs.KeyedEdits.{Stands, rule_shared};
ghost use Rattle.slt_grammar.specs.RuleValues.{HasRuleMore};
ghost use Rattle.slt_grammar.specs.Wrapping.{IsInStart};

use crate::grammar::Grammar;
use crate::reading::is_root;
use crate::replacing::swap;
use rule_arena::{Key, Label};
use std::alloc::AllocError;

impl Grammar {
    /// Moves the term of a node of the start into a new rule without parameters, just before the start, and answers the call that
    /// stands in its place. All nodes keep their keys, and the call has a new one. It fails where memory is refused, and where there
    /// would be more than 2^32 nodes; the rules are then as before.
    pub fn share(&mut self, at: Key) -> Result<Key, AllocError>
        requires { IsInStart self.old.rules at }
        ensures rules { IfOk result (λ key. (S : Stands self.old.rules at) → self.new.rules ≡ rule_shared self.old.rules S.rule S.place key) }
        ensures refused { OnErr result (self.new.rules ≡ self.old.rules) }
        ensures value { value (rules_of self.new.rules) ≡ value (rules_of self.old.rules) }
        ensures values { OnOk result (HasRuleMore (length self.old.rules - 1) (rules_of self.old.rules) (rules_of self.new.rules)) }
        ensures size { OnOk result (size (rules_of self.new.rules) ≡ size (rules_of self.old.rules) + 1) }
        ensures succeeds { 0 < self.old.spare_nodes → 0 < self.old.spare_rules → IsOk result }
        ensures spare_nodes { OnOk result (self.old.spare_nodes ≤ self.new.spare_nodes + 1) }
        ensures spare_rules { OnOk result (self.old.spare_rules ≤ self.new.spare_rules + 1) }
        ensures limit { self.old.limit ≤ self.new.limit }
        ensures stays { 0 < self.old.spare_nodes → self.new.limit ≡ self.old.limit }
    {
        self.reserve(1, 1)?;
        Ok(self.move_out(at))
    }

    // The same where there is room. It takes no memory.
    fn move_out(&mut self, at: Key) -> Key
        requires there { IsInStart self.old.rules at }
        requires node { 0 < self.old.spare_nodes }
        requires rule { 0 < self.old.spare_rules }
        ensures rules { (S : Stands self.old.rules at) → self.new.rules ≡ rule_shared self.old.rules S.rule S.place result }
        ensures value { value (rules_of self.new.rules) ≡ value (rules_of self.old.rules) }
        ensures values { HasRuleMore (length self.old.rules - 1) (rules_of self.old.rules) (rules_of self.new.rules) }
        ensures size { size (rules_of self.new.rules) ≡ size (rules_of self.old.rules) + 1 }
        ensures spare_nodes { self.old.spare_nodes ≤ self.new.spare_nodes + 1 }
        ensures spare_rules { self.new.spare_rules + 1 ≡ self.old.spare_rules }
        ensures limit { self.new.limit ≡ self.old.limit }
    {
        // The calls tell that a key stands once.
        let _before = self.arena.limit();
        let start = self.roots.len() - 1;
        let is_root = is_root(&self.arena, at);
        let id = self.order.insert(start);
        let call = self.arena.add(Label::Call(id), &[]);
        let _after = self.arena.limit();
        swap(
            &mut self.arena,
            self.roots.as_mut_slice(),
            at,
            is_root,
            call,
        );
        self.roots.insert(start, at).unwrap();
        self.ranks.insert(start, 0).unwrap();
        self.calls.insert(start, 1).unwrap();
        self.size += 1;
        call
    }
}
