// Changes of one rule's body.
ghost use Rattle.std.specs.Prelude.{◌≡◌, ◌+◌, ◌-◌, ◌≤◌, ℕ, IfOk, IsOk, OnErr, OnOk, Some, length};
ghost use Rattle.rule_arena.specs.Terms.{labelled};
ghost use Rattle.rule_arena.specs.declared.label.Label.TheVariants.{Call, Symbol};
ghost use Rattle.slt_grammar.specs.ChangedValues.{ChangesSymbol, GivesWay};
ghost use Rattle.slt_grammar.specs.Bodies.{real_nodes};
ghost use Rattle.slt_grammar.specs.Grammars.{body_at, size, value_at};
ghost use Rattle.slt_grammar.specs.Keyed.{key_at, labels_of, nodes_at, rules_of};
ghost use Rattle.slt_grammar.specs.KeyedEdits.{FoldsInto, IsInlined, Stands, StandsAsCall, StandsAsSymbol, StandsInStart, first_child_nodes, folded_nodes, lifted_nodes, with_nodes};
ghost use Rattle.slt_grammar.specs.RuleValues.{HaveOtherValues};

use crate::collecting::prepare;
use crate::counting::{count_copy, drop_term, recount};
use crate::fold::fold_at;
use crate::grammar::Grammar;
use crate::inline::{Inlined, inline_at};
use crate::lift::lift_at;
use crate::reading::{called_rule, label_in, parent_of};
use rule_arena::{Key, Label};
use std::alloc::AllocError;

impl Grammar {
    /// Gives a node another symbol in the place of its own. It takes no memory.
    pub fn relabel(&mut self, at: Key, symbol: usize)
        requires { StandsAsSymbol self.old.rules at }
        ensures rules { (S : Stands self.old.rules at) → self.new.rules
            ≡ with_nodes self.old.rules S.rule (labelled (nodes_at self.old.rules S.rule) S.place (Symbol symbol)) }
        ensures size { size (rules_of self.new.rules) ≡ size (rules_of self.old.rules) }
        ensures value { (S : StandsInStart self.old.rules at) → ChangesSymbol (rules_of self.old.rules) (rules_of self.new.rules) S.node.here.place symbol }
        ensures values { StandsInStart self.old.rules at → HaveOtherValues (length (rules_of self.old.rules) - 1) (rules_of self.old.rules) (rules_of self.new.rules) }
        ensures spare_nodes { self.new.spare_nodes ≡ self.old.spare_nodes }
        ensures spare_rules { self.new.spare_rules ≡ self.old.spare_rules }
        ensures limit { self.new.limit ≡ self.old.limit }
    {
        self.arena.relabel(at, Label::Symbol(symbol));
    }

    /// Replaces a node and its parent by a call of an earlier rule, whose body is the two over parameters. Its arguments are their
    /// other children in order. It answers the call, which is the parent and has its key. It takes no memory.
    pub fn fold(&mut self, lower: Key, rule: usize) -> Key
        requires { FoldsInto self.old.rules lower rule }
        ensures rules { (F : FoldsInto self.old.rules lower rule) → self.new.rules ≡ with_nodes self.old.rules F.here.rule
            (folded_nodes (nodes_at self.old.rules F.here.rule) F.place F.upper F.here.place (Call rule)) }
        ensures call { (F : FoldsInto self.old.rules lower rule) → result ≡ F.upper }
        ensures values { (r : ℕ) → value_at (rules_of self.new.rules) r ≡ value_at (rules_of self.old.rules) r }
        ensures size { size (rules_of self.new.rules) + 1 ≡ size (rules_of self.old.rules) }
        ensures spare_nodes { self.old.spare_nodes ≤ self.new.spare_nodes }
        ensures spare_rules { self.new.spare_rules ≡ self.old.spare_rules }
        ensures limit { self.new.limit ≡ self.old.limit }
    {
        // The call tells that a key stands once.
        let _limit = self.arena.limit();
        let upper = parent_of(&self.arena, lower);
        let gone = [
            label_in(&self.arena, &self.order, upper),
            label_in(&self.arena, &self.order, lower),
        ];
        recount(&mut self.calls, &gone, &[Label::Call(rule)]);
        self.size -= 1;
        let id = self.order.id(rule);
        fold_at(&mut self.arena, upper, lower, Label::Call(id));
        upper
    }

    /// Puts the second child of a symbol of the start rule in its place, and frees the rest. It takes no memory.
    pub fn lift(&mut self, at: Key)
        requires { StandsInStart self.old.rules at }
        ensures rules { (S : Stands self.old.rules at) → self.new.rules
            ≡ with_nodes self.old.rules S.rule (lifted_nodes (nodes_at self.old.rules S.rule) S.place) }
        ensures size { (S : Stands self.old.rules at) → size (rules_of self.new.rules)
            + (1 + real_nodes (labels_of (first_child_nodes (nodes_at self.old.rules S.rule) S.place))) ≡ size (rules_of self.old.rules) }
        ensures value { (S : StandsInStart self.old.rules at) → GivesWay (rules_of self.old.rules) (rules_of self.new.rules) S.node.here.place }
        ensures values { HaveOtherValues (length (rules_of self.old.rules) - 1) (rules_of self.old.rules) (rules_of self.new.rules) }
        ensures spare_nodes { self.old.spare_nodes ≤ self.new.spare_nodes }
        ensures spare_rules { self.new.spare_rules ≡ self.old.spare_rules }
        ensures limit { self.new.limit ≡ self.old.limit }
    {
        // The call tells that a key stands once.
        let _limit = self.arena.limit();
        lift_at(&mut self.arena, self.roots.as_mut_slice(), at);
        let gone = drop_term(&self.arena, &self.order, at, self.calls.as_mut_slice());
        self.size -= gone as u64;
        self.arena.cut(at);
    }

    /// Replaces a call by its rule's body, whose nodes are copied, over the call's arguments. It answers what stands in the call's place
    /// now, and the copy of the node `follow` of that body; where that is a parameter, the argument in its place. It fails where memory is refused, and where there would be
    /// more than 2^32 nodes; the rules are then as before.
    pub fn inline(&mut self, call: Key, follow: Key) -> Result<Inlined, AllocError>
        requires { StandsAsCall self.old.rules call }
        ensures rules { IfOk result (λ inlined. (C : StandsAsCall self.old.rules call)
            → IsInlined self.old.rules self.new.rules C.here.rule C.here.place C.called follow inlined.followed) }
        ensures root { IfOk result (λ inlined. (C : StandsAsCall self.old.rules call)
            → key_at self.new.rules C.here.rule C.here.place ≡ Some inlined.root) }
        ensures refused { OnErr result (self.new.rules ≡ self.old.rules) }
        ensures values { (r : ℕ) → value_at (rules_of self.new.rules) r ≡ value_at (rules_of self.old.rules) r }
        ensures size { OnOk result ((C : StandsAsCall self.old.rules call)
            → size (rules_of self.new.rules) + 1 ≡ size (rules_of self.old.rules) + real_nodes (body_at (rules_of self.old.rules) C.called)) }
        ensures succeeds { (C : StandsAsCall self.old.rules call) → length (nodes_at self.old.rules C.called) ≤ self.old.spare_nodes
            → IsOk result }
        ensures spare_nodes { OnOk result ((C : StandsAsCall self.old.rules call)
            → self.old.spare_nodes ≤ self.new.spare_nodes + length (nodes_at self.old.rules C.called)) }
        ensures spare_rules { self.new.spare_rules ≡ self.old.spare_rules }
        ensures limit { self.old.limit ≤ self.new.limit }
        ensures stays { (C : StandsAsCall self.old.rules call) → length (nodes_at self.old.rules C.called) ≤ self.old.spare_nodes
            → self.new.limit ≡ self.old.limit }
    {
        // The call tells that a key stands once.
        let _limit = self.arena.limit();
        let rule = called_rule(&self.arena, &self.order, call);
        let root = self.roots[rule];
        prepare(&mut self.arena, root, &mut self.shapes, &mut self.stack)?;
        let come = count_copy(&mut self.calls, &self.order, self.shapes.as_slice(), rule);
        self.size = self.size + come as u64 - 1;
        let _prepared = self.arena.limit();
        Ok(inline_at(
            &mut self.arena,
            self.roots.as_mut_slice(),
            self.shapes.as_slice(),
            self.stack.as_mut_slice(),
            call,
            follow,
        ))
    }
}
