// A body that is put around a node.
ghost use Rattle.std.specs.Prelude.{◌≡◌, ◌+◌, ◌-◌, ◌≤◌, ℕ, All, Some, IsOk, OnErr, OnOk, length, slice_get};
ghost use Rattle.rule_arena.specs.Preorder.{AreTerms};
ghost use Rattle.rule_arena.specs.Terms.{At, key_in, kids_of};
ghost use Rattle.rule_arena.specs.declared.key.Key.{Key};
ghost use Rattle.slt_grammar.specs.Bodies.{real_nodes};
ghost use Rattle.slt_grammar.specs.ChangedValues.{StandsWithin};
ghost use Rattle.slt_grammar.specs.Copying.{IsShape, holes_in};
ghost use Rattle.slt_grammar.specs.Grammars.{size};
ghost use Rattle.slt_grammar.specs.Holding.{AreHeld};
ghost use Rattle.slt_grammar.specs.Keyed.{rules_of};
ghost use Rattle.slt_grammar.specs.RuleValues.{HaveOtherValues};
ghost use Rattle.slt_grammar.specs.Wrapping.{IsInStart, IsWrapped, IsWrapper, Wrapped};

use crate::copying::build_over;
use crate::counting::add_calls;
use crate::grammar::Grammar;
use crate::reading::is_root;
use crate::replacing::{replace, swap};
use crate::rules::Body;
use crate::shape::Shape;
use crate::shaping::prepare_body;
use rule_arena::{Arena, Key, Label};
use std::alloc::AllocError;

impl Grammar {
    /// Puts a body around a node of the start rule, whose subterm takes the place of the body's parameter. It fails where memory is
    /// refused, and where there would be more than 2^32 nodes; the rules are then as before.
    pub fn wrap(&mut self, at: Key, body: &Body) -> Result<(), AllocError>
        requires there { IsInStart self.old.rules at }
        requires body { IsWrapper (rules_of self.old.rules) body.now }
        ensures rules { OnOk result ((S : IsInStart self.old.rules at)
            → IsWrapped self.old.rules self.new.rules S.here.rule S.here.place at body.now) }
        ensures refused { OnErr result (self.new.rules ≡ self.old.rules) }
        ensures value { OnOk result ((S : IsInStart self.old.rules at)
            → StandsWithin (rules_of self.old.rules) (rules_of self.new.rules) S.here.place body.now) }
        ensures values { OnOk result (HaveOtherValues (length (rules_of self.old.rules) - 1) (rules_of self.old.rules) (rules_of self.new.rules)) }
        ensures size { OnOk result (size (rules_of self.new.rules) ≡ size (rules_of self.old.rules) + real_nodes body.now) }
        ensures succeeds { length body.now ≤ self.old.spare_nodes → IsOk result }
        ensures spare_nodes { OnOk result (self.old.spare_nodes ≤ self.new.spare_nodes + length body.now) }
        ensures spare_rules { self.new.spare_rules ≡ self.old.spare_rules }
        ensures limit { self.old.limit ≤ self.new.limit }
        ensures stays { length body.now ≤ self.old.spare_nodes → self.new.limit ≡ self.old.limit }
    {
        // The calls tell that a key stands once.
        let _limit = self.arena.limit();
        prepare_body(
            &mut self.arena,
            &self.order,
            self.ranks.as_slice(),
            body.as_slice(),
            at,
            &mut self.shapes,
            &mut self.stack,
        )?;
        add_calls(self.calls.as_mut_slice(), body.as_slice());
        self.size += (body.len() - 1) as u64;
        let _prepared = self.arena.limit();
        wrap_at(
            &mut self.arena,
            self.roots.as_mut_slice(),
            self.shapes.as_slice(),
            self.stack.as_mut_slice(),
            at,
        );
        Ok(())
    }
}

// Puts a copy of these nodes around a node, whose term takes the parameter's place. It takes no memory.
pub(crate) fn wrap_at(
    arena: &mut Arena,
    roots: &mut [Key],
    shapes: &[Shape],
    stack: &mut [Key],
    at: Key,
)
    requires room { length shapes.now ≤ arena.old.spare }
    requires term { AreTerms kids_of 1 shapes.now }
    requires shapes { All IsShape shapes.now }
    requires linear { holes_in shapes.now ≡ 1 }
    requires keys { (q : ℕ) (k : Key) → key_in shapes.now q ≡ Some k → k ≡ at }
    requires stack { length shapes.now ≤ length stack.old }
    requires held { AreHeld arena.old roots.old }
    requires there { (i : ℕ) × (k : Key) × (x : At arena.old at) × (slice_get roots.old i ≡ Some k) × (x.root ≡ k.number) }
    ensures wrapped { (i : ℕ) (k : Key) (x : At arena.old at) → slice_get roots.old i ≡ Some k → x.root ≡ k.number
        → Wrapped arena.old arena.new roots.old roots.new i x.nodes x.place shapes.now }
    ensures spare { arena.old.spare ≤ arena.new.spare + length shapes.now }
    ensures limit { arena.new.limit ≡ arena.old.limit }
    ensures len { length stack.new ≡ length stack.old }
{
    // The calls tell that a key stands once. A leaf holds the node's place meanwhile.
    let _before = arena.limit();
    let is_root = is_root(arena, at);
    let leaf = arena.add(Label::Bottom, &[]);
    let _between = arena.limit();
    swap(arena, roots, at, is_root, leaf);
    let copied = build_over(arena, shapes, &[at], stack, leaf);
    let _after = arena.limit();
    replace(arena, roots, leaf, is_root, copied.root);
}
