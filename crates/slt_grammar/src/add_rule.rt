// A rule that is put among the others.
ghost use Rattle.std.specs.Prelude.{◌≡◌, ◌+◌, ◌<◌, ◌≤◌, All, IsOk, OnErr, OnOk, length, take};
ghost use Rattle.rule_arena.specs.Preorder.{AreTerms};
ghost use Rattle.rule_arena.specs.Terms.{kids_of};
ghost use Rattle.slt_grammar.specs.Bodies.{real_nodes};
ghost use Rattle.slt_grammar.specs.Copying.{IsShape, holes_in};
ghost use Rattle.slt_grammar.specs.Grammars.{size, value};
ghost use Rattle.slt_grammar.specs.Keyed.{rules_of};
ghost use Rattle.slt_grammar.specs.RuleValues.{HasRuleMore};
ghost use Rattle.slt_grammar.specs.RulePuts.{AreNewParams, IsLaid, IsLawfulBefore, IsPut};

use crate::copying::build_over;
use crate::counting::add_calls;
use crate::grammar::Grammar;
use crate::rules::Body;
use crate::shape::Shape;
use crate::shaping::prepare_body;
use rule_arena::{Arena, Key, Label};
use std::alloc::AllocError;

impl Grammar {
    /// Puts a rule that nobody calls before the one at a place, the start at the latest. Later rules have the place behind, and all
    /// nodes keep their keys: none is written. It fails where memory is refused, and where there would be more than 2^32 nodes; the
    /// rules are then as before.
    pub fn add_rule(&mut self, place: usize, rank: usize, body: &Body) -> Result<(), AllocError>
        requires place { place < length self.old.rules }
        requires body { IsLawfulBefore (rules_of self.old.rules) place rank body.now }
        ensures rules { OnOk result (IsPut self.old.rules self.new.rules place rank body.now) }
        ensures refused { OnErr result (self.new.rules ≡ self.old.rules) }
        ensures value { value (rules_of self.new.rules) ≡ value (rules_of self.old.rules) }
        ensures values { OnOk result (HasRuleMore place (rules_of self.old.rules) (rules_of self.new.rules)) }
        ensures size { OnOk result (size (rules_of self.new.rules) ≡ size (rules_of self.old.rules) + real_nodes body.now) }
        ensures succeeds { length body.now ≤ self.old.spare_nodes → 0 < self.old.spare_rules → IsOk result }
        ensures spare_nodes { OnOk result (self.old.spare_nodes ≤ self.new.spare_nodes + length body.now) }
        ensures spare_rules { OnOk result (self.old.spare_rules ≤ self.new.spare_rules + 1) }
        ensures limit { self.old.limit ≤ self.new.limit }
        ensures stays { length body.now ≤ self.old.spare_nodes → self.new.limit ≡ self.old.limit }
    {
        self.reserve(0, 1)?;
        self.put_rule(place, rank, body)
    }

    // The same where there is room for a rule.
    fn put_rule(&mut self, place: usize, rank: usize, body: &Body) -> Result<(), AllocError>
        requires place { place < length self.old.rules }
        requires body { IsLawfulBefore (rules_of self.old.rules) place rank body.now }
        requires room { 0 < self.old.spare_rules }
        ensures rules { OnOk result (IsPut self.old.rules self.new.rules place rank body.now) }
        ensures refused { OnErr result (self.new.rules ≡ self.old.rules) }
        ensures value { value (rules_of self.new.rules) ≡ value (rules_of self.old.rules) }
        ensures values { OnOk result (HasRuleMore place (rules_of self.old.rules) (rules_of self.new.rules)) }
        ensures size { OnOk result (size (rules_of self.new.rules) ≡ size (rules_of self.old.rules) + real_nodes body.now) }
        ensures succeeds { length body.now ≤ self.old.spare_nodes → IsOk result }
        ensures spare_nodes { OnOk result (self.old.spare_nodes ≤ self.new.spare_nodes + length body.now) }
        ensures spare_rules { OnOk result (self.new.spare_rules + 1 ≡ self.old.spare_rules) }
        ensures limit { self.old.limit ≤ self.new.limit }
        ensures stays { length body.now ≤ self.old.spare_nodes → self.new.limit ≡ self.old.limit }
    {
        // The call tells that nodes are few.
        let _limit = self.arena.limit();
        prepare_body(
            &mut self.arena,
            &self.order,
            self.ranks.as_slice(),
            body.as_slice(),
            Key::default(),
            &mut self.shapes,
            &mut self.stack,
        )?;
        add_calls(self.calls.as_mut_slice(), body.as_slice());
        self.size += (body.len() - rank) as u64;
        let root = build_rule(
            &mut self.arena,
            self.shapes.as_slice(),
            self.stack.as_mut_slice(),
            rank,
        );
        self.order.insert(place);
        self.roots.insert(place, root).unwrap();
        self.ranks.insert(place, rank).unwrap();
        self.calls.insert(place, 0).unwrap();
        Ok(())
    }
}

// Builds a copy of these nodes, so many of which are parameters, under a new root. It takes no memory.
pub(crate) fn build_rule(arena: &mut Arena, shapes: &[Shape], stack: &mut [Key], rank: usize) -> Key
    requires room { length shapes.now ≤ arena.old.spare }
    requires term { AreTerms kids_of 1 shapes.now }
    requires shapes { All IsShape shapes.now }
    requires few { rank ≤ 8 }
    requires linear { holes_in shapes.now ≡ rank }
    requires stack { length shapes.now ≤ length stack.old }
    ensures laid { IsLaid arena.old arena.new shapes.now result }
    ensures spare { arena.new.spare + length shapes.now ≡ arena.old.spare }
    ensures limit { arena.new.limit ≡ arena.old.limit }
    ensures len { length stack.new ≡ length stack.old }
{
    let mut params = [Key::default(); 8];
    add_params(arena, &mut params, rank);
    build_over(arena, shapes, &params[..rank], stack, Key::default()).root
}

// So many new parameters, each a root.
fn add_params(arena: &mut Arena, keys: &mut [Key], count: usize)
    requires room { count ≤ arena.old.spare }
    requires fits { count ≤ length keys.old }
    ensures params { AreNewParams arena.old arena.new (take count keys.new) }
    ensures spare { arena.new.spare + count ≡ arena.old.spare }
    ensures limit { arena.new.limit ≡ arena.old.limit }
    ensures len { length keys.new ≡ length keys.old }
{
    for i in 0..count {
        keys[i] = arena.add(Label::Param, &[]);
    }
}
