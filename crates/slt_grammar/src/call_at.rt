// A term that becomes a call of a rule with whose body it begins.
ghost use Rattle.std.specs.Prelude.{◌≡◌, ◌+◌, ◌<◌, ◌≤◌, ℕ, List, Some, length, slice_get};
ghost use Rattle.rule_arena.specs.Terms.{Node, At};
ghost use Rattle.rule_arena.specs.declared.key.Key.{Key};
ghost use Rattle.slt_grammar.specs.Calling.{BeginsWith, called_nodes};
ghost use Rattle.slt_grammar.specs.Detaching.{AreArgs, Laced};
ghost use Rattle.rule_arena.specs.declared.label.Label.TheVariants.{Call};
ghost use Rattle.slt_grammar.specs.Bodies.{real_nodes};
ghost use Rattle.slt_grammar.specs.Copying.{inlined_nodes};
ghost use Rattle.slt_grammar.specs.Grammars.{body_at, size, value_at};
ghost use Rattle.slt_grammar.specs.Holding.{AreHeld, Changed};
ghost use Rattle.slt_grammar.specs.Keyed.{nodes_at, rules_of};
ghost use Rattle.slt_grammar.specs.KeyedEdits.{with_nodes};

use crate::counting::count_call;
use crate::detaching::loosen;
use crate::grammar::Grammar;
use crate::reading::is_root;
use crate::replacing::replace;
use rule_arena::{Arena, Key, Label};

impl Grammar {
    /// Makes a call of an earlier rule of a term that begins with the rule's body, over these nodes, which stand for its parameters in
    /// order: the inverse of `inline`. `match_at` finds them. It answers the call, which is a new node; the arguments and what is
    /// below them keep their keys. It takes no memory, and gives back the room that it needs, which is for a node and one for each
    /// argument.
    pub fn call_at(&mut self, at: Key, rule: usize, arguments: &[Key]) -> Key
        requires begins { BeginsWith self.old.rules at rule arguments.now }
        requires room { length arguments.now < self.old.spare_nodes }
        ensures rules { (B : BeginsWith self.old.rules at rule arguments.now) → self.new.rules
            ≡ with_nodes self.old.rules B.here.rule (called_nodes (nodes_at self.old.rules B.here.rule) B.here.place result (Call rule) B.args) }
        ensures inverse { (B : BeginsWith self.old.rules at rule arguments.now) → self.old.rules
            ≡ with_nodes self.new.rules B.here.rule (inlined_nodes (nodes_at self.new.rules B.here.rule) B.here.place (nodes_at self.new.rules rule) B.keys) }
        ensures values { (r : ℕ) → value_at (rules_of self.new.rules) r ≡ value_at (rules_of self.old.rules) r }
        ensures size { size (rules_of self.new.rules) + real_nodes (body_at (rules_of self.old.rules) rule) ≡ size (rules_of self.old.rules) + 1 }
        ensures spare_nodes { self.old.spare_nodes ≤ self.new.spare_nodes }
        ensures spare_rules { self.new.spare_rules ≡ self.old.spare_rules }
        ensures limit { self.new.limit ≡ self.old.limit }
    {
        // The call tells that a key stands once.
        let _limit = self.arena.limit();
        let root = self.roots[rule];
        let gone = count_call(&mut self.calls, &self.arena, &self.order, root, rule);
        self.size = self.size + 1 - gone as u64;
        let id = self.order.id(rule);
        call_over(
            &mut self.arena,
            self.roots.as_mut_slice(),
            at,
            Label::Call(id),
            arguments,
        )
    }
}

// Puts a node over these terms, which stand below a node, in that one's place, and frees what was between. It takes no memory.
pub(crate) fn call_over(
    arena: &mut Arena,
    roots: &mut [Key],
    at: Key,
    label: Label,
    arguments: &[Key],
) -> Key
    requires room { length arguments.now < arena.old.spare }
    requires few { length arguments.now ≤ 8 }
    requires held { AreHeld arena.old roots.old }
    requires there { (i : ℕ) × (k : Key) × (x : At arena.old at) × (args : List (List Node)) × (slice_get roots.old i ≡ Some k) × (x.root ≡ k.number)
        × Laced x.nodes x.place args × AreArgs arguments.now args }
    ensures changed { (i : ℕ) (k : Key) (x : At arena.old at) (args : List (List Node)) → slice_get roots.old i ≡ Some k → x.root ≡ k.number
        → Laced x.nodes x.place args → AreArgs arguments.now args
        → Changed arena.old arena.new roots.old roots.new i (called_nodes x.nodes x.place result label args) }
    ensures spare { arena.old.spare ≤ arena.new.spare }
    ensures limit { arena.new.limit ≡ arena.old.limit }
{
    // The calls tell that a key stands once, and that what is freed gives room.
    let _before = arena.limit();
    let is_root = is_root(arena, at);
    loosen(arena, arguments);
    let call = arena.add(label, arguments);
    let _after = arena.limit();
    replace(arena, roots, at, is_root, call);
    call
}
