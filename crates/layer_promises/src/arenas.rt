// Terms under keys, as rule_arena promises them.
ghost use Rattle.std.specs.Prelude.{◌≡◌, ◌≢◌, ◌+◌, ◌<◌, ◌≤◌, ℕ, None, Some, length, slice_get, ◌∷◌, []};
ghost use Rattle.rule_arena.specs.Preorder.{subterm};
ghost use Rattle.rule_arena.specs.Slots.{room};
ghost use Rattle.rule_arena.specs.Taking.{FitsItsParent, without_node};
ghost use Rattle.rule_arena.specs.Terms.{Apart, AreDistinctKeys, AreRoots, At, joined, term_at, kids_of, key_in, Node, parent_in};
ghost use Rattle.rule_arena.specs.declared.key.Key.{Key};

use read_steps::Steps;
use rule_arena::{Arena, Key, Label};
use std::sync::ledger::Ledger;

/// A node over terms becomes one term under a new key.
pub fn arena_add_told(arena: &mut Arena, label: Label, kids: &[Key]) -> Key
    requires room { 0 < arena.old.spare }
    requires few { length kids.now ≤ 8 }
    requires roots { AreRoots arena.old kids.now }
    requires distinct { AreDistinctKeys kids.now }
    ensures vacant { term_at arena.old result.number ≡ None }
    ensures fresh { ¬ At arena.old result }
    ensures term { term_at arena.new result.number
        ≡ Some (record { key = result; label = label; kids = length kids.now } ∷ joined arena.old kids.now) }
    ensures gone { (i : ℕ) (k : Key) → slice_get kids.now i ≡ Some k → term_at arena.new k.number ≡ None }
    ensures others { (r : ℕ) → r ≢ result.number → Apart kids.now r → term_at arena.new r ≡ term_at arena.old r }
    ensures spare { arena.new.spare + 1 ≡ arena.old.spare }
    ensures limit { arena.new.limit ≡ arena.old.limit }
    ensures below { result.number < arena.new.limit }
{
    arena.add(label, kids)
}

/// The node behind a node and all below it.
pub fn next_past_term_told<L: Ledger>(arena: &Arena, key: Key, steps: &mut Steps<L>) -> Option<Key>
    requires { At arena.now key }
    ensures next { (x : At arena.now key) → key_in x.nodes (x.place + length (subterm kids_of x.nodes x.place)) ≡ result }
    ensures step { steps.new ≡ steps.old + 1 }
{
    arena.next_past_term(key, steps)
}

/// A node gives way to its kids, and becomes a term of its own without kids.
pub fn dissolve_told(arena: &mut Arena, at: Key)
    requires { FitsItsParent arena.old at }
    ensures moved { (x : At arena.old at) (up : Key) (i : ℕ) → parent_in x.nodes x.place ≡ Some (up, i)
        → term_at arena.new x.root ≡ Some (without_node x.nodes up x.place) }
    ensures freed { (x : At arena.old at) (n : Node) → slice_get x.nodes x.place ≡ Some n
        → term_at arena.new at.number ≡ Some (record n { kids = 0 } ∷ []) }
    ensures others { (x : At arena.old at) (r : ℕ) → r ≢ x.root → r ≢ at.number → term_at arena.new r ≡ term_at arena.old r }
    ensures spare { arena.new.spare ≡ arena.old.spare }
    ensures limit { arena.new.limit ≡ arena.old.limit }
{
    arena.dissolve(at)
}
