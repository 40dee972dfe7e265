// A node that gives way to its second child.
ghost use Rattle.std.specs.Prelude.{◌≡◌, ◌↔◌, IsTrue, ◌+◌, ◌∷◌, [], ℕ, List, Some, slice_get, get_or, drop};
ghost use Rattle.rule_arena.specs.Preorder.{terms};
ghost use Rattle.rule_arena.specs.Terms.{Node, At, Apart, kids_in, kids_of, term_at};
ghost use Rattle.rule_arena.specs.declared.key.Key.{Key};
ghost use Rattle.slt_grammar.specs.Holding.{AreHeld, Changed};
ghost use Rattle.slt_grammar.specs.KeyedEdits.{lifted_nodes};

use crate::reading::look;
use crate::replacing::swap;
use rule_arena::{Arena, Key};

// Puts the second child of a node with two in its place. The node becomes a root that holds no body, over its first child.
pub(crate) fn lift_at(arena: &mut Arena, roots: &mut [Key], at: Key)
    requires held { AreHeld arena.old roots.old }
    requires there { (i : ℕ) × (k : Key) × (x : At arena.old at) × (n : Node) × (slice_get roots.old i ≡ Some k) × (x.root ≡ k.number)
        × (slice_get x.nodes x.place ≡ Some n) × (n.kids ≡ 2) }
    ensures changed { (i : ℕ) (k : Key) (x : At arena.old at) → slice_get roots.old i ≡ Some k → x.root ≡ k.number
        → Changed arena.old arena.new roots.old roots.new i (lifted_nodes x.nodes x.place) }
    ensures out { (x : At arena.old at) (n : Node) → slice_get x.nodes x.place ≡ Some n
        → term_at arena.new at.number ≡ Some (record n { kids = 1 } ∷ get_or (terms kids_of 2 (drop (x.place + 1) x.nodes)) 0 []) }
    ensures apart { Apart roots.new at.number }
    ensures spare { arena.new.spare ≡ arena.old.spare }
    ensures limit { arena.new.limit ≡ arena.old.limit }
{
    // The calls tell that a key stands once.
    let _before = arena.limit();
    let (is_root, second) = root_and_second(arena, at);
    arena.detach(second);
    let _after = arena.limit();
    swap(arena, roots, at, is_root, second);
}

// Whether a node is the root of its term, and its second child.
fn root_and_second(arena: &Arena, at: Key) -> (bool, Key)
    requires { (x : At arena.now at) × (n : Node) × (slice_get x.nodes x.place ≡ Some n) × (n.kids ≡ 2) }
    ensures root { (x : At arena.now at) → IsTrue result.0 ↔ (x.place ≡ 0) }
    ensures second { (x : At arena.now at) → slice_get (kids_in x.nodes x.place) 1 ≡ Some result.1 }
{
    let _limit = arena.limit();
    let item = look(arena, at);
    let second = item.kids.get(1).unwrap();
    (item.parent.is_none(), second)
}
