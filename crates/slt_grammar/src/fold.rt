// A node and its parent that become one.
ghost use Rattle.std.specs.Prelude.{◌≡◌, ◌≢◌, ◌≤◌, ℕ, Some, IsSome};
ghost use Rattle.rule_arena.specs.Terms.{At, key_in, term_at};
ghost use Rattle.rule_arena.specs.declared.key.Key.{Key};
ghost use Rattle.slt_grammar.specs.Holding.{IsFoldable};
ghost use Rattle.slt_grammar.specs.KeyedEdits.{folded_nodes};

use rule_arena::{Arena, Key, Label};

// Gives a node the children of its child `lower` in that one's place, and another label. The child is freed.
pub(crate) fn fold_at(arena: &mut Arena, upper: Key, lower: Key, label: Label)
    requires { IsFoldable arena.old upper lower }
    ensures folded { (x : At arena.old lower) (q : ℕ) → key_in x.nodes q ≡ Some upper
        → term_at arena.new x.root ≡ Some (folded_nodes x.nodes q upper x.place label) }
    ensures others { (x : At arena.old lower) (r : ℕ) → IsSome (term_at arena.old r) → r ≢ x.root → term_at arena.new r ≡ term_at arena.old r }
    ensures spare { arena.old.spare ≤ arena.new.spare }
    ensures limit { arena.new.limit ≡ arena.old.limit }
{
    // The calls tell that a key stands once.
    let _before = arena.limit();
    arena.dissolve(lower);
    arena.cut(lower);
    let _after = arena.limit();
    arena.relabel(upper, label);
}
