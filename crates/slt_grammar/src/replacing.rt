// Terms that are put in the place of others, in bodies that are held by their roots.
ghost use Rattle.std.specs.Prelude.{◌≡◌, ◌↔◌, ◌+◌, ◌^◌, ◌≤◌, ℕ, List, Some, IsTrue, slice_get, slice_set, length};
ghost use Rattle.rule_arena.specs.Preorder.{subterm, with_subterm};
ghost use Rattle.rule_arena.specs.Terms.{Node, At, Apart, AreDistinctKeys, IsRoot, kids_of, term_at};
ghost use Rattle.rule_arena.specs.declared.key.Key.{Key};
ghost use Rattle.slt_grammar.specs.Holding.{AreHeld, Changed, IsIn};

use rule_arena::{Arena, Key};

// Puts a root's term in the place of a node, whose term becomes a root that holds no body.
pub(crate) fn swap(arena: &mut Arena, roots: &mut [Key], at: Key, is_root: bool, new: Key)
    requires held { AreHeld arena.old roots.old }
    requires there { (i : ℕ) × (k : Key) × (x : At arena.old at) × (slice_get roots.old i ≡ Some k) × (x.root ≡ k.number) }
    requires root { (x : At arena.old at) → IsTrue is_root ↔ (x.place ≡ 0) }
    requires new { IsRoot arena.old new }
    requires apart { Apart roots.old new.number }
    ensures changed { (i : ℕ) (k : Key) (x : At arena.old at) (ms : List Node) → slice_get roots.old i ≡ Some k → x.root ≡ k.number → term_at arena.old new.number ≡ Some ms
        → Changed arena.old arena.new roots.old roots.new i (with_subterm kids_of x.nodes x.place ms) }
    ensures out { (i : ℕ) (k : Key) (x : At arena.old at) → slice_get roots.old i ≡ Some k → x.root ≡ k.number
        → term_at arena.new at.number ≡ Some (subterm kids_of x.nodes x.place) }
    ensures apart { Apart roots.new at.number }
    ensures spare { arena.new.spare ≡ arena.old.spare }
    ensures limit { arena.new.limit ≡ arena.old.limit }
{
    // The call tells that each term begins with its root.
    let _limit = arena.limit();
    if is_root {
        exchange(roots, at, new);
        return;
    }
    arena.splice(at, new);
}

// The same, and frees the node's term.
pub(crate) fn replace(arena: &mut Arena, roots: &mut [Key], at: Key, is_root: bool, new: Key)
    requires held { AreHeld arena.old roots.old }
    requires there { (i : ℕ) × (k : Key) × (x : At arena.old at) × (slice_get roots.old i ≡ Some k) × (x.root ≡ k.number) }
    requires root { (x : At arena.old at) → IsTrue is_root ↔ (x.place ≡ 0) }
    requires new { IsRoot arena.old new }
    requires apart { Apart roots.old new.number }
    ensures changed { (i : ℕ) (k : Key) (x : At arena.old at) (ms : List Node) → slice_get roots.old i ≡ Some k → x.root ≡ k.number → term_at arena.old new.number ≡ Some ms
        → Changed arena.old arena.new roots.old roots.new i (with_subterm kids_of x.nodes x.place ms) }
    // Each node's room is there again, as long as there are not more slots than keys.
    ensures freed { (i : ℕ) (k : Key) (x : At arena.old at) → slice_get roots.old i ≡ Some k → x.root ≡ k.number → arena.old.limit ≤ 2 ^ 32
        → arena.new.spare ≡ arena.old.spare + length (subterm kids_of x.nodes x.place) }
    ensures spare { arena.old.spare ≤ arena.new.spare }
    ensures limit { arena.new.limit ≡ arena.old.limit }
{
    swap(arena, roots, at, is_root, new);
    arena.cut(at);
}

// Puts another root in the place of one. The start rule's comes last.
fn exchange(roots: &mut [Key], from: Key, to: Key)
    requires there { IsIn roots.old from }
    ensures { (i : ℕ) → AreDistinctKeys roots.old → slice_get roots.old i ≡ Some from → roots.new ≡ slice_set roots.old i to }
{
    for i in (0..roots.len()).rev() {
        let root = roots[i];
        if root == from {
            roots[i] = to;
            return;
        }
    }
}
