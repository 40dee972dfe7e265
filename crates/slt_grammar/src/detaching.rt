// Subterms that are taken out of a term.
ghost use Rattle.std.specs.Prelude.{◌≡◌, ◌≢◌, ◌+◌, ◌<◌, ◌≤◌, ◌∷◌, [], ℕ, List, length, Some, IsSome};
ghost use Rattle.rule_arena.specs.Preorder.{subterm, with_subterm};
ghost use Rattle.rule_arena.specs.Terms.{Node, At, kids_of, term_at};
ghost use Rattle.slt_grammar.specs.Detaching.{AreArgs, Laced, Loosened};

use rule_arena::{Arena, Key, Label};

// Puts a leaf in the place of a node, whose term becomes a root.
pub(crate) fn detach(arena: &mut Arena, at: Key)
    requires room { 0 < arena.old.spare }
    requires inner { (x : At arena.old at) × (0 < x.place) }
    ensures moved { (x : At arena.old at) → (leaf : Node) × ((leaf.kids ≡ 0) × (term_at arena.new x.root ≡ Some (with_subterm kids_of x.nodes x.place (leaf ∷ [])))) }
    ensures freed { (x : At arena.old at) → term_at arena.new at.number ≡ Some (subterm kids_of x.nodes x.place) }
    ensures others { (x : At arena.old at) (r : ℕ) → IsSome (term_at arena.old r) → r ≢ x.root → term_at arena.new r ≡ term_at arena.old r }
    ensures spare { arena.new.spare + 1 ≡ arena.old.spare }
    ensures limit { arena.new.limit ≡ arena.old.limit }
{
    // The call tells that each key stands once.
    let _limit = arena.limit();
    let leaf = arena.add(Label::Bottom, &[]);
    arena.splice(at, leaf);
}

// Puts a leaf in the place of each of these nodes, which stand in one term, in their order. Their terms become roots.
pub(crate) fn loosen(arena: &mut Arena, keys: &[Key])
    requires room { length keys.now ≤ arena.old.spare }
    requires there { (r : ℕ) × (ns : List Node) × (p : ℕ) × (args : List (List Node)) × (term_at arena.old r ≡ Some ns) × Laced ns p args × AreArgs keys.now args }
    ensures loosened { (r : ℕ) (ns : List Node) (p : ℕ) (args : List (List Node)) → term_at arena.old r ≡ Some ns → (L : Laced ns p args) → AreArgs keys.now args
        → Loosened arena.old arena.new r ns p args L keys.now }
    ensures spare { arena.new.spare + length keys.now ≡ arena.old.spare }
    ensures limit { arena.new.limit ≡ arena.old.limit }
{
    for i in 0..keys.len() {
        let _limit = arena.limit();
        detach(arena, keys[i]);
    }
}
