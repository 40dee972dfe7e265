// A call that is replaced by its rule's body.
ghost use Rattle.std.specs.Prelude.{◌≡◌, ◌+◌, ◌≤◌, ℕ, List, All, Some, length, slice_get};
ghost use Rattle.rule_arena.specs.Preorder.{AreTerms};
ghost use Rattle.rule_arena.specs.Terms.{At, key_in, kids_in, kids_of};
ghost use Rattle.rule_arena.specs.declared.key.Key.{Key};
ghost use Rattle.slt_grammar.specs.Copying.{InlinedAt, IsShape, holes_in, kids_at};
ghost use Rattle.slt_grammar.specs.Holding.{AreHeld};

use crate::copying::build_over;
use crate::detaching::loosen;
use crate::reading::{children, is_root};
use crate::replacing::replace;
use crate::shape::Shape;
use rule_arena::{Arena, Key};

/// What came in the place of a call.
#[derive(Clone, Copy, Drop)]
pub struct Inlined {
    /// The node that stands where the call stood.
    pub root: Key,
    /// Where the node to follow is now.
    pub followed: Key,
}

// Replaces a call by a copy of these nodes over its arguments. It takes no memory.
pub(crate) fn inline_at(
    arena: &mut Arena,
    roots: &mut [Key],
    shapes: &[Shape],
    stack: &mut [Key],
    call: Key,
    follow: Key,
) -> Inlined
    requires room { length shapes.now ≤ arena.old.spare }
    requires term { AreTerms kids_of 1 shapes.now }
    requires shapes { All IsShape shapes.now }
    requires once { (p q : ℕ) → key_in shapes.now p ≡ Some follow → key_in shapes.now q ≡ Some follow → p ≡ q }
    requires stack { length shapes.now ≤ length stack.old }
    requires held { AreHeld arena.old roots.old }
    requires there { (i : ℕ) × (k : Key) × (x : At arena.old call) × (slice_get roots.old i ≡ Some k) × (x.root ≡ k.number) × (kids_at x.nodes x.place ≡ holes_in shapes.now) }
    ensures inlined { (i : ℕ) (k : Key) (x : At arena.old call) → slice_get roots.old i ≡ Some k → x.root ≡ k.number
        → InlinedAt arena.old arena.new roots.old roots.new i x.nodes x.place shapes.now follow result.followed result.root }
    ensures spare { arena.old.spare ≤ arena.new.spare + length shapes.now }
    ensures limit { arena.new.limit ≡ arena.old.limit }
{
    let mut keys = [Key::default(); 8];
    let len = children(arena, call, &mut keys);
    inline_over(arena, roots, shapes, stack, call, follow, &keys[..len])
}

// The same, where these are the call's children.
fn inline_over(
    arena: &mut Arena,
    roots: &mut [Key],
    shapes: &[Shape],
    stack: &mut [Key],
    call: Key,
    follow: Key,
    kids: &[Key],
) -> Inlined
    requires room { length shapes.now ≤ arena.old.spare }
    requires term { AreTerms kids_of 1 shapes.now }
    requires shapes { All IsShape shapes.now }
    requires once { (p q : ℕ) → key_in shapes.now p ≡ Some follow → key_in shapes.now q ≡ Some follow → p ≡ q }
    requires stack { length shapes.now ≤ length stack.old }
    requires held { AreHeld arena.old roots.old }
    requires kids { (x : At arena.old call) → kids_in x.nodes x.place ≡ kids.now }
    requires there { (i : ℕ) × (k : Key) × (x : At arena.old call) × (slice_get roots.old i ≡ Some k) × (x.root ≡ k.number) × (kids_at x.nodes x.place ≡ holes_in shapes.now) }
    ensures inlined { (i : ℕ) (k : Key) (x : At arena.old call) → slice_get roots.old i ≡ Some k → x.root ≡ k.number
        → InlinedAt arena.old arena.new roots.old roots.new i x.nodes x.place shapes.now follow result.followed result.root }
    ensures spare { arena.old.spare ≤ arena.new.spare + length shapes.now }
    ensures limit { arena.new.limit ≡ arena.old.limit }
{
    // The calls tell that a key stands once.
    let _before = arena.limit();
    let is_root = is_root(arena, call);
    loosen(arena, kids);
    let copied = build_over(arena, shapes, kids, stack, follow);
    let _after = arena.limit();
    replace(arena, roots, call, is_root, copied.root);
    Inlined {
        root: copied.root,
        followed: copied.followed,
    }
}
