// Terms that are built over roots.
ghost use Rattle.std.specs.Prelude.{◌≡◌, ◌+◌, ◌≤◌, ◌∷◌, ℕ, List, All, length, drop, Some};
ghost use Rattle.rule_arena.specs.Preorder.{AreTerms};
ghost use Rattle.rule_arena.specs.Terms.{Node, Terms, AreDistinctKeys, AreRoots, kids_of};
ghost use Rattle.rule_arena.specs.declared.key.Key.{Key};
ghost use Rattle.slt_grammar.specs.Copying.{Built, IsShape, hole, holes_in};
ghost use Rattle.slt_grammar.specs.Growing.{IsGrown};

use crate::shape::Shape;
use rule_arena::{Arena, Key, Label};

// The root of what was built, and where the node that was asked for is now.
#[derive(Drop)]
pub(crate) struct Copied {
    pub(crate) root: Key,
    pub(crate) followed: Key,
}

// Where the copying stands: the roots lie in the stack from `top` on, and `left` arguments have no place yet.
#[derive(Drop)]
struct Stand {
    root: Key,
    left: usize,
    top: usize,
}

// Builds a term of these shapes, with the arguments in the places of the parameters. The stack is room for one key a shape.
pub(crate) fn build_over(
    arena: &mut Arena,
    shapes: &[Shape],
    args: &[Key],
    stack: &mut [Key],
    follow: Key,
) -> Copied
    requires room { length shapes.now ≤ arena.old.spare + length args.now }
    requires term { AreTerms kids_of 1 shapes.now }
    requires shapes { All IsShape shapes.now }
    requires linear { holes_in shapes.now ≡ length args.now }
    requires roots { AreRoots arena.old args.now }
    requires distinct { AreDistinctKeys args.now }
    requires stack { length shapes.now ≤ length stack.old }
    ensures built { Built arena.old arena.new shapes.now args.now result.root follow result.followed }
    ensures spare { arena.new.spare + length shapes.now ≡ arena.old.spare + length args.now }
    ensures limit { arena.new.limit ≡ arena.old.limit }
    ensures len { length stack.new ≡ length stack.old }
{
    let mut top = stack.len();
    let mut left = args.len();
    let mut followed = follow;
    for i in (0..shapes.len()).rev() {
        let shape = shapes[i];
        let stand = grow(arena, shape, args, left, &stack[..], top);
        left = stand.left;
        top = stand.top - 1;
        stack[top] = stand.root;
        if shape.key == follow {
            followed = stand.root;
        }
    }
    Copied {
        root: stack[top],
        followed,
    }
}

// One more root: a new node over the first roots, or an argument.
fn grow(
    arena: &mut Arena,
    shape: Shape,
    args: &[Key],
    left: usize,
    stack: &[Key],
    top: usize,
) -> Stand
    requires enough { top + shape.kids ≤ length stack.now }
    requires shape { IsShape shape }
    requires grown { (o : Terms) × (ns : List Node) × (ks : List Key) × IsGrown o arena.old ns args.now left (drop top stack.now) ks }
    requires some { hole shape.label ≤ left }
    requires room { 1 ≤ hole shape.label + arena.old.spare }
    ensures grown { (o : Terms) (ns : List Node) (ks : List Key) → IsGrown o arena.old ns args.now left (drop top stack.now) ks
        → IsGrown o arena.new (shape ∷ ns) args.now result.left (result.root ∷ drop result.top stack.now) (result.root ∷ ks) }
    ensures top { result.top ≡ top + shape.kids }
    ensures spare { arena.new.spare + 1 + result.left ≡ arena.old.spare + left }
    ensures limit { arena.new.limit ≡ arena.old.limit }
{
    // The call tells that each term begins with its root.
    let _limit = arena.limit();
    if let Label::Param = shape.label {
        Stand {
            root: args[left - 1],
            left: left - 1,
            top,
        }
    } else {
        let end = top + shape.kids;
        let root = arena.add(shape.label, &stack[top..end]);
        Stand {
            root,
            left,
            top: end,
        }
    }
}
