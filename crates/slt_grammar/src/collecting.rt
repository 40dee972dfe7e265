// The nodes of a term, as they are read.
ghost use Rattle.std.specs.Prelude.{◌≡◌, ◌≤◌, ℕ, Some, OnOk, IsOk, List, length, slice_get, vec_capacity};
ghost use Rattle.rule_arena.specs.Terms.{Node, At, IsRoot, term_at};

use crate::reading::{pass, site};
use crate::shape::Shape;
use rule_arena::{Arena, Key};
use std::alloc::AllocError;

// Reads a whole term.
pub(crate) fn collect(arena: &Arena, root: Key, shapes: &mut Vec<Shape>) -> Result<(), AllocError>
    requires { IsRoot arena.now root }
    ensures ok { OnOk result ((ns : List Node) → term_at arena.now root.number ≡ Some ns → shapes.new.items ≡ ns) }
    ensures succeeds { (ns : List Node) → term_at arena.now root.number ≡ Some ns → length ns ≤ vec_capacity shapes.old → IsOk result }
    ensures capacity { vec_capacity shapes.old ≤ vec_capacity shapes.new }
{
    let _limit = arena.limit();
    shapes.clear();
    let mut at = Some(root);
    while let Some(key) = at {
        shapes.push(shape_of(arena, key))?;
        at = pass(arena, key).1;
    }
    Ok(())
}

// A node as it is read.
fn shape_of(arena: &Arena, key: Key) -> Shape
    requires { At arena.now key }
    ensures { (x : At arena.now key) → slice_get x.nodes x.place ≡ Some result }
{
    let site = site(arena, key);
    Shape {
        key,
        label: site.label,
        kids: site.arity,
    }
}

// Reads a term, and makes room for a copy of it. A refusal leaves the terms.
pub(crate) fn prepare(
    arena: &mut Arena,
    root: Key,
    shapes: &mut Vec<Shape>,
    stack: &mut Vec<Key>,
) -> Result<(), AllocError>
    requires { IsRoot arena.old root }
    ensures terms { (r : ℕ) → term_at arena.new r ≡ term_at arena.old r }
    ensures limit { arena.old.limit ≤ arena.new.limit }
    ensures stays { (ns : List Node) → term_at arena.old root.number ≡ Some ns → length ns ≤ arena.old.spare → arena.new.limit ≡ arena.old.limit }
    ensures shapes { OnOk result ((ns : List Node) → term_at arena.old root.number ≡ Some ns → shapes.new.items ≡ ns) }
    ensures room { OnOk result ((length shapes.new.items ≤ arena.new.spare) × (length shapes.new.items ≤ length stack.new.items)) }
    ensures kept { OnOk result (arena.old.spare ≤ arena.new.spare) }
    ensures capacity { vec_capacity shapes.old ≤ vec_capacity shapes.new }
    ensures stack { length stack.old.items ≤ length stack.new.items }
    ensures succeeds { (ns : List Node) → term_at arena.old root.number ≡ Some ns → length ns ≤ arena.old.spare → length ns ≤ vec_capacity shapes.old
        → length ns ≤ length stack.old.items → IsOk result }
{
    collect(arena, root, shapes)?;
    let len = shapes.len();
    widen(stack, len)?;
    arena.reserve(len)?;
    Ok(())
}

// Makes a list of keys at least so long.
pub(crate) fn widen(stack: &mut Vec<Key>, len: usize) -> Result<(), AllocError>
    ensures ok { OnOk result (len ≤ length stack.new.items) }
    ensures kept { length stack.old.items ≤ length stack.new.items }
    ensures succeeds { len ≤ length stack.old.items → IsOk result }
{
    while stack.len() < len {
        stack.push(Key::default())?;
    }
    Ok(())
}
