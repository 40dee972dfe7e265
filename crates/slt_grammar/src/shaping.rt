// Bodies as nodes that can be copied.
ghost use Rattle.std.specs.Prelude.{◌≡◌, ◌≤◌, ◌∷◌, [], ℕ, OnOk, IsOk, length, vec_capacity};
ghost use Rattle.rule_arena.specs.Terms.{term_at};
ghost use Rattle.slt_grammar.specs.Bodies.{CallsBelow};
ghost use Rattle.slt_grammar.specs.Placing.{placed, placed_node, AreKnown, IsKnown};
ghost use Rattle.slt_grammar.specs.Wrapping.{nodes_of};

use crate::collecting::widen;
use crate::order::Order;
use crate::shape::Shape;
use rule_arena::{Arena, Key, Label};
use std::alloc::AllocError;

// Reads a body, and makes room for a copy of its nodes. A refusal leaves the terms.
pub(crate) fn prepare_body(
    arena: &mut Arena,
    order: &Order,
    ranks: &[usize],
    body: &[Label],
    key: Key,
    shapes: &mut Vec<Shape>,
    stack: &mut Vec<Key>,
) -> Result<(), AllocError>
    requires below { CallsBelow (length order.now.order) body.now }
    requires ranked { length ranks.now ≡ length order.now.order }
    ensures terms { (r : ℕ) → term_at arena.new r ≡ term_at arena.old r }
    ensures limit { arena.old.limit ≤ arena.new.limit }
    ensures stays { length body.now ≤ arena.old.spare → arena.new.limit ≡ arena.old.limit }
    ensures shapes { OnOk result (placed order.now.order shapes.new.items ≡ nodes_of ranks.now key body.now) }
    ensures known { OnOk result (AreKnown order.now.order shapes.new.items) }
    ensures room { OnOk result ((length body.now ≤ arena.new.spare) × (length body.now ≤ length stack.new.items)) }
    ensures kept { OnOk result (arena.old.spare ≤ arena.new.spare) }
    ensures capacity { vec_capacity shapes.old ≤ vec_capacity shapes.new }
    ensures stack { length stack.old.items ≤ length stack.new.items }
    ensures succeeds { length body.now ≤ arena.old.spare → length body.now ≤ vec_capacity shapes.old → length body.now ≤ length stack.old.items
        → IsOk result }
{
    read_body(order, ranks, body, key, shapes)?;
    widen(stack, body.len())?;
    arena.reserve(body.len())?;
    Ok(())
}

// The nodes of a body, all under one key.
fn read_body(
    order: &Order,
    ranks: &[usize],
    body: &[Label],
    key: Key,
    shapes: &mut Vec<Shape>,
) -> Result<(), AllocError>
    requires below { CallsBelow (length order.now.order) body.now }
    requires ranked { length ranks.now ≡ length order.now.order }
    ensures shapes { OnOk result (placed order.now.order shapes.new.items ≡ nodes_of ranks.now key body.now) }
    ensures known { OnOk result (AreKnown order.now.order shapes.new.items) }
    ensures succeeds { length body.now ≤ vec_capacity shapes.old → IsOk result }
    ensures capacity { vec_capacity shapes.old ≤ vec_capacity shapes.new }
{
    shapes.clear();
    for i in 0..body.len() {
        let label = body[i];
        shapes.push(shape_of_label(order, ranks, label, key))?;
    }
    Ok(())
}

// A node with this label, whose call holds an identity.
fn shape_of_label(order: &Order, ranks: &[usize], label: Label, key: Key) -> Shape
    requires below { CallsBelow (length order.now.order) (label ∷ []) }
    requires ranked { length ranks.now ≡ length order.now.order }
    ensures node { placed_node order.now.order result ∷ [] ≡ nodes_of ranks.now key (label ∷ []) }
    ensures known { IsKnown order.now.order result.label }
{
    match label {
        Label::Bottom => Shape {
            key,
            label,
            kids: 0,
        },
        Label::Symbol(_) => Shape {
            key,
            label,
            kids: 2,
        },
        Label::Call(rule) => Shape {
            key,
            label: Label::Call(order.id(rule)),
            kids: ranks[rule],
        },
        Label::Param => Shape {
            key,
            label,
            kids: 0,
        },
    }
}
