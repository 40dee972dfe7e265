// Reads of nodes whose steps nobody asks for: each is counted on a counter of its own.
ghost use Rattle.std.specs.Prelude.{◌≡◌, ◌↔◌, ◌+◌, ◌<◌, ◌≤◌, ℕ, Some, IsTrue, length, slice_get, take};
ghost use Rattle.rule_arena.specs.Terms.{Node, At, key_in, kids_in, parent_in};
ghost use Rattle.rule_arena.specs.declared.key.Key.{Key};
ghost use Rattle.rule_arena.specs.declared.label.Label.TheVariants.{Call};
ghost use Rattle.slt_grammar.specs.Placing.{placed_label, AreKnown};

use crate::order::{Order, place_label};
use read_steps::Steps;
use rule_arena::{Arena, Item, Key, Label, Site};
use std::marker::Brand;
use std::sync::ledger::{Blank, Ledger};

// What stands at a node.
pub(crate) fn look(arena: &Arena, key: Key) -> Item
    requires { At arena.now key }
    ensures node { (x : At arena.now key) → slice_get x.nodes x.place ≡ Some (record { key = key; label = result.label; kids = length result.kids }) }
    ensures parent { (x : At arena.now key) → parent_in x.nodes x.place ≡ result.parent }
    ensures kids { (x : At arena.now key) → kids_in x.nodes x.place ≡ result.kids }
{
    look_on::<Brand>(arena, key, Blank::new(1))
}

fn look_on<L: Ledger>(arena: &Arena, key: Key, blank: Blank) -> Item
    requires name { blank.name ≡ L.name }
    requires parts { blank.parts ≡ L.parts }
    requires some { 0 < blank.parts }
    requires there { At arena.now key }
    ensures node { (x : At arena.now key) → slice_get x.nodes x.place ≡ Some (record { key = key; label = result.label; kids = length result.kids }) }
    ensures parent { (x : At arena.now key) → parent_in x.nodes x.place ≡ result.parent }
    ensures kids { (x : At arena.now key) → kids_in x.nodes x.place ≡ result.kids }
{
    let mut steps: Steps<L> = Steps::new(blank);
    arena.item(key, &mut steps)
}

// What stands at a node, without the keys of its children.
pub(crate) fn site(arena: &Arena, key: Key) -> Site
    requires { At arena.now key }
    ensures node { (x : At arena.now key) → slice_get x.nodes x.place ≡ Some (record { key = key; label = result.label; kids = result.arity }) }
    ensures parent { (x : At arena.now key) → parent_in x.nodes x.place ≡ result.parent }
{
    site_on::<Brand>(arena, key, Blank::new(1))
}

fn site_on<L: Ledger>(arena: &Arena, key: Key, blank: Blank) -> Site
    requires name { blank.name ≡ L.name }
    requires parts { blank.parts ≡ L.parts }
    requires some { 0 < blank.parts }
    requires there { At arena.now key }
    ensures node { (x : At arena.now key) → slice_get x.nodes x.place ≡ Some (record { key = key; label = result.label; kids = result.arity }) }
    ensures parent { (x : At arena.now key) → parent_in x.nodes x.place ≡ result.parent }
{
    let mut steps: Steps<L> = Steps::new(blank);
    arena.site(key, &mut steps)
}

// The label of a node, and the next node in preorder.
pub(crate) fn pass(arena: &Arena, key: Key) -> (Label, Option<Key>)
    requires { At arena.now key }
    ensures label { (x : At arena.now key) → (n : ℕ) × (slice_get x.nodes x.place ≡ Some (record { key = key; label = result.0; kids = n })) }
    ensures next { (x : At arena.now key) → key_in x.nodes (x.place + 1) ≡ result.1 }
{
    pass_on::<Brand>(arena, key, Blank::new(1))
}

fn pass_on<L: Ledger>(arena: &Arena, key: Key, blank: Blank) -> (Label, Option<Key>)
    requires name { blank.name ≡ L.name }
    requires parts { blank.parts ≡ L.parts }
    requires some { 0 < blank.parts }
    requires there { At arena.now key }
    ensures label { (x : At arena.now key) → (n : ℕ) × (slice_get x.nodes x.place ≡ Some (record { key = key; label = result.0; kids = n })) }
    ensures next { (x : At arena.now key) → key_in x.nodes (x.place + 1) ≡ result.1 }
{
    let mut steps: Steps<L> = Steps::new(blank);
    let label = arena.label(key, &mut steps);
    (label, arena.next_in_preorder(key, &mut steps))
}

// The label of a node, with the place of the rule that it calls.
pub(crate) fn label_in(arena: &Arena, order: &Order, key: Key) -> Label
    requires there { At arena.now key }
    requires known { (x : At arena.now key) → AreKnown order.now.order x.nodes }
    ensures { (x : At arena.now key) (n : Node) → slice_get x.nodes x.place ≡ Some n → result ≡ placed_label order.now.order n.label }
{
    place_label(order, pass(arena, key).0)
}

// The parent of a node that has one.
pub(crate) fn parent_of(arena: &Arena, key: Key) -> Key
    requires { (x : At arena.now key) × (up : Key) × (i : ℕ) × (parent_in x.nodes x.place ≡ Some (up, i)) }
    ensures { (x : At arena.now key) (up : Key) (i : ℕ) → parent_in x.nodes x.place ≡ Some (up, i) → result ≡ up }
{
    site(arena, key).parent.unwrap().0
}

// Writes the children of a node, and answers how many there are.
pub(crate) fn children(arena: &Arena, key: Key, keys: &mut [Key]) -> usize
    requires there { At arena.now key }
    requires room { 8 ≤ length keys.old }
    ensures few { result ≤ 8 }
    ensures keys { (x : At arena.now key) → take result keys.new ≡ kids_in x.nodes x.place }
{
    let item = look(arena, key);
    let len = item.kids.len();
    for i in 0..len {
        keys[i] = item.kids.get(i).unwrap();
    }
    len
}

// Whether a node is the root of its term.
pub(crate) fn is_root(arena: &Arena, key: Key) -> bool
    requires { At arena.now key }
    ensures { (x : At arena.now key) → IsTrue result ↔ (x.place ≡ 0) }
{
    // The call tells that these are terms.
    let _limit = arena.limit();
    site(arena, key).parent.is_none()
}

// The place of the rule that a node calls.
pub(crate) fn called_rule(arena: &Arena, order: &Order, key: Key) -> usize
    requires there { At arena.now key }
    requires known { (x : At arena.now key) → AreKnown order.now.order x.nodes }
    ensures { (x : At arena.now key) (n : Node) (rule : ℕ) → slice_get x.nodes x.place ≡ Some n → placed_label order.now.order n.label ≡ Call rule → result ≡ rule }
{
    match label_in(arena, order, key) {
        Label::Call(rule) => rule,
        _ => 0,
    }
}
