// Reads and writes of cells under their keys. Contracts see slots whose cells have their children: `seen`.
ghost use Rattle.std.specs.Prelude.{◌≡◌, ◌≢◌, ◌+◌, ◌<◌, ◌≤◌, ℕ, List, Some, None, IfSome, IsSomeAnd, length, slice_get};
ghost use Rattle.slab.specs.Slab.{get, slab_len, ContainsKey, Updates};
ghost use Rattle.rule_arena.specs.Changing.{changed, labelled_cell, hung, bare, with_kid, with_kids, adopted};
ghost use Rattle.rule_arena.specs.Cutting.{chained, first_of, Freed};
ghost use Rattle.rule_arena.specs.Linked.{Cell, IsPlaced};
ghost use Rattle.rule_arena.specs.Linking.{with_first, with_next, in_row, led, lined, first_key};
ghost use Rattle.rule_arena.specs.Siblings.{row, step, linked, seen, Tied, IsNoChild, AreNoChildren};
ghost use Rattle.rule_arena.specs.Slots.{RootAt};
ghost use Rattle.rule_arena.specs.Terms.{Node, Apart, AreDistinctKeys};
ghost use Rattle.rule_arena.specs.declared.key.Key.{Key};

use crate::cell::RawCell;
use crate::key::Key;
use crate::kids::Kids;
use crate::label::Label;
use read_steps::Steps;
use slab::Slab;
use std::sync::ledger::Ledger;

// The cell of a node.
pub(crate) fn cell_of(slots: &Slab<RawCell>, key: Key) -> &RawCell
    requires { ContainsKey (seen slots.now) key.number }
    ensures raw { get slots.now key.number ≡ Some result.now }
    ensures cell { get (seen slots.now) key.number ≡ Some (linked (get slots.now) result.now) }
{
    slots.get(key.number()).unwrap()
}

// The cell of a node, whose reading is counted.
pub(crate) fn read<'a, L: Ledger>(
    slots: &'a Slab<RawCell>,
    key: Key,
    steps: &mut Steps<L>,
) -> &'a RawCell
    requires { ContainsKey (seen slots.now) key.number }
    ensures raw { get slots.now key.number ≡ Some result.now }
    ensures cell { get (seen slots.now) key.number ≡ Some (linked (get slots.now) result.now) }
    ensures step { steps.new ≡ steps.old + 1 }
{
    steps.tick();
    cell_of(slots, key)
}

// The children of a cell, from sibling to sibling.
pub(crate) fn kids_of(slots: &Slab<RawCell>, cell: &RawCell) -> Kids
    requires { (i : ℕ) → i < cell.now.count → ContainsKey (seen slots.now) (step (get slots.now) i cell.now.first).number }
    ensures { result ≡ row (get slots.now) cell.now.count cell.now.first }
{
    let mut kids = Kids::new();
    if cell.count() == 0 {
        return kids;
    }
    let mut at = cell.first();
    kids.push(at);
    for _i in 1..cell.count() {
        at = cell_of(slots, at).next();
        kids.push(at);
    }
    kids
}

// The sibling so many steps after a node.
fn sibling_after(slots: &Slab<RawCell>, first: Key, steps: usize) -> Key
    requires { (i : ℕ) → i < steps → ContainsKey (seen slots.now) (step (get slots.now) i first).number }
    ensures { result ≡ step (get slots.now) steps first }
{
    let mut at = first;
    for _i in 0..steps {
        at = cell_of(slots, at).next();
    }
    at
}

// Gives a node another label.
pub(crate) fn set_label(slots: &mut Slab<RawCell>, key: Key, label: Label)
    requires { ContainsKey (seen slots.old) key.number }
    ensures { seen slots.new ≡ changed (seen slots.old) key.number (labelled_cell label) }
{
    let cell = slots.get_mut(key.number()).unwrap();
    cell.set_label(label);
}

// Gives a node another parent.
pub(crate) fn set_parent(slots: &mut Slab<RawCell>, key: Key, parent: Option<(Key, usize)>)
    requires there { ContainsKey (seen slots.old) key.number }
    requires placed { IsPlaced parent }
    ensures { seen slots.new ≡ changed (seen slots.old) key.number (hung parent) }
{
    let cell = slots.get_mut(key.number()).unwrap();
    cell.set_parent(parent);
}

// Makes a node a root with no children.
pub(crate) fn strip(slots: &mut Slab<RawCell>, key: Key)
    requires { ContainsKey (seen slots.old) key.number }
    ensures { seen slots.new ≡ changed (seen slots.old) key.number bare }
{
    let cell = slots.get_mut(key.number()).unwrap();
    cell.strip();
}

// Gives a node another next sibling.
fn set_next(slots: &mut Slab<RawCell>, key: Key, next: Key)
    requires { ContainsKey slots.old key.number }
    ensures { slots.new ≡ changed slots.old key.number (with_next next) }
{
    let cell = slots.get_mut(key.number()).unwrap();
    cell.set_next(next);
}

// Gives a node another first child.
fn set_first(slots: &mut Slab<RawCell>, key: Key, first: Key)
    requires { ContainsKey slots.old key.number }
    ensures { slots.new ≡ changed slots.old key.number (with_first first) }
{
    let cell = slots.get_mut(key.number()).unwrap();
    cell.set_first(first);
}

// Puts a root in the place of a child, which stands at this place from 0.
pub(crate) fn set_kid(slots: &mut Slab<RawCell>, key: Key, at: usize, old: Key, kid: Key)
    requires tied { Tied (seen slots.old) }
    requires child { IsSomeAnd (get (seen slots.old) key.number) (λ cell. slice_get cell.kids at ≡ Some old) }
    requires root { IsSomeAnd (get (seen slots.old) kid.number) (λ cell. cell.parent ≡ None) }
    requires apart { kid.number ≢ key.number }
    ensures { seen slots.new ≡ changed (seen slots.old) key.number (with_kid at kid) }
{
    let next = cell_of(slots, old).next();
    set_next(slots, kid, next);
    lead(slots, key, at, kid);
}

// Leads the link to a node's child at a place from 0 to another one.
fn lead(slots: &mut Slab<RawCell>, key: Key, at: usize, kid: Key)
    requires there { ContainsKey (seen slots.old) key.number }
    requires before { IfSome (get slots.old key.number) (λ cell. (i : ℕ) → i < at
        → ContainsKey (seen slots.old) (step (get slots.old) i cell.first).number) }
    ensures { slots.new ≡ led slots.old key at kid }
{
    if at == 0 {
        set_first(slots, key, kid);
    } else {
        let first = cell_of(slots, key).first();
        let before = sibling_after(slots, first, at - 1);
        set_next(slots, before, kid);
    }
}

// Hangs a node under a parent, before a sibling.
fn hang(slots: &mut Slab<RawCell>, key: Key, up: Key, place: usize, next: Key)
    requires there { ContainsKey slots.old key.number }
    requires placed { IsPlaced (Some (up, place)) }
    ensures { slots.new ≡ changed slots.old key.number (in_row (Some (up, place)) next) }
{
    let cell = slots.get_mut(key.number()).unwrap();
    cell.set_parent(Some((up, place)));
    cell.set_next(next);
}

// Hangs these nodes under a parent, each at its place and before the next, and answers the first.
fn line_up(slots: &mut Slab<RawCell>, up: Key, kids: &[Key]) -> Key
    requires few { length kids.now ≤ 8 }
    requires there { (i : ℕ) (k : Key) → slice_get kids.now i ≡ Some k → ContainsKey (seen slots.old) k.number }
    ensures slots { slots.new ≡ lined slots.old up 1 kids.now }
    ensures first { result ≡ first_key kids.now }
{
    let mut next = Key::of(0);
    for i in (0..kids.len()).rev() {
        let kid = kids[i];
        hang(slots, kid, up, i + 1, next);
        next = kid;
    }
    next
}

// Gives a node other children, each at its place. No other node has one of them as a child.
pub(crate) fn set_kids(slots: &mut Slab<RawCell>, key: Key, kids: &[Key])
    requires few { length kids.now ≤ 8 }
    requires there { ContainsKey (seen slots.old) key.number }
    requires kids_there { (i : ℕ) (k : Key) → slice_get kids.now i ≡ Some k → ContainsKey (seen slots.old) k.number }
    requires distinct { AreDistinctKeys kids.now }
    requires apart { Apart kids.now key.number }
    requires free { AreNoChildren (seen slots.old) key kids.now }
    ensures { seen slots.new ≡ changed (adopted (seen slots.old) key 1 kids.now) key.number (with_kids kids.now) }
{
    let first = line_up(slots, key, kids);
    let cell = slots.get_mut(key.number()).unwrap();
    cell.set_kids(first, kids.len());
}

// Frees a root with all nodes below it. Those that still have to go hang in a chain, each one's parent the next: so no stack is
// needed, and each node is read once and hung once.
pub(crate) fn free(slots: &mut Slab<RawCell>, root: Key)
    requires root { (ns : List Node) × RootAt (get (seen slots.old)) root.number ns }
    requires tied { Tied (seen slots.old) }
    ensures { (ns : List Node) → RootAt (get (seen slots.old)) root.number ns → Freed (seen slots.old) (seen slots.new) ns }
{
    let mut waiting = Some((root, 1));
    while let Some(link) = waiting {
        let cell = cell_of(slots, link.0);
        let rest = cell.parent();
        let kids = kids_of(slots, cell);
        remove(slots, link.0);
        waiting = chain(slots, &kids, rest);
    }
}

// Frees a node that is no child.
fn remove(slots: &mut Slab<RawCell>, key: Key)
    requires there { ContainsKey (seen slots.old) key.number }
    requires free { IsNoChild (seen slots.old) key.number }
    ensures updates { Updates (seen slots.old) (seen slots.new) key.number None }
    ensures len { slab_len (seen slots.new) + 1 ≡ slab_len (seen slots.old) }
    ensures limit { (seen slots.new).capacity ≡ (seen slots.old).capacity }
    ensures fits { slab_len (seen slots.new) + 1 ≤ (seen slots.new).capacity }
{
    slots.remove(key.number());
}

// Hangs these nodes in a chain before the rest, and answers the link to the first.
fn chain(slots: &mut Slab<RawCell>, kids: &Kids, rest: Option<(Key, usize)>) -> Option<(Key, usize)>
    requires there { (i : ℕ) (k : Key) → slice_get kids.now i ≡ Some k → ContainsKey (seen slots.old) k.number }
    requires placed { IsPlaced rest }
    ensures slots { seen slots.new ≡ chained (seen slots.old) kids.now rest }
    ensures first { result ≡ first_of kids.now rest }
    ensures placed { IsPlaced result }
{
    let mut first = rest;
    for i in (0..kids.len()).rev() {
        let kid = kids.get(i).unwrap();
        set_parent(slots, kid, first);
        first = Some((kid, 1));
    }
    first
}
