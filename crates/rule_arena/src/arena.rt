// The arena: linked nodes in slots, seen as terms in preorder.
ghost use Rattle.std.specs.Prelude.{◌≡◌, ◌≢◌, ◌+◌, ◌^◌, ◌<◌, ◌≤◌, ℕ, None, Some, length, OnOk, IsOk, List, slice_get, [], ◌∷◌};
ghost use Rattle.rule_arena.specs.declared.key.Key.{Key};
ghost use Rattle.rule_arena.specs.OneStanding.{Standing-prop, Tied-prop};
ghost use Rattle.rule_arena.specs.Siblings.{seen, Tied};
ghost use Rattle.rule_arena.specs.Slots.{KeysFit, Standing, room};

use crate::cell::RawCell;
use crate::item::{Item, Site};
use crate::key::Key;
use crate::label::Label;
use crate::slots::{cell_of, free, kids_of, read, set_kid, set_kids, set_label, set_parent, strip};
use read_steps::Steps;
use slab::Slab;
use std::alloc::{AllocError, Global};
use std::marker::Model;
use std::sync::ledger::Ledger;

// A key has 32 bits.
const MOST_NODES: usize = 1 << 32;

/// Terms whose nodes have keys.
///
/// It is seen as a map from the numbers of roots to their terms: lists of nodes in preorder, each with its key, its label and the
/// number of its children. Beside it stand `spare`, the number of adds for which there is room, and `limit`, which is above the
/// number of every node. A key names its node until that node is freed, whatever happens to the nodes around it.
pub struct Arena {
    slots: Slab<RawCell>,
    ghost standing: { Standing (seen slots) } by { Standing-prop (seen slots) },
    ghost fitting: { KeysFit (seen slots) },
    ghost tied: { Tied (seen slots) } by { Tied-prop (seen slots) },
}

impl Drop for Arena {
    fn drop(self) {
        let Arena { slots: _slots } = self;
    }
}

impl Model for Arena {
    ghost use Rattle.rule_arena.specs.Terms.{Terms};

    ghost Value = { Terms };

    ghost use Rattle.rule_arena.specs.Slots.{terms_of};
    ghost use Rattle.rule_arena.specs.Siblings.{seen};

    ghost view = { λ a. terms_of (seen a.slots) a.standing };
}

impl Arena {
    ghost use Rattle.rule_arena.specs.Preorder.{with_subterm, subterm};
    ghost use Rattle.rule_arena.specs.Terms.{Node, Apart, AreDistinctKeys, AreRoots, At, IsRoot, IsSound, kids_of, joined, key_in, kids_in, labelled, node_count, parent_in, term_at};
    ghost use Rattle.rule_arena.specs.Taking.{IsInner, FitsItsParent, without_term, without_node};

    /// An arena with no term. It takes no memory.
    pub fn new(alloc: Global) -> Arena
        ensures empty { (r : ℕ) → term_at result r ≡ None }
        ensures spare { result.spare ≡ 0 }
        ensures limit { result.limit ≡ 0 }
    {
        Arena {
            slots: Slab::new(alloc),
        }
    }

    /// Makes room: the next `more` adds need no memory. Where there is room already, none is taken.
    ///
    /// It fails where memory is refused, and where there would be more than 2^32 nodes. The terms then stand as before, and so
    /// does the room, unless the allocator gave more slots than there are keys: then no node is added any more.
    pub fn reserve(&mut self, more: usize) -> Result<(), AllocError>
        ensures room { OnOk result (more ≤ self.new.spare) }
        ensures grown { OnOk result (self.old.spare ≤ self.new.spare) }
        ensures kept { self.new.limit ≤ 2 ^ 32 → self.old.spare ≤ self.new.spare }
        ensures succeeds { more ≤ self.old.spare → IsOk result }
        // A key has 32 bits.
        ensures keys { OnOk result (node_count self.new + more ≤ 2 ^ 32) }
        ensures terms { (r : ℕ) → term_at self.new r ≡ term_at self.old r }
        ensures limit { self.old.limit ≤ self.new.limit }
        ensures stays { more ≤ self.old.spare → self.new.limit ≡ self.old.limit }
    {
        if more <= room_in(&self.slots) {
            return Ok(());
        }
        let len = self.slots.len();
        if len > MOST_NODES || more > MOST_NODES - len {
            return Err(AllocError);
        }
        // By an eighth at least, so that many small calls copy each node some nine times in all.
        self.slots
            .reserve_exact(more.max(len / 8).min(MOST_NODES - len))?;
        if more <= room_in(&self.slots) {
            Ok(())
        } else {
            Err(AllocError)
        }
    }

    /// Above the number of every node, and of every node that the adds make for which there is room. All terms together have at most
    /// so many nodes, and at most 2^32.
    pub fn limit(&self) -> usize
        ensures value { result ≡ self.now.limit }
        ensures sound { IsSound self.now }
        ensures within { node_count self.now ≤ result }
        ensures few { node_count self.now ≤ 2 ^ 32 }
        // Where there is room, there are no more slots than keys.
        ensures keyed { 0 < self.now.spare → result ≤ 2 ^ 32 }
    {
        self.slots.capacity()
    }

    /// A new root over these roots, at most eight, which become its children. It takes no memory.
    pub fn add(&mut self, label: Label, kids: &[Key]) -> Key
        requires room { 0 < self.old.spare }
        requires few { length kids.now ≤ 8 }
        requires roots { AreRoots self.old kids.now }
        requires distinct { AreDistinctKeys kids.now }

        // The key is new.
        ensures vacant { term_at self.old result.number ≡ None }
        ensures fresh { ¬ At self.old result }
        ensures term { term_at self.new result.number
            ≡ Some (record { key = result; label = label; kids = length kids.now } ∷ joined self.old kids.now) }
        ensures gone { (i : ℕ) (k : Key) → slice_get kids.now i ≡ Some k → term_at self.new k.number ≡ None }
        ensures others { (r : ℕ) → r ≢ result.number → Apart kids.now r → term_at self.new r ≡ term_at self.old r }
        ensures spare { self.new.spare + 1 ≡ self.old.spare }
        ensures limit { self.new.limit ≡ self.old.limit }
        ensures below { result.number < self.new.limit }
    {
        let key = Key::of(self.slots.insert_reserved(RawCell::new(label)));
        set_kids(&mut self.slots, key, kids);
        key
    }

    /// What stands at a node. One step.
    pub fn item<L: Ledger>(&self, key: Key, steps: &mut Steps<L>) -> Item
        requires { At self.now key }
        ensures node { (x : At self.now key) → slice_get x.nodes x.place
            ≡ Some (record { key = key; label = result.label; kids = length result.kids }) }
        ensures parent { (x : At self.now key) → parent_in x.nodes x.place ≡ result.parent }
        ensures kids { (x : At self.now key) → kids_in x.nodes x.place ≡ result.kids }
        ensures step { steps.new ≡ steps.old + 1 }
    {
        let cell = read(&self.slots, key, steps);
        Item {
            label: cell.label(),
            parent: cell.parent(),
            kids: kids_of(&self.slots, cell),
        }
    }

    /// What stands at a node, without the keys of its children. One step.
    pub fn site<L: Ledger>(&self, key: Key, steps: &mut Steps<L>) -> Site
        requires { At self.now key }
        ensures node { (x : At self.now key) → slice_get x.nodes x.place
            ≡ Some (record { key = key; label = result.label; kids = result.arity }) }
        ensures parent { (x : At self.now key) → parent_in x.nodes x.place ≡ result.parent }
        ensures few { result.arity ≤ 8 }
        ensures step { steps.new ≡ steps.old + 1 }
    {
        let cell = read(&self.slots, key, steps);
        Site {
            label: cell.label(),
            parent: cell.parent(),
            arity: cell.count(),
        }
    }

    /// The label of a node. One step.
    pub fn label<L: Ledger>(&self, key: Key, steps: &mut Steps<L>) -> Label
        requires { At self.now key }
        ensures node { (x : At self.now key) → (n : ℕ)
            × (slice_get x.nodes x.place ≡ Some (record { key = key; label = result; kids = n })) }
        ensures step { steps.new ≡ steps.old + 1 }
    {
        read(&self.slots, key, steps).label()
    }

    /// The next node of the same term in preorder. One step.
    pub fn next_in_preorder<L: Ledger>(&self, key: Key, steps: &mut Steps<L>) -> Option<Key>
        requires { At self.now key }
        ensures next { (x : At self.now key) → key_in x.nodes (x.place + 1) ≡ result }
        ensures step { steps.new ≡ steps.old + 1 }
    {
        let here = read(&self.slots, key, steps);
        if here.count() > 0 {
            return Some(here.first());
        }
        self.past_term(key)
    }

    /// The next node of the same term, in preorder, behind all that stands below a node. One step.
    pub fn next_past_term<L: Ledger>(&self, key: Key, steps: &mut Steps<L>) -> Option<Key>
        requires { At self.now key }
        ensures next { (x : At self.now key) → key_in x.nodes (x.place + length (subterm kids_of x.nodes x.place)) ≡ result }
        ensures step { steps.new ≡ steps.old + 1 }
    {
        steps.tick();
        self.past_term(key)
    }

    // The same, where nobody counts: the next sibling of the node, or of the first node above it that has one.
    fn past_term(&self, key: Key) -> Option<Key>
        requires { At self.now key }
        ensures { (x : At self.now key) → key_in x.nodes (x.place + length (subterm kids_of x.nodes x.place)) ≡ result }
    {
        let here = cell_of(&self.slots, key);
        let mut at = here.parent();
        let mut next = here.next();
        while let Some(link) = at {
            let (up, place) = link;
            let above = cell_of(&self.slots, up);
            if place < above.count() {
                return Some(next);
            }
            at = above.parent();
            next = above.next();
        }
        None
    }

    /// Gives a node another label.
    pub fn relabel(&mut self, at: Key, label: Label)
        requires { At self.old at }
        ensures changed { (x : At self.old at) → term_at self.new x.root ≡ Some (labelled x.nodes x.place label) }
        ensures others { (x : At self.old at) (r : ℕ) → r ≢ x.root → term_at self.new r ≡ term_at self.old r }
        ensures spare { self.new.spare ≡ self.old.spare }
        ensures limit { self.new.limit ≡ self.old.limit }
    {
        set_label(&mut self.slots, at, label);
    }

    /// Puts the term of `root` in the place of the node `at`, whose term becomes a root.
    pub fn splice(&mut self, at: Key, root: Key)
        requires root { IsRoot self.old root }
        requires inner { (x : At self.old at) × ((0 < x.place) × (x.root ≢ root.number)) }
        ensures moved { (x : At self.old at) (ms : List Node) → term_at self.old root.number ≡ Some ms
            → term_at self.new x.root ≡ Some (with_subterm kids_of x.nodes x.place ms) }
        ensures freed { (x : At self.old at) → term_at self.new at.number ≡ Some (subterm kids_of x.nodes x.place) }
        ensures gone { term_at self.new root.number ≡ None }
        ensures others { (x : At self.old at) (r : ℕ) → r ≢ x.root → r ≢ at.number → r ≢ root.number
            → term_at self.new r ≡ term_at self.old r }
        ensures spare { self.new.spare ≡ self.old.spare }
        ensures limit { self.new.limit ≡ self.old.limit }
    {
        let (up, place) = cell_of(&self.slots, at).parent().unwrap();
        set_kid(&mut self.slots, up, place - 1, at, root);
        set_parent(&mut self.slots, at, None);
        set_parent(&mut self.slots, root, Some((up, place)));
    }

    /// Takes the node `at`, which is no root, out of its term. With what stands below it, it becomes a root; its parent has one child
    /// fewer.
    pub fn detach(&mut self, at: Key)
        requires { IsInner self.old at }
        ensures moved { (x : At self.old at) (up : Key) (i : ℕ) → parent_in x.nodes x.place ≡ Some (up, i)
            → term_at self.new x.root ≡ Some (without_term x.nodes up x.place) }
        ensures freed { (x : At self.old at) → term_at self.new at.number ≡ Some (subterm kids_of x.nodes x.place) }
        ensures others { (x : At self.old at) (r : ℕ) → r ≢ x.root → r ≢ at.number → term_at self.new r ≡ term_at self.old r }
        ensures spare { self.new.spare ≡ self.old.spare }
        ensures limit { self.new.limit ≡ self.old.limit }
    {
        let (up, place) = cell_of(&self.slots, at).parent().unwrap();
        let above = kids_of(&self.slots, cell_of(&self.slots, up));
        let kids = above.without(place - 1);
        set_kids(&mut self.slots, up, kids.as_slice());
        set_parent(&mut self.slots, at, None);
    }

    /// Puts the children of the node `at`, which is no root, in its own place, so that its parent and it are one. The node becomes a
    /// root with no children. The parent then has at most eight.
    pub fn dissolve(&mut self, at: Key)
        requires { FitsItsParent self.old at }
        ensures moved { (x : At self.old at) (up : Key) (i : ℕ) → parent_in x.nodes x.place ≡ Some (up, i)
            → term_at self.new x.root ≡ Some (without_node x.nodes up x.place) }
        ensures freed { (x : At self.old at) (n : Node) → slice_get x.nodes x.place ≡ Some n
            → term_at self.new at.number ≡ Some (record n { kids = 0 } ∷ []) }
        ensures others { (x : At self.old at) (r : ℕ) → r ≢ x.root → r ≢ at.number → term_at self.new r ≡ term_at self.old r }
        ensures spare { self.new.spare ≡ self.old.spare }
        ensures limit { self.new.limit ≡ self.old.limit }
    {
        let cell = cell_of(&self.slots, at);
        let (up, place) = cell.parent().unwrap();
        let mine = kids_of(&self.slots, cell);
        let above = kids_of(&self.slots, cell_of(&self.slots, up));
        let kids = above.with_others(place - 1, &mine);
        strip(&mut self.slots, at);
        set_kids(&mut self.slots, up, kids.as_slice());
    }

    /// Frees a whole term.
    pub fn cut(&mut self, root: Key)
        requires { IsRoot self.old root }
        ensures gone { term_at self.new root.number ≡ None }
        ensures others { (r : ℕ) → r ≢ root.number → term_at self.new r ≡ term_at self.old r }
        // Each node's room is there again, as long as there are not more slots than keys.
        ensures freed { (ns : List Node) → term_at self.old root.number ≡ Some ns → self.old.limit ≤ 2 ^ 32
            → self.new.spare ≡ self.old.spare + length ns }
        ensures spare { self.old.spare ≤ self.new.spare }
        ensures limit { self.new.limit ≡ self.old.limit }
    {
        free(&mut self.slots, root);
    }
}

// How many more nodes have room.
fn room_in(slots: &Slab<RawCell>) -> usize
    ensures { result ≡ room (seen slots.now) }
{
    let capacity = slots.capacity();
    if capacity > MOST_NODES {
        0
    } else {
        capacity - slots.len()
    }
}
