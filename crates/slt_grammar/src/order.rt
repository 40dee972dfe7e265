// Rules under identities that stay while the rules are there.
ghost use Rattle.std.specs.Prelude.{◌≡◌, ◌⊎◌, ◌+◌, ◌<◌, ◌≤◌, ◌++◌, ◌∷◌, [], ℕ, IfOk, OnOk, OnErr, IsOk, length, slice_index, insert, remove};
ghost use Rattle.slt_grammar.specs.Placing.{IsKnown, placed_label};
ghost use Rattle.slt_grammar.specs.Ordering.{Fresh, Distinct, Inverse, AllBelow, IsThere, place_of};

use rule_arena::Label;
use std::alloc::{AllocError, Global};
use std::marker::Model;

// The identities of rules in the order of the rules, beside how many more there is room for.
//
// An insertion or a removal moves words of two lists, and the identities of all other rules stay.
#[derive(Drop)]
pub(crate) struct Order {
    // A permutation: the first `used` are those of the rules, the others are free.
    ids: Vec<usize>,
    // Where each identity stands.
    places: Vec<usize>,
    used: usize,
}

impl Model for Order {
    ghost use Rattle.std.specs.Prelude.{◌-◌, take, length};
    ghost use Rattle.slt_grammar.specs.Ordering.{Ordered, IsOrder};

    ghost Value = { Ordered };

    ghost view = { λ o. record { order = take o.used o.ids.items; spare = length o.ids.items - o.used } };

    ghost invariant = { λ o. IsOrder o.ids.items o.places.items o.used };
}

impl Order {
    // The identities of so many rules: each has its own place.
    pub(crate) fn of(alloc: Global, rules: usize) -> Result<Order, AllocError>
        ensures len { IfOk result (λ o. length o.order ≡ rules) }
        ensures there { IfOk result (λ o. (q : ℕ) → q < rules → IsThere o.order q) }
        ensures places { IfOk result (λ o. (q : ℕ) → q < rules → place_of o.order q ≡ q) }
    {
        let mut ids = Vec::with_capacity(alloc, rules)?;
        let mut places = Vec::with_capacity(alloc, rules)?;
        for id in 0..rules {
            ids.push(id)?;
            places.push(id)?;
        }
        Ok(Order {
            ids,
            places,
            used: rules,
        })
    }

    // Makes room for so many more rules. The memory is taken first, so that a refusal costs nothing.
    pub(crate) fn reserve(&mut self, more: usize) -> Result<(), AllocError>
        ensures order { self.new.order ≡ self.old.order }
        ensures room { OnOk result (more ≤ self.new.spare) }
        ensures grown { self.old.spare ≤ self.new.spare }
        ensures succeeds { more ≤ self.old.spare → IsOk result }
    {
        let missing = more.saturating_sub(self.ids.len() - self.used);
        self.ids.reserve(missing)?;
        self.places.reserve(missing)?;
        while self.ids.len() - self.used < more {
            add_free(&mut self.ids, &mut self.places)?;
        }
        Ok(())
    }

    // The place of the rule with this identity.
    pub(crate) fn place(&self, id: usize) -> usize
        requires { IsThere self.now.order id }
        ensures { result ≡ place_of self.now.order id }
    {
        self.places[id]
    }

    // The identity of the rule at a place.
    pub(crate) fn id(&self, place: usize) -> usize
        requires { place < length self.now.order }
        ensures value { result ≡ slice_index self.now.order place }
        ensures there { IsThere self.now.order result }
        ensures place { place_of self.now.order result ≡ place }
    {
        self.ids[place]
    }

    // Puts a new identity before the rule at a place, or behind all. It takes no memory.
    pub(crate) fn insert(&mut self, place: usize) -> usize
        requires within { place ≤ length self.old.order }
        requires room { 0 < self.old.spare }
        ensures order { self.new.order ≡ insert self.old.order place result }
        ensures fresh { Fresh result self.old.order }
        ensures spare { self.new.spare + 1 ≡ self.old.spare }
    {
        let id = self.ids[self.used];
        carry(&mut self.ids, self.used, place);
        self.used += 1;
        renumber(&self.ids, &mut self.places, place, self.used);
        id
    }

    // Takes the identity of the rule at a place away. It takes no memory.
    pub(crate) fn remove(&mut self, place: usize)
        requires { place < length self.old.order }
        ensures order { self.new.order ≡ remove self.old.order place }
        ensures spare { self.new.spare ≡ self.old.spare + 1 }
    {
        let end = self.used;
        self.used -= 1;
        carry(&mut self.ids, place, self.used);
        renumber(&self.ids, &mut self.places, place, end);
    }
}

// One more identity that is free.
fn add_free(ids: &mut Vec<usize>, places: &mut Vec<usize>) -> Result<(), AllocError>
    ensures ok { OnOk result ((ids.new.items ≡ ids.old.items ++ length ids.old.items ∷ []) × (places.new.items ≡ places.old.items ++ length ids.old.items ∷ [])) }
    ensures err { OnErr result ((ids.new.items ≡ ids.old.items) × (places.new.items ≡ places.old.items)) }
{
    let id = ids.len();
    places.reserve(1)?;
    ids.push(id)?;
    places.push(id).unwrap();
    Ok(())
}

// Puts an item at another place, those between being moved by one.
fn carry(items: &mut Vec<usize>, from: usize, to: usize)
    requires from { from < length items.old.items }
    requires to { to < length items.old.items }
    ensures { items.new.items ≡ insert (remove items.old.items from) to (slice_index items.old.items from) }
{
    let item = items[from];
    if from < to {
        items.copy_within(from + 1..to + 1, from);
    } else {
        items.copy_within(to..from, to + 1);
    }
    items[to] = item;
}

// Writes the places of the identities from one place up to another.
fn renumber(ids: &Vec<usize>, places: &mut Vec<usize>, from: usize, to: usize)
    requires distinct { Distinct ids.now.items }
    requires below { AllBelow (length places.old.items) ids.now.items }
    requires within { to ≤ length ids.now.items }
    requires others { (p : ℕ) → (p < from) ⊎ (to ≤ p) → p < length ids.now.items → slice_index places.old.items (slice_index ids.now.items p) ≡ p }
    ensures inverse { Inverse ids.now.items places.new.items }
    ensures len { length places.new.items ≡ length places.old.items }
{
    for p in from..to {
        places[ids[p]] = p;
    }
}

// A label with the place of the rule that it calls.
pub(crate) fn place_label(order: &Order, label: Label) -> Label
    requires { IsKnown order.now.order label }
    ensures { result ≡ placed_label order.now.order label }
{
    match label {
        Label::Call(id) => Label::Call(order.place(id)),
        other => other,
    }
}
