// Lists one above another in one run of memory. The topmost grows and shrinks.
ghost use Rattle.std.specs.Prelude.{◌≡◌, [], ◌∷◌, get_or, drop, OnOk, IfSome, IfNone};

use crate::stack::drop_top;
use std::alloc::{AllocError, Global};
use std::marker::Model;

// The lists, the last item of each its top. It is seen as the topmost list and those below it, each from its top on.
pub(crate) struct Layers<T: Drop> {
    items: Vec<T>,
    // Where the topmost list begins, and where each of those below it does.
    floor: usize,
    floors: Vec<usize>,
}

impl<T: Drop> Drop for Layers<T> {
    fn drop(self) {
        let Layers {
            items: _items,
            floor: _floor,
            floors: _floors,
        } = self;
    }
}

impl<T: Drop> Model for Layers<T> {
    ghost use Rattle.std.specs.Prelude.{reverse, length, ◌∷◌};
    ghost use Rattle.rule_runs.specs.Layers.{Layered, layered, AreFloors};

    ghost Value = { Layered T };

    ghost view = { λ l. layered l.floor (reverse l.floors.items) (reverse l.items.items) };

    ghost invariant = { λ l. AreFloors (l.floor ∷ reverse l.floors.items) (length l.items.items) };
}

impl<T: Drop> Layers<T> {
    // One list, which is empty.
    pub(crate) fn new(alloc: Global) -> Layers<T>
        ensures top { result.top ≡ [] }
        ensures below { result.below ≡ [] }
    {
        Layers {
            items: Vec::new(alloc),
            floor: 0,
            floors: Vec::new(alloc),
        }
    }

    // Puts an item on the topmost list.
    pub(crate) fn push(&mut self, item: T) -> Result<(), AllocError>
        ensures top { OnOk result (self.new.top ≡ item ∷ self.old.top) }
        ensures below { OnOk result (self.new.below ≡ self.old.below) }
    {
        self.items.push(item)?;
        Ok(())
    }

    // Takes the top of the topmost list off, and none where it is empty.
    pub(crate) fn pop(&mut self) -> Option<T>
        ensures some { IfSome result (λ item. self.old.top ≡ item ∷ self.new.top) }
        ensures none { IfNone result (self.old.top ≡ []) }
        ensures stays { IfNone result (self.new.top ≡ []) }
        ensures below { self.new.below ≡ self.old.below }
    {
        if self.items.len() > self.floor {
            self.items.pop()
        } else {
            None
        }
    }

    // Begins an empty list above the others.
    pub(crate) fn open(&mut self) -> Result<(), AllocError>
        ensures top { OnOk result (self.new.top ≡ []) }
        ensures below { OnOk result (self.new.below ≡ self.old.top ∷ self.old.below) }
    {
        self.floors.push(self.floor)?;
        self.floor = self.items.len();
        Ok(())
    }

    // Takes the topmost list away. Where there is no other, an empty one takes its place.
    pub(crate) fn close(&mut self)
        ensures top { self.new.top ≡ get_or self.old.below 0 [] }
        ensures below { self.new.below ≡ drop 1 self.old.below }
    {
        let count = self.items.len() - self.floor;
        drop_top(&mut self.items, count);
        if let Some(floor) = self.floors.pop() {
            self.floor = floor;
        }
    }
}
