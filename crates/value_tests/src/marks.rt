// Which texts of a list have marks.
ghost use Rattle.std.specs.Prelude.{◌≡◌, ◌↔◌, true, IfOk, IsTrue};
ghost use Rattle.value_tests.specs.MarkLists.{mark_at, NoneIsMarked};
ghost use Rattle.value_tests.specs.TextPlaces.{IsClear};

use std::alloc::{AllocError, Global};
use std::marker::Model;

/// The marks of texts, by their places in the list: 0 where a text equals no literal, else 1 more than the literal's place. They are seen
/// as their list.
#[derive(Drop)]
pub struct Marks {
    marks: Vec<u32>,
    // Of each place the first one from it on that has a mark, or the number of places.
    next: Vec<u32>,
}

impl Model for Marks {
    ghost use Rattle.std.specs.Prelude.{ℕ, List};
    ghost use Rattle.value_tests.specs.MarkLists.{HasNext};

    ghost Value = { List ℕ };

    ghost view = { λ m. m.marks.items };

    ghost invariant = { λ m. HasNext m.marks.items m.next.items };
}

impl Marks {
    /// The marks of texts, by their places. It fails where memory is refused, and for 2^32 texts or more.
    pub fn of(alloc: Global, marks: Vec<u32>) -> Result<Marks, AllocError>
        ensures { IfOk result (λ m. m ≡ marks.items) }
    {
        let count = marks.as_slice().len();
        let Ok(mut first) = u32::try_from(count) else {
            return Err(AllocError);
        };
        let mut next = vec![in alloc; 0; count]?;
        let mut left = count;
        while left > 0 {
            left -= 1;
            if marks[left] != 0 {
                first = left as u32;
            }
            next[left] = first;
        }
        Ok(Marks { marks, next })
    }

    /// Whether no text is marked. It takes no memory, and as long for many texts as for few.
    pub fn are_clear(&self) -> bool
        ensures { IsTrue result ↔ NoneIsMarked self.now }
    {
        self.is_clear(0, self.next.len() as u64)
    }

    // The mark of the text at a place, and 0 where there is no text.
    pub(crate) fn at(&self, place: u64) -> u64
        ensures { result ≡ mark_at self.now place }
    {
        match self.marks.get(place as usize) {
            Some(mark) => *mark as u64,
            None => 0,
        }
    }

    // Whether no text is marked among so many from a place on.
    pub(crate) fn is_clear(&self, from: u64, count: u64) -> bool
        ensures clear { result ≡ true → IsClear (mark_at self.now) from count }
        ensures all { IsClear (mark_at self.now) from count → result ≡ true }
    {
        let from = from as usize;
        if from >= self.next.len() {
            return true;
        }
        let next = self.next[from] as usize;
        next >= self.next.len() || next >= from && (next - from) as u64 >= count
    }
}
