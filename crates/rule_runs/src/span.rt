// Parts of lists that hold what is told of many things in turn, so that none takes a list of its own.
ghost use Rattle.std.specs.Prelude.{◌≡◌, ◌≤◌, length, slice_range, IfOk};

use crate::place::short;
use std::alloc::AllocError;

// Where a part of a list stands.
#[derive(Clone, Copy, Drop)]
pub(crate) struct Span {
    pub(crate) begin: u32,
    pub(crate) end: u32,
}

impl Span {
    // The part from a place up to another one.
    pub(crate) fn new(begin: usize, end: usize) -> Result<Span, AllocError>
        ensures begin { IfOk result (λ span. span.begin ≡ begin) }
        ensures end { IfOk result (λ span. span.end ≡ end) }
    {
        let begin = short(begin)?;
        let end = short(end)?;
        Ok(Span { begin, end })
    }

    // What stands there.
    pub(crate) fn of<'a, X: Drop>(&self, items: &'a Vec<X>) -> &'a [X]
        requires order { self.now.begin ≤ self.now.end }
        requires within { self.now.end ≤ length items.now.items }
        ensures { result.now ≡ slice_range items.now.items self.now.begin self.now.end }
    {
        &items[self.begin as usize..self.end as usize]
    }
}
