// The rewriting that gives each node that is hit another symbol.
ghost use Rattle.std.specs.Prelude.{◌≡◌};

use crate::rewriter::Rewriter;
use slt_grammar::{Falling, Fell, Rising};
use std::alloc::AllocError;

/// An automaton whose hits get other symbols.
#[derive(Drop)]
pub struct Renaming<'a, A> {
    pub(crate) automaton: &'a A,
    // For each symbol the one that its nodes get, where they are hit.
    pub(crate) symbols: Vec<usize>,
}

impl<'a, A: Falling> Rising for Renaming<'a, A> {
    type State = A::State;

    ghost algebra = { λ r. A.algebra r.automaton.now };

    fn bottom(&self) -> Result<A::State, AllocError> {
        self.automaton.bottom()
    }

    fn node(
        &self,
        symbol: usize,
        kids: &A::State,
        rest: &A::State,
    ) -> Result<A::State, AllocError> {
        self.automaton.node(symbol, kids, rest)
    }
}

impl<'a, A: Falling> Falling for Renaming<'a, A> {
    type Down = A::Down;

    ghost downward = { λ r. A.downward r.automaton.now };

    fn start(&self) -> Result<A::Down, AllocError> {
        self.automaton.start()
    }

    fn step(
        &self,
        symbol: usize,
        down: &A::Down,
        kids: &A::State,
        rest: &A::State,
    ) -> Result<Fell<A::Down>, AllocError> {
        self.automaton.step(symbol, down, kids, rest)
    }
}

impl<'a, A: Falling> Rewriter for Renaming<'a, A> {
    ghost use Rattle.std.specs.Prelude.{slice_index_or};
    ghost use Rattle.bulk_rewrite.specs.Renaming.{renaming};
    ghost use Rattle.bulk_rewrite.specs.Lawful.{renaming-lawful};

    ghost rewriting = { λ r. renaming (λ f. slice_index_or r.symbols.items f f) };

    fn is_lost(&self, _down: &A::Down) -> bool {
        false
    }

    fn becomes(&self, symbol: usize, _down: &A::Down, hit: bool) -> Option<usize> {
        if hit {
            match self.symbols.get(symbol) {
                Some(new) => Some(*new),
                None => Some(symbol),
            }
        } else {
            Some(symbol)
        }
    }

    ghost lawful = { λ r. renaming-lawful (A.downward r.automaton.now) (λ f. slice_index_or r.symbols.items f f) };
}
