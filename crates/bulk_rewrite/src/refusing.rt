// The run that hits nodes that may not get a new name.
ghost use Rattle.std.specs.Prelude.{◌≡◌, slice_index_or};
ghost use Rattle.bulk_rewrite.specs.Refusing.{no_sign};

use slt_grammar::{Falling, Fell, Rising, RunState};
use std::alloc::AllocError;

// What a symbol tells for a new name: whether its nodes may have it, are attributes, and have it already.
#[derive(Clone, Copy, Drop)]
pub(crate) struct Sign {
    pub(crate) allowed: bool,
    pub(crate) attribute: bool,
    pub(crate) same: bool,
}

// A down state, and whether an attribute that gets the new name came before among the siblings.
#[derive(PartialEq, Eq, Hash, Drop)]
pub(crate) struct NameCame<D> {
    pub(crate) down: D,
    pub(crate) came: bool,
}

impl<D: RunState> RunState for NameCame<D> {
    ghost use Rattle.bulk_rewrite.specs.SameStates.{same_came};

    fn copy(&self) -> Result<NameCame<D>, AllocError> {
        Ok(NameCame {
            down: self.down.copy()?,
            came: self.came,
        })
    }

    ghost identical = { same_came D.eq D.identical };
}

// An automaton whose hits get a new name. It hits of them what may not have it, and a second attribute among siblings that gets it.
#[derive(Drop)]
pub(crate) struct Refusing<'a, A> {
    pub(crate) automaton: &'a A,
    // What each symbol tells.
    pub(crate) signs: Vec<Sign>,
}

impl<'a, A> Refusing<'a, A> {
    fn sign(&self, symbol: usize) -> Sign
        ensures { result ≡ slice_index_or self.now.signs.items symbol no_sign }
    {
        match self.signs.get(symbol) {
            Some(sign) => *sign,
            None => Sign {
                allowed: false,
                attribute: false,
                same: false,
            },
        }
    }
}

impl<'a, A: Falling> Rising for Refusing<'a, A> {
    type State = A::State;

    ghost algebra = { λ r. A.algebra r.automaton.now };

    fn bottom(&self) -> Result<A::State, AllocError> {
        self.automaton.bottom()
    }

    fn node(
        &self,
        symbol: usize,
        kids: &A::State,
        rest: &A::State,
    ) -> Result<A::State, AllocError> {
        self.automaton.node(symbol, kids, rest)
    }
}

impl<'a, A: Falling> Falling for Refusing<'a, A> {
    ghost use Rattle.bulk_rewrite.specs.Refusing.{refusing_run, signs_of};

    type Down = NameCame<A::Down>;

    ghost downward = { λ r. refusing_run (A.downward r.automaton.now) (signs_of r.signs.items) };

    fn start(&self) -> Result<NameCame<A::Down>, AllocError> {
        Ok(NameCame {
            down: self.automaton.start()?,
            came: false,
        })
    }

    fn step(
        &self,
        symbol: usize,
        down: &NameCame<A::Down>,
        kids: &A::State,
        rest: &A::State,
    ) -> Result<Fell<NameCame<A::Down>>, AllocError> {
        let fell = self.automaton.step(symbol, &down.down, kids, rest)?;
        let sign = self.sign(symbol);
        let gets = sign.attribute && (fell.hit || sign.same);
        Ok(Fell {
            hit: (fell.hit && !sign.allowed) || (gets && down.came),
            left: NameCame {
                down: fell.left,
                came: false,
            },
            right: NameCame {
                down: fell.right,
                came: down.came || gets,
            },
        })
    }
}
