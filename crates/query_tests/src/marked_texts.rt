// An automaton of the tests, for four symbols without marks: it hits each text with the mark 1, and each element that has one for a child.
ghost use Rattle.std.specs.Prelude.{◌≡◌, ◌||◌, eqb, false};
ghost use Rattle.std.proofs.Common.{rules};
ghost use Rattle.query_tests.specs.States.{same_chain};

use slt_grammar::{Falling, Fell, Rising, RunState};
use std::alloc::AllocError;

pub const MARKED_TEXT: usize = 7;

// Whether a node of the chain is a text with the mark 1.
#[derive(Clone, Copy, PartialEq, Eq, Hash, Drop)]
pub struct Chain {
    pub has_marked: bool,
}

impl RunState for Chain {
    fn copy(&self) -> Result<Self, AllocError> {
        Ok(*self)
    }

    ghost identical = { same_chain };
}

// All nodes are looked at in the same way.
#[derive(Clone, Copy, PartialEq, Eq, Hash, Drop)]
pub struct Everywhere;

impl RunState for Everywhere {
    fn copy(&self) -> Result<Self, AllocError> {
        Ok(Everywhere)
    }

    ghost identical = { Prim.search rules };
}

pub struct MarkedTexts;

impl Rising for MarkedTexts {
    type State = Chain;

    ghost algebra = { λ m. record { bottom = record { has_marked = false }; node = λ f k r. record { has_marked = eqb f 7 || r.has_marked } } };

    fn bottom(&self) -> Result<Chain, AllocError> {
        Ok(Chain { has_marked: false })
    }

    fn node(&self, symbol: usize, _kids: &Chain, rest: &Chain) -> Result<Chain, AllocError> {
        Ok(Chain {
            has_marked: symbol == MARKED_TEXT || rest.has_marked,
        })
    }
}

impl Falling for MarkedTexts {
    type Down = Everywhere;

    ghost downward = { λ m. record {
      start = record {};
      step = λ f d k r. record { hit = eqb f 7 || k.has_marked; left = record {}; right = record {} };
    } };

    fn start(&self) -> Result<Everywhere, AllocError> {
        Ok(Everywhere)
    }

    fn step(
        &self,
        symbol: usize,
        _down: &Everywhere,
        kids: &Chain,
        _rest: &Chain,
    ) -> Result<Fell<Everywhere>, AllocError> {
        Ok(Fell {
            hit: symbol == MARKED_TEXT || kids.has_marked,
            left: Everywhere,
            right: Everywhere,
        })
    }
}
