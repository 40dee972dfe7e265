// An automaton of the tests: it hits each `a` whose kids hold a `b`, and each `c` below an `a`.
ghost use Rattle.std.specs.Prelude.{◌≡◌, ◌||◌, ◌&&◌, eqb, false, true};
ghost use Rattle.query_tests.specs.States.{same_seen, same_below};

use slt_grammar::{Falling, Fell, Rising, RunState};
use std::alloc::AllocError;

pub const A: usize = 1;

pub const B: usize = 2;

pub const C: usize = 3;

// Whether some node here is `b`.
#[derive(Clone, Copy, PartialEq, Eq, Hash, Drop)]
pub struct Seen {
    pub has_b: bool,
}

impl RunState for Seen {
    fn copy(&self) -> Result<Self, AllocError> {
        Ok(*self)
    }

    ghost identical = { same_seen };
}

// Whether an `a` is above.
#[derive(Clone, Copy, PartialEq, Eq, Hash, Drop)]
pub struct Below {
    pub an_a: bool,
}

impl RunState for Below {
    fn copy(&self) -> Result<Self, AllocError> {
        Ok(*self)
    }

    ghost identical = { same_below };
}

pub struct Marks;

impl Rising for Marks {
    type State = Seen;

    ghost algebra = { λ m. record { bottom = record { has_b = false }; node = λ f k r. record { has_b = eqb f 2 || (k.has_b || r.has_b) } } };

    fn bottom(&self) -> Result<Seen, AllocError> {
        Ok(Seen { has_b: false })
    }

    fn node(&self, symbol: usize, kids: &Seen, rest: &Seen) -> Result<Seen, AllocError> {
        Ok(Seen {
            has_b: symbol == B || kids.has_b || rest.has_b,
        })
    }
}

impl Falling for Marks {
    type Down = Below;

    ghost downward = { λ m. record {
      start = record { an_a = false };
      step = λ f d k r. record {
        hit = (eqb f 1 && k.has_b) || (eqb f 3 && d.an_a);
        left = record { an_a = eqb f 1 || d.an_a };
        right = record { an_a = d.an_a };
      };
    } };

    fn start(&self) -> Result<Below, AllocError> {
        Ok(Below { an_a: false })
    }

    fn step(
        &self,
        symbol: usize,
        down: &Below,
        kids: &Seen,
        _rest: &Seen,
    ) -> Result<Fell<Below>, AllocError> {
        Ok(Fell {
            hit: symbol == A && kids.has_b || symbol == C && down.an_a,
            left: Below {
                an_a: symbol == A || down.an_a,
            },
            right: *down,
        })
    }
}
