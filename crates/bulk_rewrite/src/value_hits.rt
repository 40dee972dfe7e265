// The automaton that hits the nodes whose tags say that they have a value. It finds nothing out of what is below a node.
ghost use Rattle.std.specs.Prelude.{◌≡◌};
ghost use Rattle.std.proofs.Common.{rules};

use slt_grammar::{Falling, Fell, Rising, RunState};
use std::alloc::AllocError;

#[derive(Clone, Copy, PartialEq, Eq, Hash)]
pub(crate) struct OneState;

impl RunState for OneState {
    fn copy(&self) -> Result<OneState, AllocError> {
        Ok(OneState)
    }

    ghost identical = { Prim.search rules };
}

#[derive(Drop)]
pub(crate) struct ValueHits;

impl Rising for ValueHits {
    ghost use Rattle.bulk_rewrite.specs.Tags.{one_algebra};

    type State = OneState;

    ghost algebra = { λ _. one_algebra };

    fn bottom(&self) -> Result<OneState, AllocError> {
        Ok(OneState)
    }

    fn node(
        &self,
        _symbol: usize,
        _kids: &OneState,
        _rest: &OneState,
    ) -> Result<OneState, AllocError> {
        Ok(OneState)
    }
}

impl Falling for ValueHits {
    ghost use Rattle.bulk_rewrite.specs.Tags.{value_run};

    type Down = OneState;

    ghost downward = { λ _. value_run };

    fn start(&self) -> Result<OneState, AllocError> {
        Ok(OneState)
    }

    fn step(
        &self,
        symbol: usize,
        _down: &OneState,
        _kids: &OneState,
        _rest: &OneState,
    ) -> Result<Fell<OneState>, AllocError> {
        Ok(Fell {
            hit: symbol != 0,
            left: OneState,
            right: OneState,
        })
    }
}
