// The states of a checker.
ghost use Rattle.std.specs.Prelude.{◌≡◌};
ghost use Rattle.std.proofs.Common.{rules};

use crate::sets::Sets;
use slt_grammar::RunState;
use std::alloc::AllocError;

/// From which places of the models the names of a chain's elements end a match. These are places of the name at the front alone.
#[derive(PartialEq, Eq, Hash, Drop)]
pub enum Chain {
    /// There are no elements, which end a match where a model ends.
    Empty,
    /// From none.
    Stuck,
    /// From these of the places of the symbol at the front, a bit for each, of which there are 64 at most.
    Near(usize, u64),
    /// From these places of each model.
    Far(Sets),
}

impl RunState for Chain {
    fn copy(&self) -> Result<Chain, AllocError> {
        match self {
            Chain::Empty => Ok(Chain::Empty),
            Chain::Stuck => Ok(Chain::Stuck),
            Chain::Near(symbol, set) => Ok(Chain::Near(*symbol, *set)),
            Chain::Far(sets) => Ok(Chain::Far(sets.copy()?)),
        }
    }

    ghost use Rattle.content_models.specs.SameChains.{same_chain};

    ghost identical = { same_chain };
}

/// The one state of a checker on its way down.
#[derive(Clone, Copy, Debug, PartialEq, Eq, Hash, Drop)]
pub struct OneState;

impl RunState for OneState {
    fn copy(&self) -> Result<OneState, AllocError> {
        Ok(OneState)
    }

    ghost identical = { Prim.search rules };
}
