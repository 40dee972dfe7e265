// The run that hits the nodes that may not be taken out: the document and its root element.
ghost use Rattle.std.specs.Prelude.{◌≡◌};
ghost use Rattle.bulk_rewrite.specs.Joining.{deeper, elements_in, must_stay};

use crate::kinds::is_element;
use plain_tree::Kind;
use slt_grammar::{Falling, Fell, Rising, RunState};
use std::alloc::AllocError;

// Where a node stands: it is the document, among the document's kids, or below.
#[derive(Clone, Copy, PartialEq, Eq, Hash, Drop)]
pub(crate) enum Depth {
    AtTop,
    AtRoot,
    Below,
}

impl Depth {
    // Where the kids of such a node stand.
    fn deeper(self) -> Depth
        ensures { result ≡ deeper self }
    {
        match self {
            Depth::AtTop => Depth::AtRoot,
            Depth::AtRoot | Depth::Below => Depth::Below,
        }
    }

    // Whether such a node, an element or not, may not be taken out.
    fn must_stay(self, element: bool) -> bool
        ensures { result ≡ must_stay self element }
    {
        match self {
            Depth::AtTop => true,
            Depth::AtRoot => element,
            Depth::Below => false,
        }
    }
}

#[derive(PartialEq, Eq, Hash, Drop)]
pub(crate) struct AtDepth<D> {
    pub(crate) down: D,
    pub(crate) depth: Depth,
}

impl<D: RunState> RunState for AtDepth<D> {
    ghost use Rattle.bulk_rewrite.specs.SameStates.{same_at};

    fn copy(&self) -> Result<AtDepth<D>, AllocError> {
        Ok(AtDepth {
            down: self.down.copy()?,
            depth: self.depth,
        })
    }

    ghost identical = { same_at D.eq D.identical };
}

// An automaton whose hits are taken out, and the kinds of the symbols. It hits of them what may not go.
#[derive(Drop)]
pub(crate) struct Sparing<'a, A> {
    pub(crate) automaton: &'a A,
    pub(crate) kinds: &'a [Kind],
}

impl<'a, A> Sparing<'a, A> {
    fn is_element(&self, symbol: usize) -> bool
        ensures { result ≡ elements_in self.now.kinds.now symbol }
    {
        match self.kinds.get(symbol) {
            Some(kind) => is_element(*kind),
            None => false,
        }
    }
}

impl<'a, A: Falling> Rising for Sparing<'a, A> {
    type State = A::State;

    ghost algebra = { λ r. A.algebra r.automaton.now };

    fn bottom(&self) -> Result<A::State, AllocError> {
        self.automaton.bottom()
    }

    fn node(
        &self,
        symbol: usize,
        kids: &A::State,
        rest: &A::State,
    ) -> Result<A::State, AllocError> {
        self.automaton.node(symbol, kids, rest)
    }
}

impl<'a, A: Falling> Falling for Sparing<'a, A> {
    ghost use Rattle.bulk_rewrite.specs.Joining.{elements_in, sparing_run};

    type Down = AtDepth<A::Down>;

    ghost downward = { λ r. sparing_run (A.downward r.automaton.now) (elements_in r.kinds.now) };

    fn start(&self) -> Result<AtDepth<A::Down>, AllocError> {
        Ok(AtDepth {
            down: self.automaton.start()?,
            depth: Depth::AtTop,
        })
    }

    fn step(
        &self,
        symbol: usize,
        down: &AtDepth<A::Down>,
        kids: &A::State,
        rest: &A::State,
    ) -> Result<Fell<AtDepth<A::Down>>, AllocError> {
        let fell = self.automaton.step(symbol, &down.down, kids, rest)?;
        Ok(Fell {
            hit: fell.hit && down.depth.must_stay(self.is_element(symbol)),
            left: AtDepth {
                down: fell.left,
                depth: down.depth.deeper(),
            },
            right: AtDepth {
                down: fell.right,
                depth: down.depth,
            },
        })
    }
}
