// Nodes that are hit are taken out with all that is below them, and texts that meet become one.
ghost use Rattle.std.specs.Prelude.{◌≡◌};
ghost use Rattle.bulk_rewrite.specs.Joining.{before_rest, gapped, gives_way, is_gap, joining_step, texts_in};

use crate::kinds::is_text;
use crate::rewriter::Rewriter;
use plain_tree::Kind;
use slt_grammar::{Falling, Fell, Rising, RunState};
use std::alloc::AllocError;

// The nearest kept sibling before: no text, a text, or a text with a node taken out since.
#[derive(Clone, Copy, PartialEq, Eq, Hash, Drop)]
pub(crate) enum Before {
    NoText,
    JustText,
    GapText,
}

impl Before {
    // What it is once a node is taken out.
    fn gapped(self) -> Before
        ensures { result ≡ gapped self }
    {
        match self {
            Before::NoText => Before::NoText,
            Before::JustText | Before::GapText => Before::GapText,
        }
    }

    pub(crate) fn is_gap(self) -> bool
        ensures { result ≡ is_gap self }
    {
        matches!(self, Before::GapText)
    }
}

// A down state with what stands before, but for what stands below a node that is taken out.
#[derive(PartialEq, Eq, Hash, Drop)]
pub(crate) enum Marked<D> {
    Lost,
    At(D, Before),
}

impl<D: RunState> RunState for Marked<D> {
    ghost use Rattle.std.specs.Prelude.{refl};
    ghost use Rattle.bulk_rewrite.specs.SameStates.{same_marked};

    fn copy(&self) -> Result<Marked<D>, AllocError> {
        match self {
            Marked::Lost => Ok(Marked::Lost),
            Marked::At(down, before) => Ok(Marked::At(down.copy()?, *before)),
        }
    }

    ghost identical = { same_marked D.eq D.identical _ (λ d f m n. refl) (λ d m. refl) (λ d m. refl) };
}

// An automaton whose hits are taken out, and the kinds of the symbols.
#[derive(Drop)]
pub(crate) struct Joining<'a, A> {
    pub(crate) automaton: &'a A,
    pub(crate) kinds: &'a [Kind],
}

impl<'a, A> Joining<'a, A> {
    pub(crate) fn is_text(&self, symbol: usize) -> bool
        ensures { result ≡ texts_in self.now.kinds.now symbol }
    {
        match self.kinds.get(symbol) {
            Some(kind) => is_text(*kind),
            None => false,
        }
    }
}

impl<'a, A: Falling> Rising for Joining<'a, A> {
    type State = A::State;

    ghost algebra = { λ r. A.algebra r.automaton.now };

    fn bottom(&self) -> Result<A::State, AllocError> {
        self.automaton.bottom()
    }

    fn node(
        &self,
        symbol: usize,
        kids: &A::State,
        rest: &A::State,
    ) -> Result<A::State, AllocError> {
        self.automaton.node(symbol, kids, rest)
    }
}

impl<'a, A: Falling> Falling for Joining<'a, A> {
    ghost use Rattle.bulk_rewrite.specs.Joining.{joining_run, texts_in};

    type Down = Marked<A::Down>;

    ghost downward = { λ r. joining_run (A.downward r.automaton.now) (texts_in r.kinds.now) };

    fn start(&self) -> Result<Marked<A::Down>, AllocError> {
        Ok(Marked::At(self.automaton.start()?, Before::NoText))
    }

    fn step(
        &self,
        symbol: usize,
        down: &Marked<A::Down>,
        kids: &A::State,
        rest: &A::State,
    ) -> Result<Fell<Marked<A::Down>>, AllocError> {
        match down {
            Marked::Lost => Ok(Fell {
                hit: false,
                left: Marked::Lost,
                right: Marked::Lost,
            }),
            Marked::At(down, before) => {
                let fell = self.automaton.step(symbol, down, kids, rest)?;
                Ok(joined(fell, self.is_text(symbol), *before))
            }
        }
    }
}

// The step of a node, which is a text or not, behind what stands before it.
fn joined<D: RunState>(fell: Fell<D>, text: bool, before: Before) -> Fell<Marked<D>>
    ensures { result ≡ joining_step text before fell }
{
    let Fell { hit, left, right } = fell;
    let below = if gives_way(hit, text, before) {
        Marked::Lost
    } else {
        Marked::At(left, Before::NoText)
    };
    let behind = Marked::At(right, before_rest(hit, text, before));
    Fell {
        hit,
        left: below,
        right: behind,
    }
}

// Whether a node gives way to what is behind it: it is hit, or a text that meets the text before.
fn gives_way(hit: bool, text: bool, before: Before) -> bool
    ensures { result ≡ gives_way hit text before }
{
    hit || (text && before.is_gap())
}

// What stands before what is behind a node.
fn before_rest(hit: bool, text: bool, before: Before) -> Before
    ensures { result ≡ before_rest hit text before }
{
    if hit {
        before.gapped()
    } else if text {
        Before::JustText
    } else {
        Before::NoText
    }
}

impl<'a, A: Falling> Rewriter for Joining<'a, A> {
    ghost use Rattle.bulk_rewrite.specs.Joining.{joining, texts_in};
    ghost use Rattle.bulk_rewrite.specs.Lawful.{joining-lawful};

    ghost rewriting = { λ r. joining (texts_in r.kinds.now) };

    fn is_lost(&self, down: &Marked<A::Down>) -> bool {
        matches!(down, Marked::Lost)
    }

    fn becomes(&self, symbol: usize, down: &Marked<A::Down>, hit: bool) -> Option<usize> {
        match down {
            Marked::Lost => None,
            Marked::At(_, before) => {
                if gives_way(hit, self.is_text(symbol), *before) {
                    None
                } else {
                    Some(symbol)
                }
            }
        }
    }

    ghost lawful = { λ r. joining-lawful (A.downward r.automaton.now) (texts_in r.kinds.now) };
}
