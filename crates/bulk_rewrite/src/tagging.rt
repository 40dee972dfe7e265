// The rewriting that gives each node what becomes of its value for a symbol.
ghost use Rattle.std.specs.Prelude.{◌≡◌};
ghost use Rattle.bulk_rewrite.specs.Fates.{fate_of};
ghost use Rattle.bulk_rewrite.specs.Joining.{valued_in};
ghost use Rattle.bulk_rewrite.specs.Tags.{node_tag, told_fate};

use crate::joining::{Joining, Marked};
use crate::rewriter::Rewriter;
use slt_grammar::{Falling, Fell, Rising};
use std::alloc::AllocError;

// A text stays, or goes to the end of the text before it, or is dropped. So do the values of other nodes, but for the second.
#[derive(Clone, Copy, Drop)]
pub(crate) enum Fate {
    Stays,
    Joins,
    Drops,
}

// The fate of the value of a node with this down state, which is hit or not, and a text or not.
fn fate_of<D>(down: &Marked<D>, hit: bool, text: bool) -> Fate
    ensures { result ≡ fate_of down.now hit text }
{
    match down {
        Marked::Lost => Fate::Drops,
        Marked::At(_, before) => {
            if hit {
                Fate::Drops
            } else if text && before.is_gap() {
                Fate::Joins
            } else {
                Fate::Stays
            }
        }
    }
}

// The tag of a node, which has a value or not.
fn node_tag(valued: bool, fate: Fate) -> usize
    ensures { result ≡ node_tag valued fate }
{
    if !valued {
        return 0;
    }
    match fate {
        Fate::Stays => 1,
        Fate::Joins => 2,
        Fate::Drops => 3,
    }
}

// The fate that a tag tells.
pub(crate) fn told_fate(tag: usize) -> Fate
    ensures { result ≡ told_fate tag }
{
    if tag == 1 {
        Fate::Stays
    } else if tag == 2 {
        Fate::Joins
    } else {
        Fate::Drops
    }
}

// What is taken out, where all nodes stay and have tags in place of their symbols.
#[derive(Drop)]
pub(crate) struct Tagging<'a, A> {
    pub(crate) joining: Joining<'a, A>,
}

impl<'a, A> Tagging<'a, A> {
    fn has_value(&self, symbol: usize) -> bool
        ensures { result ≡ valued_in self.now.joining.kinds.now symbol }
    {
        match self.joining.kinds.get(symbol) {
            Some(kind) => kind.has_value(),
            None => false,
        }
    }
}

impl<'a, A: Falling> Rising for Tagging<'a, A> {
    type State = A::State;

    ghost algebra = { λ r. A.algebra r.joining.automaton.now };

    fn bottom(&self) -> Result<A::State, AllocError> {
        self.joining.bottom()
    }

    fn node(
        &self,
        symbol: usize,
        kids: &A::State,
        rest: &A::State,
    ) -> Result<A::State, AllocError> {
        self.joining.node(symbol, kids, rest)
    }
}

impl<'a, A: Falling> Falling for Tagging<'a, A> {
    ghost use Rattle.bulk_rewrite.specs.Joining.{joining_run, texts_in};

    type Down = Marked<A::Down>;

    ghost downward = { λ r. joining_run (A.downward r.joining.automaton.now) (texts_in r.joining.kinds.now) };

    fn start(&self) -> Result<Marked<A::Down>, AllocError> {
        self.joining.start()
    }

    fn step(
        &self,
        symbol: usize,
        down: &Marked<A::Down>,
        kids: &A::State,
        rest: &A::State,
    ) -> Result<Fell<Marked<A::Down>>, AllocError> {
        self.joining.step(symbol, down, kids, rest)
    }
}

impl<'a, A: Falling> Rewriter for Tagging<'a, A> {
    ghost use Rattle.bulk_rewrite.specs.Joining.{texts_in, valued_in};
    ghost use Rattle.bulk_rewrite.specs.Lawful.{tagging-lawful};
    ghost use Rattle.bulk_rewrite.specs.Tags.{tagging};

    ghost rewriting = { λ r. tagging (valued_in r.joining.kinds.now) (texts_in r.joining.kinds.now) };

    fn is_lost(&self, _down: &Marked<A::Down>) -> bool {
        false
    }

    fn becomes(&self, symbol: usize, down: &Marked<A::Down>, hit: bool) -> Option<usize> {
        let fate = fate_of(down, hit, self.joining.is_text(symbol));
        Some(node_tag(self.has_value(symbol), fate))
    }

    ghost lawful = { λ r. tagging-lawful (A.downward r.joining.automaton.now) (texts_in r.joining.kinds.now) (valued_in r.joining.kinds.now) };
}
