// Automata that run over terms, upward from the leaves and downward from the root (Comon et al., Tree Automata Techniques and
// Applications, 1.1 and 6.3). What they answer is a function of what they read.
ghost use Rattle.std.specs.Prelude.{◌≡◌, true, IfOk};
ghost use Rattle.slt_grammar.specs.Algebras.{Algebra};
ghost use Rattle.slt_grammar.specs.Automata.{Downward};

use std::alloc::AllocError;
use std::hash::Hash;

/// A state of a run.
pub trait RunState: Eq + Hash + Drop {
    /// The same state again. It is refused only for want of memory.
    fn copy(&self) -> Result<Self, AllocError>
        ensures { IfOk result (λ again. again ≡ self.now) };

    /// Equal states are identical.
    ghost identical: { (a b : Self) → Self.eq a b ≡ true → a ≡ b };
}

/// An automaton that runs upward: each node gets a state by its symbol and its children's states. Its calls are refused only for
/// want of memory.
pub trait Rising {
    type State: RunState;

    /// The states as a function of what is read.
    ghost algebra: { Self → Algebra Self.State };

    /// The state of bottom.
    fn bottom(&self) -> Result<Self::State, AllocError>
        ensures { IfOk result (λ state. state ≡ (algebra self.now).bottom) };

    /// The state of a symbol over the states of its first child and of its next sibling.
    fn node(
        &self,
        symbol: usize,
        kids: &Self::State,
        rest: &Self::State,
    ) -> Result<Self::State, AllocError>
        ensures { IfOk result (λ state. state ≡ (algebra self.now).node symbol kids.now rest.now) };
}

/// What a step downward answers: whether the node is hit, and the down states of its two children.
#[derive(Drop)]
pub struct Fell<D> {
    pub hit: bool,
    pub left: D,
    pub right: D,
}

/// An automaton that runs downward too, over the states of the run upward, and hits some nodes. Its calls are refused only for want
/// of memory.
pub trait Falling: Rising {
    type Down: RunState;

    /// The down states and hits as a function of what is read.
    ghost downward: { Self → Downward Self.State Self.Down };

    /// The down state of the root.
    fn start(&self) -> Result<Self::Down, AllocError>
        ensures { IfOk result (λ down. down ≡ (downward self.now).start) };

    /// What happens at a symbol with a down state, over children with these states.
    fn step(
        &self,
        symbol: usize,
        down: &Self::Down,
        kids: &Self::State,
        rest: &Self::State,
    ) -> Result<Fell<Self::Down>, AllocError>
        ensures { IfOk result (λ fell. fell ≡ (downward self.now).step symbol down.now kids.now rest.now) };
}
