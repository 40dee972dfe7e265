// The selector of a query.
ghost use Rattle.std.specs.Prelude.{◌≡◌, ◌≤◌, ◌<◌, ◌↔◌, IsTrue, IfSome, IfNone, false};
ghost use Rattle.slt_grammar.specs.Automata.{IsSpent};
ghost use Rattle.slt_grammar.specs.OneState.{HasOneState};
ghost use Rattle.selecting_automaton.specs.Unfiltered.{HitsBlindly};
ghost use Rattle.selecting_automaton.specs.Words.{seeks, word_algebra, word_downward};

use crate::climb::rise;
use crate::descent::fall;
use crate::sight::Sight;
use crate::states::{Down, Up};
use crate::turns::Turn;
use crate::unfiltered::BlindSelector;
use plain_tree::Kind;
use slt_grammar::{Falling, Fell, Rising};
use std::alloc::AllocError;
use std::marker::Model;

/// What a query does at each node of a document: upward it finds out for which nodes the parts of its filters hold, downward which nodes
/// its paths come to. It is seen as the kinds of the symbols and the turns.
#[derive(Drop)]
pub struct Selector {
    pub(crate) kinds: Vec<Kind>,
    pub(crate) turns: Vec<Turn>,
    // how many parts of filters are sought
    pub(crate) parts: usize,
}

impl Model for Selector {
    ghost use Rattle.std.specs.Prelude.{◌≡◌};
    ghost use Rattle.selecting_automaton.specs.Words.{Selection, seeks};
    ghost use Rattle.selecting_automaton.specs.Depths.{FitWords};

    ghost Value = { Selection };

    ghost view = { λ s. record { kinds = s.kinds.items; turns = s.turns.items } };

    ghost invariant = { λ s. (s.parts ≡ seeks s.turns.items) × FitWords s.turns.items };
}

impl Selector {
    /// Whether the query has filters with parts that are sought. Where it has none, the run upward has one state.
    pub fn has_filters(&self) -> bool
        ensures parts { IsTrue result ↔ 0 < seeks self.now.turns }
        ensures one { result ≡ false → HasOneState (word_algebra self.now) }
    {
        self.parts > 0
    }

    /// The selector that asks for nothing of the nodes below a node, where the query has no filters with parts that are sought.
    pub fn without_filters(&self) -> Option<BlindSelector<'_>>
        ensures same { IfSome result (λ blind. blind ≡ self.now) }
        ensures hits { IfSome result (λ blind. HitsBlindly blind) }
        ensures none { IfNone result (0 < seeks self.now.turns) }
    {
        if self.has_filters() {
            return None;
        }
        let blind = BlindSelector::new(self);
        Some(blind)
    }

    /// The down state in which no path is on its way: nothing is hit from it on.
    pub fn spent(&self) -> Down
        ensures { IsSpent (word_downward self.now) result }
    {
        Down {
            start: false,
            parent: 0,
            above: 0,
            before: 0,
        }
    }

    fn risen(&self, symbol: usize, kids: Up, rest: Up) -> Up
        ensures { result ≡ (word_algebra self.now).node symbol kids rest }
    {
        if self.parts == 0 {
            return Up { chain: 0, code: 0 };
        }
        rise(&self.turns, &Sight::new(&self.kinds, symbol), kids, rest)
    }

    fn fallen(&self, symbol: usize, down: Down, kids: Up, rest: Up) -> Fell<Down>
        ensures { result ≡ (word_downward self.now).step symbol down kids rest }
    {
        fall(
            &self.turns,
            &Sight::new(&self.kinds, symbol),
            down,
            kids,
            rest,
        )
    }
}

impl Rising for Selector {
    type State = Up;

    ghost algebra = { word_algebra };

    fn bottom(&self) -> Result<Up, AllocError> {
        Ok(Up { chain: 0, code: 0 })
    }

    fn node(&self, symbol: usize, kids: &Up, rest: &Up) -> Result<Up, AllocError> {
        Ok(self.risen(symbol, *kids, *rest))
    }
}

impl Falling for Selector {
    type Down = Down;

    ghost downward = { word_downward };

    fn start(&self) -> Result<Down, AllocError> {
        Ok(Down {
            start: true,
            parent: 0,
            above: 0,
            before: 0,
        })
    }

    fn step(
        &self,
        symbol: usize,
        down: &Down,
        kids: &Up,
        rest: &Up,
    ) -> Result<Fell<Down>, AllocError> {
        let spent = self.spent();
        if *down == spent {
            return Ok(Fell {
                hit: false,
                left: spent,
                right: spent,
            });
        }
        Ok(self.fallen(symbol, *down, *kids, *rest))
    }
}
