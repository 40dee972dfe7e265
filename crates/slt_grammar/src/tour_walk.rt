// A walk along the tour of one rule's body.
ghost use Rattle.std.specs.Prelude.{◌≡◌, ◌≤◌, ◌+◌, ◌<◌, ℕ, true, Some, List, ◌∷◌, length, slice_get};
ghost use Rattle.rule_arena.specs.Terms.{Node, parent_in};
ghost use Rattle.slt_grammar.specs.Keyed.{key_at, nodes_at};
ghost use Rattle.slt_grammar.specs.Segments.{node_tour};
ghost use Rattle.slt_grammar.specs.Tours.{Stop};
ghost use Rattle.slt_grammar.specs.TourWalks.{StandsBefore, StandsBehindSkipped, StandsNext};

use crate::grammar::Grammar;
use read_steps::Steps;
use rule_arena::{Key, Site};
use std::sync::ledger::Ledger;

/// A walk that stops at each node once before its children, and once behind each of them, in document order. It takes no memory.
#[derive(Clone, Copy, Drop)]
pub struct TourWalk {
    /// The node at which the walk stops.
    pub key: Key,
    /// How many of its children lie behind.
    pub part: usize,
    /// The last node that was met.
    pub last: Key,
}

impl TourWalk {
    /// At the first stop, which is the root of the rule's body.
    pub fn new(grammar: &Grammar, rule: usize) -> TourWalk
        requires { rule < length grammar.now.rules }
        ensures stands { StandsBefore grammar.now.rules rule result (node_tour grammar.now.rules rule) }
    {
        let root = grammar.root(rule);
        TourWalk {
            key: root,
            part: 0,
            last: root,
        }
    }

    /// Goes to the next stop, or answers false where this was the last one. `site` is what stands at the walk's node. At most one
    /// step.
    pub fn advance<L: Ledger>(
        &mut self,
        grammar: &Grammar,
        site: &Site,
        steps: &mut Steps<L>,
    ) -> bool
        requires there { (r : ℕ) × (left : List (Stop Node)) × StandsBefore grammar.now.rules r self.old left }
        requires node { (r p : ℕ) → key_at grammar.now.rules r p ≡ Some self.old.key → slice_get (nodes_at grammar.now.rules r) p
            ≡ Some (record { key = self.old.key; label = site.now.label; kids = site.now.arity }) }
        requires parent { (r p : ℕ) → key_at grammar.now.rules r p ≡ Some self.old.key → parent_in (nodes_at grammar.now.rules r) p ≡ site.now.parent }
        ensures next { (r : ℕ) (here : Stop Node) (left : List (Stop Node)) → StandsBefore grammar.now.rules r self.old (here ∷ left)
            → StandsNext result grammar.now.rules r self.new left }
        ensures step { steps.new ≤ steps.old + 1 }
        ensures more { steps.old ≤ steps.new }
    {
        if self.part >= site.arity {
            if let Some((key, part)) = site.parent {
                self.key = key;
                self.part = part;
                return true;
            }
        }
        match grammar.next_in_preorder(self.last, steps) {
            Some(key) => {
                self.key = key;
                self.part = 0;
                self.last = key;
                true
            }
            None => false,
        }
    }

    /// Goes to the next node, before its children, past the stops behind children, or answers false where no node is left. One step.
    pub fn advance_to_node<L: Ledger>(&mut self, grammar: &Grammar, steps: &mut Steps<L>) -> bool
        requires there { (r : ℕ) × (left : List (Stop Node)) × StandsBefore grammar.now.rules r self.old left }
        ensures next { (r : ℕ) (here : Stop Node) (left : List (Stop Node)) → StandsBefore grammar.now.rules r self.old (here ∷ left)
            → StandsBehindSkipped result grammar.now.rules r self.new left }
        ensures before { result ≡ true → self.new.part ≡ 0 }
        ensures step { steps.new ≡ steps.old + 1 }
    {
        let Some(key) = grammar.next_in_preorder(self.last, steps) else {
            return false;
        };
        self.key = key;
        self.part = 0;
        self.last = key;
        true
    }
}
