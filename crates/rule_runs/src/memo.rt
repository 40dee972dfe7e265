// What a run upward knows of rules at states of their arguments.
ghost use Rattle.std.specs.Prelude.{◌≡◌, ◌≢◌, ◌++◌, ◌<◌, ◌≤◌, [], ◌∷◌, length, slice_get, take, reverse, vec_len, Some, IfOk, IfSome, IfNone, IsSome, OnOk, All};
ghost use Rattle.rule_runs.specs.Entries.{key_of};
ghost use Rattle.rule_runs.specs.Risen.{keys, pair_at};

use crate::index::{Index, Numbered};
use crate::span::Span;
use crate::stack::are_topmost;
use slt_grammar::RunState;
use std::alloc::{AllocError, Global};
use std::marker::Model;

/// A rule at states of its arguments.
#[derive(PartialEq, Eq, Hash, Drop)]
pub(crate) struct Pair<S> {
    pub(crate) rule: usize,
    pub(crate) states: Vec<S>,
}

impl<S: RunState> Numbered for Pair<S> {
    ghost use Rattle.std.proofs.Common.{rules};

    ghost number_of = { λ pair. pair.rule };

    fn number(&self) -> usize {
        self.rule
    }

    fn copy(&self) -> Result<Pair<S>, AllocError> {
        let mut states = Vec::with_capacity(*self.states.allocator(), self.states.len())?;
        for state in &self.states {
            states.push(state.copy()?)?;
        }
        Ok(Pair {
            rule: self.rule,
            states,
        })
    }

    ghost one_number = { Prim.search rules };
}

// A pair that was noted, and its state.
#[derive(Drop)]
pub(crate) struct Entry<S: Drop> {
    rule: usize,
    // Where the states of its arguments stand among those of all pairs.
    arguments: Span,
    state: S,
}

/// The states of pairs, in the order in which they were noted.
#[derive(Drop)]
pub(crate) struct Memo<S: RunState> {
    entries: Vec<Entry<S>>,
    // The states of the arguments of all pairs in that order, so that a pair takes no memory of its own.
    arguments: Vec<S>,
    index: Index<Pair<S>>,
}

impl<S: RunState> Model for Memo<S> {
    ghost use Rattle.std.specs.Prelude.{List};
    ghost use Rattle.rule_runs.specs.Reached.{RuleStates};
    ghost use Rattle.rule_runs.specs.Entries.{entries_of, IsMemo};
    ghost use Rattle.rule_runs.specs.declared.index.TheConstants.{FEW};

    ghost Value = { List (RuleStates S × S) };

    ghost view = { λ m. entries_of m.arguments.items m.entries.items };

    ghost invariant = { λ m. IsMemo S.eq FEW m.arguments.items m.entries.items m.index.first.items m.index.others.entries };
}

impl<S: RunState> Memo<S> {
    pub(crate) fn new(alloc: Global) -> Memo<S>
        ensures { result ≡ [] }
    {
        Memo {
            entries: Vec::new(alloc),
            arguments: Vec::new(alloc),
            index: Index::new(alloc),
        }
    }

    // With room for so many pairs of as many rules.
    pub(crate) fn with_room(alloc: Global, count: usize) -> Result<Memo<S>, AllocError>
        ensures { IfOk result (λ memo. memo ≡ []) }
    {
        Ok(Memo {
            entries: Vec::with_capacity(alloc, count)?,
            arguments: Vec::new(alloc),
            index: Index::with_room(alloc, count)?,
        })
    }

    // The place and the state of the pair of a rule with the topmost states, if it is among the first of the rule. Most pairs are found
    // so, without a list of their states and without a hash.
    pub(crate) fn find_topmost(
        &self,
        rule: usize,
        rank: usize,
        stack: &Vec<S>,
    ) -> Option<(usize, &S)>
        requires { rank ≤ vec_len stack.now }
        ensures { IfSome result (λ r. slice_get self.now r.0 ≡ Some ((rule, take rank (reverse stack.now.items)), r.1.now)) }
    {
        for place in self.index.first_places(rule) {
            let place = *place as usize;
            if let Some((noted, states, state)) = self.entry(place)
                && noted == rule
                && are_topmost(states, rank, stack)
            {
                return Some((place, state));
            }
        }
        None
    }

    // A pair's place and state.
    pub(crate) fn find(&self, pair: &Pair<S>) -> Option<(usize, &S)>
        ensures found { IfSome result (λ r. slice_get self.now r.0 ≡ Some (key_of pair.now, r.1.now)) }
        ensures absent { IfNone result (All (λ e. e.0 ≢ key_of pair.now) self.now) }
    {
        self.index.find(pair, |place| self.state_under(place, pair))
    }

    // How many pairs there are.
    pub(crate) fn len(&self) -> usize
        ensures { result ≡ length (keys self.now) }
    {
        self.entries.len()
    }

    // The rule and the states of the pair at a place.
    pub(crate) fn pair(&self, index: usize) -> Option<(usize, &[S])>
        ensures there { index < length self.now → IsSome result }
        ensures pair { IfSome result (λ p. (p.0, p.1.now) ≡ pair_at (keys self.now) index) }
    {
        match self.entry(index) {
            Some((rule, states, _)) => Some((rule, states)),
            None => None,
        }
    }

    // Notes the state of a pair that is not there yet, and takes the states of its arguments.
    pub(crate) fn note(&mut self, pair: &mut Pair<S>, state: S) -> Result<(), AllocError>
        requires { All (λ e. e.0 ≢ key_of pair.old) self.old }
        ensures ok { OnOk result (self.new ≡ self.old ++ (key_of pair.old, state) ∷ []) }
    {
        self.index.name(pair, self.entries.len())?;
        let begin = self.arguments.len();
        self.arguments.append(&mut pair.states)?;
        let arguments = Span::new(begin, self.arguments.len())?;
        self.entries.push(Entry {
            rule: pair.rule,
            arguments,
            state,
        })?;
        Ok(())
    }

    // The rule, the states of the arguments and the state at a place.
    fn entry(&self, place: usize) -> Option<(usize, &[S], &S)>
        ensures there { IfSome result (λ r. slice_get self.now place ≡ Some ((r.0, r.1.now), r.2.now)) }
        ensures past { IfNone result (length self.now ≤ place) }
    {
        match self.entries.get(place) {
            Some(entry) => Some((
                entry.rule,
                entry.arguments.of(&self.arguments),
                &entry.state,
            )),
            None => None,
        }
    }

    // The state at a place, if it is that of this pair.
    fn state_under(&self, place: usize, pair: &Pair<S>) -> Option<&S>
        ensures found { IfSome result (λ state. slice_get self.now place ≡ Some (key_of pair.now, state.now)) }
        ensures other { IfNone result ((state : S) → slice_get self.now place ≡ Some (key_of pair.now, state) → ⊥) }
    {
        let (rule, states, state) = self.entry(place)?;
        if rule == pair.rule && states == pair.states.as_slice() {
            Some(state)
        } else {
            None
        }
    }
}
