// What a run downward knows of pairs at down states of their roots.
ghost use Rattle.std.specs.Prelude.{◌≡◌, ◌≢◌, ◌++◌, [], ◌∷◌, Some, IfSome, IfNone, OnOk, Contains, All, IfOk};
ghost use Rattle.rule_runs.specs.Outcomes.{outcome};

use crate::index::Numbered;
use crate::span::Span;
use crate::table::Table;
use crate::told::Told;
use slt_grammar::RunState;
use std::alloc::{AllocError, Global};
use std::marker::Model;

/// A pair of the table of a run upward, by its place, with the down state of its root.
#[derive(PartialEq, Eq, Hash, Drop)]
pub struct Spot<D> {
    pub pair: usize,
    pub down: D,
}

impl<D: RunState> Numbered for Spot<D> {
    ghost use Rattle.std.proofs.Common.{rules};

    ghost number_of = { λ spot. spot.pair };

    fn number(&self) -> usize {
        self.pair
    }

    fn copy(&self) -> Result<Spot<D>, AllocError> {
        Ok(Spot {
            pair: self.pair,
            down: self.down.copy()?,
        })
    }

    ghost one_number = { Prim.search rules };
}

// A parameter of a rule: the stretch before it, and its down state.
#[derive(Drop)]
pub(crate) struct Handed<D> {
    pub(crate) before: Told,
    pub(crate) down: D,
}

// Where what a spot hands to its parameters stands among what all do, and the stretch behind the last of them.
#[derive(Clone, Copy, Drop)]
pub(crate) struct Passed {
    handed: Span,
    last: Told,
}

// The outcomes of spots.
pub(crate) struct Spots<D: RunState> {
    table: Table<Spot<D>, Passed>,
    // What the spots hand to their parameters, in the order in which they were noted, so that none takes memory of its own.
    handed: Vec<Handed<D>>,
}

impl<D: RunState> Drop for Spots<D> {
    fn drop(self) {
        let Spots {
            table: _table,
            handed: _handed,
        } = self;
    }
}

impl<D: RunState> Model for Spots<D> {
    ghost use Rattle.std.specs.Prelude.{List, length, All};
    ghost use Rattle.rule_runs.specs.declared.spots.Spot.{Spot};
    ghost use Rattle.rule_runs.specs.Outcomes.{Outcome, outcomes_of};
    ghost use Rattle.rule_runs.specs.Spans.{LiesWithin};

    ghost Value = { List (Spot D × Outcome D) };

    ghost view = { λ m. outcomes_of m.handed.items m.table };

    ghost invariant = { λ m. All (λ e. LiesWithin (length m.handed.items) e.1.handed) m.table };
}

impl<D: RunState> Spots<D> {
    // With room for so many spots of as many pairs.
    pub(crate) fn with_room(alloc: Global, count: usize) -> Result<Spots<D>, AllocError>
        ensures { IfOk result (λ spots. spots ≡ []) }
    {
        Ok(Spots {
            table: Table::with_room(alloc, count)?,
            handed: Vec::new(alloc),
        })
    }

    // What a spot hands to its parameters, and the stretch behind the last of them.
    pub(crate) fn find(&self, spot: &Spot<D>) -> Option<(&[Handed<D>], Told)>
        ensures found { IfSome result (λ r. Contains self.now (spot.now, outcome r.0.now r.1)) }
        ensures absent { IfNone result (All (λ e. e.0 ≢ spot.now) self.now) }
    {
        match self.table.find(spot) {
            Some((_, passed)) => Some((passed.handed.of(&self.handed), passed.last)),
            None => None,
        }
    }

    // Notes the outcome of a spot that is not there yet. What it hands on is taken out of its list.
    pub(crate) fn note(
        &mut self,
        spot: Spot<D>,
        handed: &mut Vec<Handed<D>>,
        last: Told,
    ) -> Result<(), AllocError>
        requires { All (λ e. e.0 ≢ spot) self.old }
        ensures ok { OnOk result (self.new ≡ self.old ++ (spot, outcome handed.old.items last) ∷ []) }
    {
        let begin = self.handed.len();
        self.handed.append(handed)?;
        let handed = Span::new(begin, self.handed.len())?;
        self.table.note(spot, Passed { handed, last })
    }
}
