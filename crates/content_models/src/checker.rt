// The checker of a schema.
ghost use Rattle.std.specs.Prelude.{◌≡◌, [], get_or, IfOk};
ghost use Rattle.content_models.specs.Checking.{before, behind, checking_algebra, checking_downward, far, misses, near};
ghost use Rattle.content_models.specs.Ways.{leads, to_end};
ghost use Rattle.content_models.specs.declared.sorts.Sort.TheVariants.{Other};

use crate::marking::{NO_SETS, are_empty, next_bits, next_sets, open};
use crate::sets::Sets;
use crate::sorts::Sort;
use crate::states::{Chain, OneState};
use crate::ways::{Spot, Way};
use slt_grammar::{Falling, Fell, Rising, RunState};
use std::alloc::{AllocError, Global};
use std::marker::Model;

/// The places of a symbol in the models of a schema.
#[derive(Drop)]
pub(crate) struct Row {
    pub spots: Vec<Spot>,
}

impl Model for Row {
    ghost use Rattle.std.specs.Prelude.{List};
    ghost use Rattle.content_models.specs.declared.ways.Spot.{Spot};

    ghost Value = { List Spot };

    ghost view = { λ r. r.spots.items };
}

impl Row {
    ghost use Rattle.std.specs.Prelude.{◌≡◌, ◌++◌, ◌∷◌, [], OnOk};

    pub(crate) fn push(&mut self, spot: Spot) -> Result<(), AllocError>
        ensures { OnOk result (self.new ≡ self.old ++ spot ∷ []) }
    {
        self.spots.push(spot)?;
        Ok(())
    }
}

/// Finds the elements whose children their models do not match.
#[derive(Drop)]
pub struct Checker {
    pub(crate) alloc: Global,
    pub(crate) sorts: Vec<Sort>,
    // where each model begins
    pub(crate) fronts: Vec<Way>,
    pub(crate) rows: Vec<Row>,
}

impl Model for Checker {
    ghost use Rattle.content_models.specs.Checking.{Checking};

    ghost Value = { Checking };

    ghost view = { λ c. record { sorts = c.sorts.items; fronts = c.fronts.items; rows = c.rows.items } };
}

impl Checker {
    fn sort(&self, symbol: usize) -> Sort
        ensures { result ≡ get_or self.now.sorts symbol Other }
    {
        match self.sorts.get(symbol) {
            Some(sort) => *sort,
            None => Sort::Other,
        }
    }

    fn row(&self, symbol: usize) -> &[Spot]
        ensures { result.now ≡ get_or self.now.rows symbol [] }
    {
        match self.rows.get(symbol) {
            Some(row) => row.spots.as_slice(),
            None => &[],
        }
    }

    /// The state of a chain with an element of the symbol before it.
    fn behind(&self, symbol: usize, rest: &Chain) -> Result<Chain, AllocError>
        ensures { IfOk result (λ chain. chain ≡ behind self.now.rows symbol rest.now) }
    {
        let row = self.row(symbol);
        match rest {
            Chain::Empty => before(self.alloc, symbol, row, &NO_SETS, true),
            Chain::Stuck => Ok(Chain::Stuck),
            Chain::Near(first, bits) => {
                let mut sets = NO_SETS;
                open(self.row(*first), *bits, &mut sets);
                before(self.alloc, symbol, row, &sets, false)
            }
            Chain::Far(sets) => before(self.alloc, symbol, row, sets.words(), false),
        }
    }

    fn leads(&self, model: usize, sets: &[u64], ended: bool) -> bool
        ensures { result ≡ leads (get_or self.now.fronts model to_end) (get_or sets.now model 0) ended }
    {
        let set = match sets.get(model) {
            Some(set) => *set,
            None => 0,
        };
        self.front(model).leads(set, ended)
    }

    fn front(&self, model: usize) -> Way
        ensures { result ≡ get_or self.now.fronts model to_end }
    {
        match self.fronts.get(model) {
            Some(front) => *front,
            None => Way { set: 0, end: true },
        }
    }

    /// Whether a model does not match a chain.
    fn misses(&self, model: usize, kids: &Chain) -> bool
        ensures { result ≡ misses self.now model kids.now }
    {
        match kids {
            Chain::Empty => !self.leads(model, &NO_SETS, true),
            Chain::Stuck => !self.leads(model, &NO_SETS, false),
            Chain::Near(first, bits) => {
                let mut sets = NO_SETS;
                open(self.row(*first), *bits, &mut sets);
                !self.leads(model, &sets, false)
            }
            Chain::Far(sets) => !self.leads(model, sets.words(), false),
        }
    }
}

/// The state of a chain with an element before it, of which this symbol and this row are.
fn before(
    alloc: Global,
    symbol: usize,
    row: &[Spot],
    sets: &[u64],
    ended: bool,
) -> Result<Chain, AllocError>
    ensures { IfOk result (λ chain. chain ≡ before symbol row.now sets.now ended) }
{
    if row.len() <= 64 {
        Ok(near(symbol, next_bits(sets, ended, row)))
    } else {
        let mut next = NO_SETS;
        next_sets(sets, ended, row, &mut next);
        far(alloc, &next)
    }
}

fn near(symbol: usize, bits: u64) -> Chain
    ensures { result ≡ near symbol bits }
{
    if bits == 0 {
        Chain::Stuck
    } else {
        Chain::Near(symbol, bits)
    }
}

fn far(alloc: Global, sets: &[u64]) -> Result<Chain, AllocError>
    ensures { IfOk result (λ chain. chain ≡ far sets.now) }
{
    if are_empty(sets) {
        Ok(Chain::Stuck)
    } else {
        Ok(Chain::Far(Sets::from_words(alloc, sets)?))
    }
}

impl Rising for Checker {
    type State = Chain;

    ghost algebra = { checking_algebra };

    fn bottom(&self) -> Result<Chain, AllocError> {
        Ok(Chain::Empty)
    }

    fn node(&self, symbol: usize, _kids: &Chain, rest: &Chain) -> Result<Chain, AllocError> {
        match self.sort(symbol) {
            Sort::Other => rest.copy(),
            Sort::Free | Sort::Ruled(_) => self.behind(symbol, rest),
        }
    }
}

impl Falling for Checker {
    type Down = OneState;

    ghost downward = { checking_downward };

    fn start(&self) -> Result<OneState, AllocError> {
        Ok(OneState)
    }

    fn step(
        &self,
        symbol: usize,
        _down: &OneState,
        kids: &Chain,
        _rest: &Chain,
    ) -> Result<Fell<OneState>, AllocError> {
        let hit = match self.sort(symbol) {
            Sort::Other | Sort::Free => false,
            Sort::Ruled(model) => self.misses(model, kids),
        };
        Ok(Fell {
            hit,
            left: OneState,
            right: OneState,
        })
    }
}
