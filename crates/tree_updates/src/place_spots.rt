// Places of the code, found once: the levels that lead there are kept.
ghost use Rattle.std.specs.Prelude.{◌≡◌, ◌<◌, ◌++◌, refl, drop, ⊤, IfOk, OnOk};
ghost use Rattle.slt_grammar.specs.Keyed.{KeyedRule, rules_of};
ghost use Rattle.segment_counts.specs.Counting.{AreCounts};
ghost use Rattle.preorder_address.specs.Descents.{IsInside, levels_of};
ghost use Rattle.preorder_address.specs.Marks.{AreMarks};
ghost use Rattle.preorder_address.specs.Numberings.{AreCountsOf};
ghost use Rattle.tree_updates.specs.CodePlaces.{IsPlaceSpot, places_in};

use crate::store::Store;
use preorder_address::{Descent, Marks, PlaceStart, begin_place};
use read_steps::Steps;
use segment_counts::Counts;
use slt_grammar::{Grammar, Level, Way};
use std::alloc::{AllocError, Global};
use std::sync::ledger::Ledger;

// The levels that lead to a place, the start rule's first.
#[derive(Drop)]
pub(crate) struct PlaceSpot {
    levels: Vec<Level>,
}

// The levels of a place's spot, one after another. It reads neither rules nor counts.
#[derive(Drop)]
pub(crate) struct PlaceWay<'a> {
    levels: &'a [Level],
    given: usize,
}

// The spot of a place. Memory is asked for its levels alone.
pub(crate) fn find_place<L: Ledger>(
    alloc: Global,
    store: &Store,
    marks: &mut Marks,
    place: u64,
    steps: &mut Steps<L>,
) -> Result<PlaceSpot, AllocError>
    requires counts { AreCounts store.now.names (rules_of store.now.grammar.rules) store.now.counts }
    requires marks { AreMarks store.now.names store.now.grammar.rules marks.old }
    requires low { place < places_in store.now.grammar.rules }
    ensures spot { IfOk result (IsPlaceSpot store.now.grammar.rules place) }
    ensures marks { AreMarks store.now.names store.now.grammar.rules marks.new }
{
    let PlaceStart { level, rest, .. } = begin_place(
        &store.grammar,
        &store.counts,
        &store.names,
        place,
        marks,
        steps,
    );
    let mut levels = Vec::new(alloc);
    levels.push(level)?;
    push_levels(&store.grammar, &store.counts, rest, &mut levels, steps)?;
    Ok(PlaceSpot { levels })
}

// Puts the levels that a descent still gives behind others.
fn push_levels<L: Ledger>(
    grammar: &Grammar,
    counts: &Counts,
    rest: Descent,
    levels: &mut Vec<Level>,
    steps: &mut Steps<L>,
) -> Result<(), AllocError>
    requires counts { AreCountsOf (rules_of grammar.now.rules) counts.now }
    requires inside { IsInside grammar.now.rules rest }
    ensures levels { OnOk result (levels.new.items ≡ levels.old.items ++ levels_of grammar.now.rules rest) }
{
    let mut descent = rest;
    while let Some(level) = descent.next(grammar, counts, steps) {
        levels.push(level)?;
    }
    Ok(())
}

impl PlaceSpot {
    // The levels as a way.
    pub(crate) fn way(&self) -> PlaceWay<'_>
        ensures { drop result.given result.levels.now ≡ self.now.levels.items }
    {
        PlaceWay {
            levels: self.levels.as_slice(),
            given: 0,
        }
    }

    // The levels, the start rule's first.
    pub(crate) fn levels(&self) -> &[Level]
        ensures { result.now ≡ self.now.levels.items }
    {
        self.levels.as_slice()
    }
}

impl Way for PlaceWay<'_> {
    ghost ready = { λ way G. ⊤ };

    ghost levels = { λ way G. drop way.given way.levels.now };

    ghost most = { λ way G. 0 };

    ghost ready_stays = { λ way G H ready same. ready };

    ghost levels_stay = { λ way G H ready same. refl };

    ghost most_stays = { λ way G H ready same. refl };

    fn next<L: Ledger>(&mut self, _grammar: &Grammar, _steps: &mut Steps<L>) -> Option<Level> {
        let level = self.levels.get(self.given).copied()?;
        self.given += 1;
        Some(level)
    }
}
