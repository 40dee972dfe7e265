// Spots as ways: the levels were written down.
ghost use Rattle.std.specs.Prelude.{◌≡◌, ◌≤◌, refl, drop, ⊤};
ghost use Rattle.slt_grammar.specs.Keyed.{KeyedRule};

use crate::spot::Spot;
use read_steps::Steps;
use slt_grammar::{Grammar, Level, Way};
use std::sync::ledger::Ledger;

/// The levels of a spot, one after another. It reads neither rules nor counts.
#[derive(Drop)]
pub struct SpotWay<'a> {
    pub(crate) levels: &'a [Level],
    pub(crate) given: usize,
}

impl Spot {
    /// The spot's levels as a way.
    pub fn way(&self) -> SpotWay<'_>
        ensures { drop result.given result.levels.now ≡ self.now.levels.items }
    {
        SpotWay {
            levels: self.levels.as_slice(),
            given: 0,
        }
    }
}

impl Way for SpotWay<'_> {
    ghost ready = { λ way G. ⊤ };

    ghost levels = { λ way G. drop way.given way.levels.now };

    ghost most = { λ way G. 0 };

    ghost ready_stays = { λ way G H ready same. ready };

    ghost levels_stay = { λ way G H ready same. refl };

    ghost most_stays = { λ way G H ready same. refl };

    fn next<L: Ledger>(&mut self, _grammar: &Grammar, _steps: &mut Steps<L>) -> Option<Level> {
        let level = self.levels.get(self.given).copied()?;
        self.given += 1;
        Some(level)
    }
}
