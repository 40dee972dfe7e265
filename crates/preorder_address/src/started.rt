// Ways whose first level was found before, from a mark.
ghost use Rattle.std.specs.Prelude.{◌≡◌, ◌≤◌, Some, refl};
ghost use Rattle.std.proofs.Common.{ap};
ghost use Rattle.slt_grammar.specs.Keyed.{IsKeyed, Keyed, rules_of};
ghost use Rattle.preorder_address.specs.Descents.{IsInside, levels_of};
ghost use Rattle.preorder_address.specs.Numberings.{AreCountsOf};
ghost use Rattle.preorder_address.specs.Staying.{levels-stay, ready-stays, steps-stay};
ghost use Rattle.preorder_address.specs.Starting.{same-rest, started};
ghost use Rattle.preorder_address.specs.Told.{AreTold, steps_for, told_levels};

use crate::descent::Descent;
use crate::way::CountedDescent;
use read_steps::Steps;
use segment_counts::Counts;
use slt_grammar::{Grammar, Level, Way};
use std::sync::ledger::Ledger;

/// A level, until it was given, and a descent to the levels behind it.
#[derive(Drop)]
pub struct StartedDescent<'a> {
    pub(crate) first: Option<Level>,
    pub(crate) rest: CountedDescent<'a>,
}

impl Descent {
    /// The descent as a way, with a level before its own. The counts are those of the grammar in which it leads to its node.
    pub fn behind(self, level: Level, counts: &Counts) -> StartedDescent<'_>
        ensures first { result.first ≡ Some level }
        ensures descent { result.rest.descent ≡ self }
        ensures counts { result.rest.counts.now ≡ counts.now }
        ensures ready { (g : Keyed) → IsKeyed g → AreCountsOf (rules_of g.rules) counts.now → IsInside g.rules self → AreTold self.by counts.now g.rules self.next }
        ensures levels { (g : Keyed) → IsKeyed g → AreCountsOf (rules_of g.rules) counts.now → IsInside g.rules self → told_levels self.by counts.now g.rules self.next ≡ levels_of g.rules self }
    {
        StartedDescent {
            first: Some(level),
            rest: self.over(counts),
        }
    }
}

impl Way for StartedDescent<'_> {
    ghost ready = { λ way G. AreTold way.rest.descent.by way.rest.counts.now G way.rest.descent.next };

    ghost levels = { λ way G. started way.first (told_levels way.rest.descent.by way.rest.counts.now G way.rest.descent.next) };

    ghost most = { λ way G. steps_for G (told_levels way.rest.descent.by way.rest.counts.now G way.rest.descent.next) };

    ghost ready_stays = { λ way G H ready same. ready-stays way.rest.descent.by way.rest.counts.now G H way.rest.descent.next ready
        (same-rest way.first (told_levels way.rest.descent.by way.rest.counts.now G way.rest.descent.next) G H same) };

    ghost levels_stay = { λ way G H ready same. ap (started way.first) (levels-stay way.rest.descent.by way.rest.counts.now G H way.rest.descent.next ready
        (same-rest way.first (told_levels way.rest.descent.by way.rest.counts.now G way.rest.descent.next) G H same)) };

    ghost most_stays = { λ way G H ready same. steps-stay way.rest.descent.by way.rest.counts.now G H way.rest.descent.next ready
        (same-rest way.first (told_levels way.rest.descent.by way.rest.counts.now G way.rest.descent.next) G H same) };

    fn next<L: Ledger>(&mut self, grammar: &Grammar, steps: &mut Steps<L>) -> Option<Level> {
        if let Some(level) = self.first.take() {
            return Some(level);
        }
        self.rest.next(grammar, steps)
    }
}
