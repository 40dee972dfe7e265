// Descents as ways, over counts that they keep.
ghost use Rattle.std.specs.Prelude.{◌≡◌, ◌≤◌, ◌*◌};
ghost use Rattle.slt_grammar.specs.Grammars.{whole};
ghost use Rattle.slt_grammar.specs.Keyed.{IsKeyed, Keyed, rules_of};
ghost use Rattle.preorder_address.specs.Descents.{IsInside, levels_of};
ghost use Rattle.preorder_address.specs.Numberings.{AreCountsOf};
ghost use Rattle.preorder_address.specs.Staying.{levels-stay, ready-stays, steps-stay};
ghost use Rattle.preorder_address.specs.Told.{AreTold, steps_for, told_levels};

use crate::descent::{Descent, find_part, next_wanted};
use read_steps::Steps;
use segment_counts::Counts;
use slt_grammar::{Grammar, Level, Way};
use std::sync::ledger::Ledger;

/// A descent with the counts by which it goes.
#[derive(Drop)]
pub struct CountedDescent<'a> {
    pub(crate) descent: Descent,
    pub(crate) counts: &'a Counts,
}

impl Descent {
    /// The descent as a way. The counts are those of the grammar in which it leads to its node.
    pub fn over(self, counts: &Counts) -> CountedDescent<'_>
        ensures descent { result.descent ≡ self }
        ensures counts { result.counts.now ≡ counts.now }
        ensures ready { (g : Keyed) → IsKeyed g → AreCountsOf (rules_of g.rules) counts.now → IsInside g.rules self → AreTold self.by counts.now g.rules self.next }
        ensures levels { (g : Keyed) → IsKeyed g → AreCountsOf (rules_of g.rules) counts.now → IsInside g.rules self → told_levels self.by counts.now g.rules self.next ≡ levels_of g.rules self }
        ensures most { (g : Keyed) → IsKeyed g → AreCountsOf (rules_of g.rules) counts.now → IsInside g.rules self → steps_for g.rules (levels_of g.rules self) ≤ 4 * whole (rules_of g.rules) }
    {
        CountedDescent {
            descent: self,
            counts,
        }
    }
}

impl Way for CountedDescent<'_> {
    ghost ready = { λ way G. AreTold way.descent.by way.counts.now G way.descent.next };

    ghost levels = { λ way G. told_levels way.descent.by way.counts.now G way.descent.next };

    ghost most = { λ way G. steps_for G (told_levels way.descent.by way.counts.now G way.descent.next) };

    ghost ready_stays = { λ way G H. ready-stays way.descent.by way.counts.now G H way.descent.next };

    ghost levels_stay = { λ way G H. levels-stay way.descent.by way.counts.now G H way.descent.next };

    ghost most_stays = { λ way G H. steps-stay way.descent.by way.counts.now G H way.descent.next };

    fn next<L: Ledger>(&mut self, grammar: &Grammar, steps: &mut Steps<L>) -> Option<Level> {
        // The call tells what is true of every grammar.
        let _limit = grammar.limit();
        let by = self.descent.by;
        let wanted = self.descent.next?;
        let found = find_part(grammar, self.counts, by, wanted, steps);
        self.descent.next = next_wanted(self.counts, by, &found);
        Some(Level {
            rule: wanted.rule,
            key: found.walk.key,
        })
    }
}
