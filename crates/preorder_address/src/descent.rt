// Descents to a number, level by level.
ghost use Rattle.std.specs.Prelude.{◌≡◌, ◌↔◌, ◌<◌, ◌≤◌, ◌+◌, ◌-◌, ◌*◌, ℕ, [], ◌∷◌, length, sum_by, Some, IsSome, IfSome};
ghost use Rattle.std.specs.Option.{option_map};
ghost use Rattle.slt_grammar.specs.Bodies.{CallsBelow};
ghost use Rattle.slt_grammar.specs.Keyed.{IsKeyed, Keyed, rules_of};
ghost use Rattle.slt_grammar.specs.Segments.{node_tour, part_of, preorder};
ghost use Rattle.slt_grammar.specs.Tours.{stop};
ghost use Rattle.segment_counts.specs.Counting.{told};
ghost use Rattle.segment_counts.specs.declared.counts.Measure.TheVariants.{Nodes, All};
ghost use Rattle.preorder_address.specs.Chains.{LeadsToNumber};
ghost use Rattle.preorder_address.specs.Descents.{Given, IsInside, IsSmallNext, descent_to, levels_of, steps_of, told_next};
ghost use Rattle.preorder_address.specs.Numberings.{AreCountsOf, weigh_by};
ghost use Rattle.preorder_address.specs.Routes.{sought, stop_weight};
ghost use Rattle.preorder_address.specs.Stops.{FallsBy, GoesThrough, level_of};
ghost use Rattle.preorder_address.specs.Told.{told_weight};
ghost use Rattle.preorder_address.specs.declared.numbering.Numbering.TheVariants as by;

use crate::numbering::Numbering;
use read_steps::Steps;
use segment_counts::Counts;
use slt_grammar::{Grammar, Label, Level, TourWalk};
use std::sync::ledger::Ledger;

/// The levels that lead to a number, one after another. It takes no memory.
#[derive(Drop)]
pub struct Descent {
    pub(crate) by: Numbering,
    pub(crate) next: Option<Wanted>,
}

// A number of a rule's value.
#[derive(Clone, Copy, Drop)]
pub(crate) struct Wanted {
    pub(crate) rule: usize,
    pub(crate) number: u64,
}

/// A stop of a rule's tour: the walk stands there.
#[derive(Clone, Copy, Drop)]
pub struct RuleStop {
    pub rule: usize,
    pub walk: TourWalk,
}

// The stop of a walk at a part of a node, and what is left of a number there.
#[derive(Clone, Copy, Drop)]
pub(crate) struct FoundPart {
    pub(crate) walk: TourWalk,
    pub(crate) label: Label,
    pub(crate) offset: u64,
}

/// A descent to the node with this number, and None exactly where the number isn't below the total.
pub fn locate(counts: &Counts, number: u64) -> Option<Descent>
    ensures some { IsSome result ↔ number < told Nodes counts.now.rows (counts.now.rules - 1) 0 }
    ensures descent { IfSome result (λ descent. descent ≡ descent_to by.Nodes (counts.now.rules - 1) number) }
    ensures leads { (g : Keyed) → IsKeyed g → AreCountsOf (rules_of g.rules) counts.now → IfSome result (LeadsToNumber by.Nodes g.rules number) }
{
    let rule = counts.rules().saturating_sub(1);
    if number >= counts.nodes(rule, 0) {
        return None;
    }
    Some(Descent {
        by: Numbering::Nodes,
        next: Some(Wanted { rule, number }),
    })
}

/// A descent to the node or bottom at this place, counted from 0 with the bottoms, and None exactly where there are no more than
/// `place` of them.
pub fn locate_place(counts: &Counts, place: u64) -> Option<Descent>
    ensures some { IsSome result ↔ place < told All counts.now.rows (counts.now.rules - 1) 0 }
    ensures descent { IfSome result (λ descent. descent ≡ descent_to by.All (counts.now.rules - 1) place) }
    ensures leads { (g : Keyed) → IsKeyed g → AreCountsOf (rules_of g.rules) counts.now → IfSome result (LeadsToNumber by.All g.rules place) }
{
    let rule = counts.rules().saturating_sub(1);
    if place >= counts.all(rule, 0) {
        return None;
    }
    Some(Descent {
        by: Numbering::All,
        next: Some(Wanted {
            rule,
            number: place,
        }),
    })
}

impl Descent {
    /// The next level, and None where all were given. All calls of a descent together take at most four steps for each node of the
    /// bodies.
    pub fn next<L: Ledger>(
        &mut self,
        grammar: &Grammar,
        counts: &Counts,
        steps: &mut Steps<L>,
    ) -> Option<Level>
        requires counts { AreCountsOf (rules_of grammar.now.rules) counts.now }
        requires inside { IsInside grammar.now.rules self.old }
        ensures levels { Given result (levels_of grammar.now.rules self.old) (levels_of grammar.now.rules self.new) }
        ensures inside { IsInside grammar.now.rules self.new }
        ensures steps { steps.new + steps_of grammar.now.rules self.new ≤ steps.old + steps_of grammar.now.rules self.old }
    {
        let stop = self.next_stop(grammar, counts, steps)?;
        Some(Level {
            rule: stop.rule,
            key: stop.walk.key,
        })
    }

    /// The next level as the stop of its rule's tour into which the number falls, and None where all were given. It takes the steps
    /// of `next`.
    pub fn next_stop<L: Ledger>(
        &mut self,
        grammar: &Grammar,
        counts: &Counts,
        steps: &mut Steps<L>,
    ) -> Option<RuleStop>
        requires counts { AreCountsOf (rules_of grammar.now.rules) counts.now }
        requires inside { IsInside grammar.now.rules self.old }
        ensures levels { Given (option_map level_of result) (levels_of grammar.now.rules self.old) (levels_of grammar.now.rules self.new) }
        ensures through { GoesThrough grammar.now.rules result self.old self.new }
        ensures inside { IsInside grammar.now.rules self.new }
        ensures steps { steps.new + steps_of grammar.now.rules self.new ≤ steps.old + steps_of grammar.now.rules self.old }
    {
        // The call tells what is true of every grammar.
        let _limit = grammar.limit();
        let by = self.by;
        let wanted = self.next?;
        let found = find_part(grammar, counts, by, wanted, steps);
        self.next = next_wanted(counts, by, &found);
        Some(RuleStop {
            rule: wanted.rule,
            walk: found.walk,
        })
    }
}

// The part of a node of a rule's body into which a number falls.
pub(crate) fn find_part<L: Ledger>(
    grammar: &Grammar,
    counts: &Counts,
    by: Numbering,
    wanted: Wanted,
    steps: &mut Steps<L>,
) -> FoundPart
    requires keyed { IsKeyed grammar.now }
    requires rule { wanted.rule < length grammar.now.rules }
    requires number { wanted.number < sum_by (told_weight by counts.now) (node_tour grammar.now.rules wanted.rule) }
    ensures falls { (kids : ℕ) × FallsBy (told_weight by counts.now) grammar.now.rules wanted.rule wanted.number result.walk
        (stop (record { key = result.walk.key; label = result.label; kids = kids }) result.walk.part) result.offset }
    ensures calls { CallsBelow wanted.rule (result.label ∷ []) }
    ensures steps { steps.new ≤ steps.old + 2 * length (node_tour grammar.now.rules wanted.rule) }
{
    let mut walk = TourWalk::new(grammar, wanted.rule);
    let mut number = wanted.number;
    loop {
        let site = grammar.site(walk.key, steps);
        let weight = by.weight(counts, site.label, walk.part);
        if number < weight {
            return FoundPart {
                walk,
                label: site.label,
                offset: number,
            };
        }
        number -= weight;
        if !walk.advance(grammar, &site, steps) {
            unreachable!()
        }
    }
}

// Where a descent goes on from a part of a node.
pub(crate) fn next_wanted(counts: &Counts, by: Numbering, found: &FoundPart) -> Option<Wanted>
    requires { IsSmallNext by counts.now found.now.label found.now.walk.part found.now.offset }
    ensures { result ≡ told_next by counts.now found.now.label found.now.walk.part found.now.offset }
{
    match found.label {
        Label::Call(rule) => Some(Wanted {
            rule,
            number: counts.before(by.measure(), rule, found.walk.part) + found.offset,
        }),
        _ => None,
    }
}
