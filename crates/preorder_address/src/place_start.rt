// The first level of a way, found from a mark.
ghost use Rattle.std.specs.Prelude.{◌≡◌, ◌<◌, ◌-◌, ◌∷◌, [], length, sum_by};
ghost use Rattle.slt_grammar.specs.Keyed.{rules_of};
ghost use Rattle.slt_grammar.specs.Segments.{preorder};
ghost use Rattle.segment_counts.specs.Counting.{AreCounts};
ghost use Rattle.segment_counts.specs.Weights.{all_weight, node_weight};
ghost use Rattle.preorder_address.specs.Descents.{IsInside, descent_to, levels_of};
ghost use Rattle.preorder_address.specs.Marks.{AreMarks, MarksFirst};
ghost use Rattle.preorder_address.specs.Numberings.{weigh_by};
ghost use Rattle.preorder_address.specs.declared.numbering.Numbering.TheVariants as by;

use crate::descent::{Descent, FoundPart, Wanted, next_wanted};
use crate::marks::{Mark, Marks, mark_at};
use crate::numbering::Numbering;
use crate::spot::{WeighedStop, find_stop};
use plain_tree::Names;
use read_steps::Steps;
use segment_counts::Counts;
use slt_grammar::{Grammar, Level};
use std::sync::ledger::Ledger;

/// The first level of a way, the mark of its node, and a descent to the levels behind it.
#[derive(Drop)]
pub struct PlaceStart {
    pub level: Level,
    pub first: Option<Mark>,
    pub rest: Descent,
}

/// The first level of the way to a place, counted with the bottoms. The search along the start begins at the last mark before the place,
/// and leaves marks as that for a node does. It takes no memory but for marks.
pub fn begin_place<L: Ledger>(
    grammar: &Grammar,
    counts: &Counts,
    names: &Names,
    place: u64,
    marks: &mut Marks,
    steps: &mut Steps<L>,
) -> PlaceStart
    requires counts { AreCounts names.now (rules_of grammar.now.rules) counts.now }
    requires low { place < sum_by all_weight (preorder (rules_of grammar.now.rules) (length grammar.now.rules - 1)) }
    requires marks { AreMarks names.now grammar.now.rules marks.old }
    ensures levels { levels_of grammar.now.rules (descent_to by.All (length grammar.now.rules - 1) place) ≡ result.level ∷ levels_of grammar.now.rules result.rest }
    ensures inside { IsInside grammar.now.rules result.rest }
    ensures marks { AreMarks names.now grammar.now.rules marks.new }
    ensures first { MarksFirst names.now grammar.now.rules (result.level ∷ []) result.first }
{
    begin_by(grammar, counts, names, Numbering::All, place, marks, steps)
}

/// The same of the way to the node with a number.
pub fn begin_node<L: Ledger>(
    grammar: &Grammar,
    counts: &Counts,
    names: &Names,
    number: u64,
    marks: &mut Marks,
    steps: &mut Steps<L>,
) -> PlaceStart
    requires counts { AreCounts names.now (rules_of grammar.now.rules) counts.now }
    requires low { number < sum_by node_weight (preorder (rules_of grammar.now.rules) (length grammar.now.rules - 1)) }
    requires marks { AreMarks names.now grammar.now.rules marks.old }
    ensures levels { levels_of grammar.now.rules (descent_to by.Nodes (length grammar.now.rules - 1) number) ≡ result.level ∷ levels_of grammar.now.rules result.rest }
    ensures inside { IsInside grammar.now.rules result.rest }
    ensures marks { AreMarks names.now grammar.now.rules marks.new }
    ensures first { MarksFirst names.now grammar.now.rules (result.level ∷ []) result.first }
{
    begin_by(
        grammar,
        counts,
        names,
        Numbering::Nodes,
        number,
        marks,
        steps,
    )
}

// The same by what the numbers count.
fn begin_by<L: Ledger>(
    grammar: &Grammar,
    counts: &Counts,
    names: &Names,
    by: Numbering,
    number: u64,
    marks: &mut Marks,
    steps: &mut Steps<L>,
) -> PlaceStart
    requires counts { AreCounts names.now (rules_of grammar.now.rules) counts.now }
    requires low { number < sum_by (weigh_by by) (preorder (rules_of grammar.now.rules) (length grammar.now.rules - 1)) }
    requires marks { AreMarks names.now grammar.now.rules marks.old }
    ensures levels { levels_of grammar.now.rules (descent_to by (length grammar.now.rules - 1) number) ≡ result.level ∷ levels_of grammar.now.rules result.rest }
    ensures inside { IsInside grammar.now.rules result.rest }
    ensures marks { AreMarks names.now grammar.now.rules marks.new }
    ensures first { MarksFirst names.now grammar.now.rules (result.level ∷ []) result.first }
{
    // The call tells what is true of every grammar.
    let _limit = grammar.limit();
    let start = grammar.rules() - 1;
    let wanted = Wanted {
        rule: start,
        number,
    };
    let WeighedStop {
        walk,
        label,
        passed,
    } = find_stop(grammar, counts, names, by, wanted, marks, steps);
    let before = by.of(passed);
    let part = FoundPart {
        walk,
        label,
        offset: number - before,
    };
    PlaceStart {
        level: Level {
            rule: start,
            key: walk.key,
        },
        first: mark_at(&walk, passed),
        rest: Descent {
            by,
            next: next_wanted(counts, by, &part),
        },
    }
}
