// Marks of the start, from which a search begins, as preorder_address promises them.
ghost use Rattle.std.specs.Prelude.{◌↔◌, ◌<◌, ◌≤◌, ◌+◌, ◌-◌, ◌*◌, IsSome, IfOk, IfSome, length, All, option_to_list};
ghost use Rattle.slt_grammar.specs.Grammars.{whole};
ghost use Rattle.slt_grammar.specs.Keyed.{rules_of};
ghost use Rattle.segment_counts.specs.Counting.{AreCounts, told};
ghost use Rattle.segment_counts.specs.declared.counts.Measure.TheVariants.{Nodes};
ghost use Rattle.preorder_address.specs.Chains.{LeadsToNumber};
ghost use Rattle.preorder_address.specs.Descents.{descent_to};
ghost use Rattle.preorder_address.specs.Marks.{AreMarks, MarksFirst};
ghost use Rattle.preorder_address.specs.Shifted.{IsLeft};
ghost use Rattle.preorder_address.specs.Spots.{IsSpot};
ghost use Rattle.preorder_address.specs.declared.numbering.Numbering.TheVariants as by;

use plain_tree::Names;
use preorder_address::{Marks, Shift, Spot, find_marked};
use read_steps::Steps;
use rule_arena::Key;
use segment_counts::Counts;
use slt_grammar::Grammar;
use std::alloc::{AllocError, Global};
use std::sync::ledger::Ledger;

/// Where a node stands in the rules, found from a mark before it. The marks are those of the grammar again.
pub fn find_marked_told<L: Ledger>(
    alloc: Global,
    grammar: &Grammar,
    counts: &Counts,
    names: &Names,
    number: u64,
    marks: &mut Marks,
    steps: &mut Steps<L>,
) -> Result<Option<Spot>, AllocError>
    requires counts { AreCounts names.now (rules_of grammar.now.rules) counts.now }
    requires marks { AreMarks names.now grammar.now.rules marks.old }
    ensures spot { IfOk result (λ spot. IfSome spot (IsSpot names.now grammar.now.rules number)) }
    ensures leads { IfOk result (λ spot. IfSome spot (λ spot. LeadsToNumber by.Nodes grammar.now.rules number (descent_to by.Nodes (length grammar.now.rules - 1) number))) }
    ensures some { IfOk result (λ spot. IsSome spot ↔ number < told Nodes counts.now.rows (counts.now.rules - 1) 0) }
    ensures marks { AreMarks names.now grammar.now.rules marks.new }
    ensures first { IfOk result (λ spot. IfSome spot (λ spot. MarksFirst names.now grammar.now.rules spot.levels.items spot.first)) }
    ensures steps { steps.new ≤ steps.old + 4 * whole (rules_of grammar.now.rules) }
{
    find_marked(alloc, grammar, counts, names, number, marks, steps)
}

/// Marks behind an edit follow it, and the one whose key is gone goes.
pub fn shift_told(marks: &mut Marks, shift: &Shift, gone: Option<Key>)
    ensures { All (IsLeft shift.now (option_to_list gone) marks.old) marks.new }
{
    marks.shift(shift, gone)
}
